//! A source and a sink in memory, with the sizes of their pieces and the calls that fail.

ghost use Rattle.std.specs.Prelude.{◌≡◌, ◌+◌, ◌<◌, ◌≤◌, ◌↔◌, [], false, length, Some, IsErr, IfOk, IsTrue, OnOk, is_ok, slice_get};
ghost use Rattle.std.specs.Io.{ReadsAtMost};
ghost use Rattle.std.specs.Io.KnownBytes.{ReadConsumes, WriteAppends};
ghost use Rattle.ddc_names.specs.Causes.{HasCause};
ghost use Rattle.ddc_link.specs.Memory.{is_listed, limited, piece, after_take, after_put};

use crate::{Sink, Source};
use ddc_names::{ByteList, Failed, Rows};
use std::alloc::Global;
use std::marker::Model;

/// A source of bytes in memory. Contracts see what it has left, the sizes and numbers that it was
/// made with, and how often it was called and failed.
#[derive(Debug, Drop)]
pub struct MemSource {
    bytes: ByteList,
    at: usize,
    sizes: Rows<u32>,
    failing: Rows<u64>,
    calls: u64,
    faults: u64,
}

impl Model for MemSource {
    ghost use Rattle.std.specs.Prelude.{◌≤◌, drop, length};
    ghost use Rattle.ddc_link.specs.Memory.{Feed};

    ghost Value = { Feed };

    ghost view = { λ s. record { left = drop s.at s.bytes; sizes = s.sizes; failing = s.failing; calls = s.calls; faults = s.faults } };

    ghost invariant = { λ s. s.at ≤ length s.bytes };
}

impl MemSource {
    /// A source of these bytes. Call `k`, counted from 0, fails where `failing` lists `k`, and gives
    /// at most `sizes[k]` bytes, or as many as there is room for where `sizes` has ended. A size of
    /// 0 counts as 1.
    pub fn new(bytes: ByteList, sizes: Rows<u32>, failing: Rows<u64>) -> MemSource
        ensures { result ≡ record { left = bytes; sizes = sizes; failing = failing; calls = 0; faults = 0 } }
    {
        MemSource {
            bytes,
            at: 0,
            sizes,
            failing,
            calls: 0,
            faults: 0,
        }
    }
}

// At most so many bytes go into a piece.
fn within(sizes: &[u32], call: u64, room: usize) -> usize
    ensures { result ≡ limited (slice_get sizes.now call) room }
{
    let size = match usize::try_from(call) {
        Ok(call) => sizes.get(call),
        Err(_) => None,
    };
    match size {
        Some(size) => room.min((*size as usize).max(1)),
        None => room,
    }
}

impl Source for MemSource {
    ghost left = { λ s. Some s.left };

    ghost faults = { λ s. s.faults };

    fn take(&mut self, into: &mut [u8]) -> Result<usize, Failed>
        requires { 0 < length into.old }
        ensures bound { ReadsAtMost result into.new }
        ensures bytes { ReadConsumes (Some self.old.left) (Some self.new.left) result into.new }
        ensures cause { HasCause self.old.faults self.new.faults result }
        ensures fails { IsErr result ↔ IsTrue (is_listed self.old.failing self.old.calls) }
        ensures count { IfOk result (λ n. n ≡ piece self.old (length into.old)) }
        ensures after { self.new ≡ after_take self.old (length into.old) }
    {
        let call = self.calls;
        self.calls = call.saturating_add(1);
        if self.failing.as_slice().contains(&call) {
            self.faults = self.faults.saturating_add(1);
            return Err(Failed);
        }
        let left = &self.bytes.as_slice()[self.at..];
        let count = within(self.sizes.as_slice(), call, left.len().min(into.len()));
        into[..count].copy_from_slice(&left[..count]);
        self.at += count;
        Ok(count)
    }
}

/// A sink in memory. Contracts see what was written, the numbers that it was made with, and how
/// often it was called, failed as listed and found no memory.
#[derive(Debug, Drop)]
pub struct MemSink {
    bytes: Vec<u8>,
    failing: Rows<u64>,
    calls: u64,
    failed: u64,
    starved: u64,
}

impl Model for MemSink {
    ghost use Rattle.ddc_link.specs.Memory.{Store};

    ghost Value = { Store };

    ghost view = { λ s. record { written = s.bytes.items; failing = s.failing; calls = s.calls; failed = s.failed; starved = s.starved } };
}

impl MemSink {
    /// An empty sink. Call `k`, counted from 0, fails where `failing` lists `k`.
    pub fn new(alloc: Global, failing: Rows<u64>) -> MemSink
        ensures { result ≡ record { written = []; failing = failing; calls = 0; failed = 0; starved = 0 } }
    {
        MemSink {
            bytes: Vec::new(alloc),
            failing,
            calls: 0,
            failed: 0,
            starved: 0,
        }
    }

    /// What was written.
    pub fn written(&self) -> &[u8]
        ensures { result.now ≡ self.now.written }
    {
        &self.bytes
    }

    /// How many puts found no memory. Such a put has no number. The count of faults is that of the
    /// listed calls that were made, plus this.
    pub fn starved(&self) -> u64
        ensures { result ≡ self.now.starved }
    {
        self.starved
    }
}

impl Sink for MemSink {
    ghost written = { λ s. Some s.written };

    ghost faults = { λ s. s.failed + s.starved };

    fn put(&mut self, bytes: &[u8]) -> Result<usize, Failed>
        requires { 0 < length bytes.now }
        ensures bound { IfOk result (λ n. (0 < n) × (n ≤ length bytes.now)) }
        ensures bytes { WriteAppends (Some self.old.written) (Some self.new.written) result bytes.now }
        ensures cause { HasCause (self.old.failed + self.old.starved) (self.new.failed + self.new.starved) result }
        ensures listed { OnOk result (is_listed self.old.failing self.old.calls ≡ false) }
        ensures whole { IfOk result (λ n. n ≡ length bytes.now) }
        ensures after { self.new ≡ after_put self.old (is_ok result) bytes.now }
    {
        if self.failing.as_slice().contains(&self.calls) {
            self.calls = self.calls.saturating_add(1);
            self.failed = self.failed.saturating_add(1);
            return Err(Failed);
        }
        match self.bytes.extend_from_slice(bytes) {
            Ok(()) => {
                self.calls = self.calls.saturating_add(1);
                Ok(bytes.len())
            }
            Err(_) => {
                self.starved = self.starved.saturating_add(1);
                Err(Failed)
            }
        }
    }
}
