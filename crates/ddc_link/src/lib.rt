//! Sources, sinks and clocks: what the cache reads from, writes to and tells the hour by.
//!
//! A source tells what it has left and a sink what was written to it, each where it knows that, and
//! both count their faults. Code above is generic over them and proved once.
#![tactic(auto)]

ghost use Rattle.std.specs.Prelude.{◌≡◌, ℕ, ◌<◌, ◌≤◌, List, Option, length, IfOk, OnOk, OnErr, IfSome};
ghost use Rattle.std.specs.Io.{ReadsAtMost};
ghost use Rattle.std.specs.Io.KnownBytes.{ReadConsumes, WriteAppends, Appends};
ghost use Rattle.ddc_names.specs.Causes.{HasCause};
ghost use Rattle.ddc_link.specs.Writes.{AppendsFront};

use ddc_names::Failed;

mod clocks;
mod memory;
mod standard;

pub use clocks::{FixedClock, SystemClock};
pub use memory::{MemSink, MemSource};
pub use standard::{StdSink, StdSource};

/// Where bytes come from. Each call that answers `Failed` raises the count of faults, and each call
/// that is Ok leaves it as it was.
pub trait Source {
    /// The bytes that are left, where the source tells them.
    ghost left: { Self → Option (List ℕ) };

    /// How often it has failed.
    ghost faults: { Self → ℕ };

    /// Takes some of the bytes that are left into the front of a buffer, which isn't empty. Gives
    /// how many; 0 comes only at the end of the input.
    ///
    /// # Errors
    ///
    /// `Failed` where the source failed. No byte that was left is lost.
    fn take(&mut self, into: &mut [u8]) -> Result<usize, Failed>
        requires { 0 < length into.old }
        ensures bound { ReadsAtMost result into.new }
        ensures bytes { ReadConsumes (left self.old) (left self.new) result into.new }
        ensures cause { HasCause (faults self.old) (faults self.new) result };
}

/// Where bytes go. Each call that answers `Failed` raises the count of faults, and each call that is
/// Ok leaves it as it was.
pub trait Sink {
    /// The bytes that were written, where the sink tells them.
    ghost written: { Self → Option (List ℕ) };

    /// How often it has failed.
    ghost faults: { Self → ℕ };

    /// Writes some of the bytes, which aren't empty, from the front. Gives how many, at least one.
    ///
    /// # Errors
    ///
    /// `Failed` where the sink failed. Nothing was written.
    fn put(&mut self, bytes: &[u8]) -> Result<usize, Failed>
        requires { 0 < length bytes.now }
        ensures bound { IfOk result (λ n. (0 < n) × (n ≤ length bytes.now)) }
        ensures bytes { WriteAppends (written self.old) (written self.new) result bytes.now }
        ensures cause { HasCause (faults self.old) (faults self.new) result };
}

/// What tells the hour.
pub trait Clock {
    /// The hour, where the clock tells it.
    ghost tells: { Self → Option ℕ };

    /// The whole hours since 1970. It can't fail.
    fn hour(&self) -> u32
        ensures { IfSome (tells self.now) (λ hour. result ≡ hour) };

    /// Lets some time pass. Nothing is promised of it.
    fn rest(&self);
}

/// Writes all of the bytes, in as many puts as the sink needs.
///
/// # Errors
///
/// `Failed` where a put failed. A front of the bytes was written.
pub fn put_all<W: Sink>(sink: &mut W, bytes: &[u8]) -> Result<(), Failed>
    ensures ok { OnOk result (Appends (W.written sink.old) (W.written sink.new) bytes.now) }
    ensures err { OnErr result (AppendsFront (W.written sink.old) (W.written sink.new) bytes.now) }
    ensures cause { HasCause (W.faults sink.old) (W.faults sink.new) result }
{
    let mut rest = bytes;
    'pieces: while !rest.is_empty() {
        match sink.put(rest) {
            Ok(count) => rest = &rest[count..],
            Err(failed) => return Err(failed),
        }
    }
    Ok(())
}
