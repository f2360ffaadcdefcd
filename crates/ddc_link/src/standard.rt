//! The standard streams of the process. What they give and take is not known to any clause.

ghost use Rattle.std.specs.Prelude.{◌≡◌, ◌<◌, ◌≤◌, length, IfOk, None};
ghost use Rattle.std.specs.Io.{ReadsAtMost};
ghost use Rattle.std.specs.Io.KnownBytes.{ReadConsumes, WriteAppends};
ghost use Rattle.ddc_names.specs.Causes.{HasCause};

use crate::{Sink, Source};
use ddc_names::Failed;
use std::io::{Read, Stderr, Stdin, Stdout, Write};

/// Standard input. It can't be copied, so that its count of faults never falls.
#[derive(Drop)]
pub struct StdSource {
    input: Stdin,
    faults: u64,
}

impl StdSource {
    /// The standard input that the runtime's handle stands for.
    pub fn new(input: Stdin) -> StdSource
        ensures { result.faults ≡ 0 }
    {
        StdSource { input, faults: 0 }
    }
}

impl Source for StdSource {
    ghost left = { λ _. None };

    ghost faults = { λ source. source.faults };

    fn take(&mut self, into: &mut [u8]) -> Result<usize, Failed> {
        take_from(&mut self.input, &mut self.faults, into)
    }
}

/// Standard output or standard error. It can't be copied, so that its count of faults never falls.
#[derive(Drop)]
pub struct StdSink {
    stream: Stream,
    faults: u64,
}

#[derive(Clone, Copy)]
enum Stream {
    Out(Stdout),
    Err(Stderr),
}

impl StdSink {
    /// The standard output that the runtime's handle stands for.
    pub fn out(output: Stdout) -> StdSink
        ensures { result.faults ≡ 0 }
    {
        StdSink {
            stream: Stream::Out(output),
            faults: 0,
        }
    }

    /// The standard error that the runtime's handle stands for.
    pub fn err(output: Stderr) -> StdSink
        ensures { result.faults ≡ 0 }
    {
        StdSink {
            stream: Stream::Err(output),
            faults: 0,
        }
    }
}

impl Sink for StdSink {
    ghost written = { λ _. None };

    ghost faults = { λ sink. sink.faults };

    fn put(&mut self, bytes: &[u8]) -> Result<usize, Failed> {
        match self.stream {
            Stream::Out(mut output) => put_into(&mut output, &mut self.faults, bytes),
            Stream::Err(mut output) => put_into(&mut output, &mut self.faults, bytes),
        }
    }
}

// One read of any reader, whose errors are counted.
fn take_from<R: Read>(reader: &mut R, faults: &mut u64, into: &mut [u8]) -> Result<usize, Failed>
    ensures bound { ReadsAtMost result into.new }
    ensures bytes { ReadConsumes (R.remaining reader.old) (R.remaining reader.new) result into.new }
    ensures cause { HasCause faults.old faults.new result }
{
    match reader.read(into) {
        Ok(count) => Ok(count),
        Err(_) => {
            *faults = faults.saturating_add(1);
            Err(Failed)
        }
    }
}

// One write of any writer, whose errors are counted. A write that takes nothing counts as one.
fn put_into<W: Write>(writer: &mut W, faults: &mut u64, bytes: &[u8]) -> Result<usize, Failed>
    ensures bound { IfOk result (λ n. (0 < n) × (n ≤ length bytes.now)) }
    ensures bytes { WriteAppends (W.contents writer.old) (W.contents writer.new) result bytes.now }
    ensures cause { HasCause faults.old faults.new result }
{
    match writer.write(bytes) {
        Ok(count) if count > 0 => Ok(count),
        _ => {
            *faults = faults.saturating_add(1);
            Err(Failed)
        }
    }
}
