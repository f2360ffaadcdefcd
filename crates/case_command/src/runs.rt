//! The runs of the top call.

use crate::stage::{Stage, empty};
use crate::texts::{push_bytes, words_of};
use ddc_command::{places, run_local};
use ddc_link::{FixedClock, MemSink, MemSource};
use ddc_names::{NoMemory, Rows};
use std::alloc::Global;
use std::mem;

/// The most bytes that are printed whole, and how many of a longer text.
const MOST_SHOWN: usize = 16_384;

const LAST_SHOWN: usize = 128;

// What a run reads and writes.
#[derive(Drop)]
struct Streams {
    source: MemSource,
    sink: MemSink,
    notes: MemSink,
}

// The source of the input, in pieces as they are set.
fn source_of(alloc: Global, stage: &mut Stage) -> Result<MemSource, NoMemory> {
    let input = mem::replace(&mut stage.input, Vec::new(alloc));
    let reads = mem::replace(&mut stage.reads, Vec::new(alloc));
    let count = if stage.pieces == 0 { 0 } else { input.len() };
    let sizes = vec![in alloc; stage.pieces; count]?;
    Ok(MemSource::new(
        Rows::of_vec(input),
        Rows::of_vec(sizes),
        Rows::of_vec(reads),
    ))
}

fn streams_of(alloc: Global, stage: &mut Stage) -> Result<Streams, NoMemory> {
    let source = source_of(alloc, stage)?;
    let puts = mem::replace(&mut stage.puts, Vec::new(alloc));
    let notes = mem::replace(&mut stage.notes, Vec::new(alloc));
    Ok(Streams {
        source,
        sink: MemSink::new(alloc, Rows::of_vec(puts)),
        notes: MemSink::new(alloc, Rows::of_vec(notes)),
    })
}

// Runs the command, and gives its status.
fn run_words(alloc: Global, stage: &mut Stage, words: &[String], streams: &mut Streams) -> u8 {
    let devices = mem::replace(&mut stage.devices, empty(alloc));
    let clock = FixedClock { hour: stage.hour };
    let (status, devices) = run_local(
        alloc,
        words,
        devices,
        &mut streams.source,
        &mut streams.sink,
        &mut streams.notes,
        &clock,
    );
    stage.devices = devices;
    status
}

/// Runs a command on the input that was set. Prints its status, what it wrote and what it noted.
pub fn run(alloc: Global, stage: &mut Stage, words: &str) -> Result<String, NoMemory> {
    let words = words_of(alloc, words)?;
    let mut streams = streams_of(alloc, stage)?;
    let status = run_words(alloc, stage, &words, &mut streams);
    told(
        alloc,
        status,
        streams.sink.written(),
        streams.notes.written(),
    )
}

fn told(alloc: Global, status: u8, written: &[u8], noted: &[u8]) -> Result<String, NoMemory> {
    let mut text = format!(in alloc; "status {status}\n")?;
    push_written(alloc, &mut text, written)?;
    push_bytes(&mut text, "note ", noted)?;
    Ok(text)
}

// Of a long text its length and its last bytes.
fn push_written(alloc: Global, text: &mut String, written: &[u8]) -> Result<(), NoMemory> {
    let length = written.len();
    if length <= MOST_SHOWN {
        return push_bytes(text, "out ", written);
    }
    let word = format!(in alloc; "out of {length} bytes the last ")?;
    push_bytes(text, word.as_str(), &written[length - LAST_SHOWN..])
}

/// Runs a command on each front of the input, from the shortest on. Prints each outcome that isn't the last one's, with the
/// length of the front.
pub fn fronts(alloc: Global, stage: &mut Stage, words: &str) -> Result<String, NoMemory> {
    let input = mem::replace(&mut stage.input, Vec::new(alloc));
    let mut all = String::new(alloc);
    let mut last = String::new(alloc);
    for end in 0..input.len() + 1 {
        stage.input = Vec::from_slice(alloc, &input[..end])?;
        let outcome = run(alloc, stage, words)?;
        if outcome != last {
            push_front(alloc, &mut all, end, outcome.as_str())?;
            last = outcome;
        }
    }
    Ok(all)
}

fn push_front(alloc: Global, all: &mut String, end: usize, outcome: &str) -> Result<(), NoMemory> {
    let line = format!(in alloc; "from {end} bytes on\n{outcome}")?;
    all.push_str(line.as_str())?;
    Ok(())
}

/// The places that the words name.
pub fn places_line(alloc: Global, words: &str) -> Result<String, NoMemory> {
    let words = words_of(alloc, words)?;
    match places(&words) {
        None => Ok(String::from_str(alloc, "no form\n")?),
        Some(found) => {
            let dir = found.dir;
            let workers = found.workers;
            let other = found.other.is_some();
            Ok(format!(in alloc; "dir {dir} other {other} workers {workers}\n")?)
        }
    }
}
