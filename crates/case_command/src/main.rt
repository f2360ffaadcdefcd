//! Reads cases from standard input, one line at a time, and prints what the top call does in each, over devices, a source
//! and sinks in memory.
//!
//! | line | what it does |
//! |---|---|
//! | `new` | devices that hold nothing and don't fail |
//! | `fails FILE N..` | an empty device in the place of FILE (`first`, `second` or `blobs`), whose calls of these numbers fail |
//! | `write FILE AT HEX` | writes bytes to a device |
//! | `crash CHOICE CHOICE CHOICE` | what a crash leaves of the three devices |
//! | `hour N` | the hour that the clock tells |
//! | `pieces N` | the source gives at most N bytes a call, or as many as there is room for where N is 0 |
//! | `reads N..`, `puts N..`, `notes N..` | the calls of the source, of the sink and of the notes that fail in the next run |
//! | `ask METHOD TARGET` | a request without a body is put at the end of the next run's input |
//! | `put TARGET HEX` | a request with a body |
//! | `repeat N` | the input so far, N times |
//! | `cut N` | the first N bytes of the input |
//! | `run WORD..` | runs the command of these words: prints its status, what it wrote and what it noted |
//! | `fronts WORD..` | runs it on each front of the input, from the shortest on; prints the length from which on each outcome comes |
//! | `places WORD..` | the places that the words name |
//! | `file FILE` | what a device holds, of 16 and more bytes 0 in a row their number in brackets; the device is called for it |
//! | `calls` | how often each device was called |
//!
//! Any other line is printed as it stands. `checks/commands` writes the cases, with what the plain model says of each.
#![tactic(auto)]

mod runs;
mod stage;
mod texts;

use ddc_names::NoMemory;
use stage::Stage;
use std::alloc::Global;
use std::io;
use std::io::{BufRead, BufReader};

// What a line prints.
fn follow(alloc: Global, stage: &mut Stage, line: &str) -> Result<String, NoMemory> {
    let (call, rest) = texts::parts_of(line);
    match call {
        "run" => runs::run(alloc, stage, rest),
        "fronts" => runs::fronts(alloc, stage, rest),
        "places" => runs::places_line(alloc, rest),
        "file" => stage::file_line(alloc, stage, rest),
        "calls" => stage::calls_line(alloc, stage),
        _ => {
            if stage::set(alloc, stage, call, rest)? {
                Ok(String::new(alloc))
            } else {
                Ok(format!(in alloc; "{line}\n")?)
            }
        }
    }
}

fn main(rt: HostRuntime) -> io::Result<()> {
    let alloc = rt.alloc();
    let mut stage = Stage::new(alloc);
    let input = BufReader::new(alloc, rt.reader())?;
    for line in input.lines(alloc) {
        let line = line?;
        match follow(alloc, &mut stage, line.as_str()) {
            Ok(text) => print!(rt; "{text}")?,
            Err(NoMemory) => println!(rt; "no memory")?,
        }
    }
    Ok(())
}
