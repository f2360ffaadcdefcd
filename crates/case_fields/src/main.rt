//! Reads cases from standard input, one a line, and prints what the public calls say of each.
//!
//! - `object HEX`: whether the bytes are an object, with its links, or the place of their first fault
//! - `number HEX`: the number at the front of the bytes, and how many bytes spell it
//! - `needs HASH..`: the bytes of the object that lists these hashes
//! - `entry HEX`: the entry that the bytes spell, and whether it is written as the same bytes
//!
//! A line that begins with `#` is printed as it stands. `checks/fields` compares the answers with the model.
#![tactic(auto)]

mod entries;
mod objects;

use ddc_names::NoMemory;
use std::alloc::Global;
use std::io;
use std::io::{BufRead, BufReader};

// The answer to a line.
fn answer(alloc: Global, line: &str) -> Result<String, NoMemory> {
    let (call, rest) = match line.split_once(' ') {
        Some(parts) => parts,
        None => (line, ""),
    };
    match call {
        "object" => objects::object_line(alloc, rest),
        "number" => objects::number_line(alloc, rest),
        "needs" => objects::needs_line(alloc, rest),
        "entry" => entries::entry_line(alloc, rest),
        _ => Ok(String::from_str(alloc, line)?),
    }
}

fn main(rt: HostRuntime) -> io::Result<()> {
    let input = BufReader::new(rt.alloc(), rt.reader())?;
    for line in input.lines(rt.alloc()) {
        let line = line?;
        match answer(rt.alloc(), line.as_str()) {
            Ok(text) => println!(rt; "{text}")?,
            Err(NoMemory) => println!(rt; "no memory")?,
        }
    }
    Ok(())
}
