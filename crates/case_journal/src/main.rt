//! Reads cases from standard input, one a line, and prints what a load says of each.
//!
//! - `load HEX`: of a journal file with these bytes
//! - `pair NEWEST HEX HEX`: of two journal files; a dash stands for no bytes
//! - `append CALLS CHOICE`: of an empty journal to which the byte ab is appended, after so many calls of
//!   the append and a crash
//! - `fail CALL`: of such a journal where this call of the append fails
//! - `checkpoint CALLS CHOICE`: of a pair with the body ab of which a checkpoint writes the body cd, after
//!   so many calls of the checkpoint and a crash
//!
//! A line that begins with `#` is printed as it stands. `checks/journals` compares the answers with the model.
#![tactic(auto)]

mod crashes;
mod files;
mod texts;

use ddc_names::NoMemory;
use std::alloc::Global;
use std::io;
use std::io::{BufRead, BufReader};

// The answer to a line.
fn answer(alloc: Global, line: &str) -> Result<String, NoMemory> {
    let (call, rest) = texts::cut(line);
    match call {
        "load" => files::load_line(alloc, rest),
        "pair" => files::pair_line(alloc, rest),
        "append" => crashes::append_line(alloc, rest),
        "fail" => crashes::fail_line(alloc, rest),
        "checkpoint" => crashes::checkpoint_line(alloc, rest),
        _ => Ok(String::from_str(alloc, line)?),
    }
}

fn main(rt: HostRuntime) -> io::Result<()> {
    let input = BufReader::new(rt.alloc(), rt.reader())?;
    for line in input.lines(rt.alloc()) {
        let line = line?;
        match answer(rt.alloc(), line.as_str()) {
            Ok(text) => println!(rt; "{text}")?,
            Err(NoMemory) => println!(rt; "no memory")?,
        }
    }
    Ok(())
}
