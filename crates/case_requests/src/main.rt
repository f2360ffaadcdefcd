//! Reads cases from standard input, one a line, and prints what the public calls of `ddc_http` say of each.
//!
//! - `read SIZE FAILING TEXT`: the requests of a stream of these bytes, read in pieces of at most SIZE bytes, while the
//!   call of the number FAILING fails; each with the place after it. `-` stands for no size and for no such call
//! - `head FAILING STATUS KIND HASH LENGTH CLOSE`: what is written as this head, while a call of the sink fails
//! - `body KIND WORD..`: a body of a reply
//!
//! In a text `\r` and `\n` are those bytes, and `\` with two hexadecimal digits is the byte that they write. A line that
//! begins with `#` is printed as it stands. `checks/requests` compares the answers with the model.
#![tactic(auto)]

mod bodies;
mod heads;
mod reading;
mod words;

use ddc_names::NoMemory;
use std::alloc::Global;
use std::io;
use std::io::{BufRead, BufReader};

// The answer to a line.
fn answer(alloc: Global, line: &str) -> Result<String, NoMemory> {
    let (call, rest) = words::cut_word(line);
    match call {
        "read" => reading::read_line(alloc, rest),
        "head" => heads::head_line(alloc, rest),
        "body" => bodies::body_line(alloc, rest),
        _ => Ok(String::from_str(alloc, line)?),
    }
}

fn main(rt: HostRuntime) -> io::Result<()> {
    let input = BufReader::new(rt.alloc(), rt.reader())?;
    for line in input.lines(rt.alloc()) {
        let line = line?;
        match answer(rt.alloc(), line.as_str()) {
            Ok(text) => println!(rt; "{text}")?,
            Err(NoMemory) => println!(rt; "no memory")?,
        }
    }
    Ok(())
}
