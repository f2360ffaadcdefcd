//! Reads a script from standard input, one call a line, and prints what the public calls of a store say.
//!
//! The devices are in memory, and the store is made or opened on them:
//!
//! - `disks FILE:CALL..`: new devices, of which these calls fail; the files are 0, 1 and 2
//! - `most WHAT:NUMBER ..`: the limits of the stores from now on; what isn't named is as in a store that is served
//! - `hour NUMBER`: the hour of the calls from now on
//! - `create`, `load`: what the store holds, or the fault and the devices' count of faults
//! - `close`: the devices come back; how many calls were made of each
//! - `parts`: the devices come back, with the steps
//! - `file FILE`: the bytes of a file; of 16 and more bytes 0 in a row their number in brackets
//! - `write FILE PLACE BYTES`, `sync FILE`: bytes are written to a file, and made sure of
//! - `crash CHOICE CHOICE CHOICE`: what a store holds once the three files crashed, and how many of its blobs are damaged
//!
//! Of an open store, where KEY is the byte that a reference's key consists of:
//!
//! - `space SPACE TTL PIN`, `upload SPACE BYTES`, `put SPACE KEY BYTES`, `finalise SPACE KEY HASH`, `get SPACE KEY`,
//!   `delete SPACE KEY`, `peek SPACE KEY`, `has SPACE HASH`, `open SPACE HASH`, `exist SPACE HASH..`, `verify SPACE HASH`
//! - `row SPACE HASH`: a blob's length, the units where it stands, and the hour from which it is pinned
//! - `events SPACE AFTER COUNT`: the number of a namespace's last event, and so many events after a number
//! - `cursor SPACE`: how far the follower of a namespace has come
//! - `state`: what the store holds, and the devices' count of faults
//!
//! BYTES are pieces with `+` between them, each in hexadecimal, or a number, `*` and what stands so often. A line that begins with `#` is printed as it stands. `checks/book` writes the cases.
#![tactic(auto)]

mod bench;
mod changes;
mod devices;
mod events;
mod reads;
mod texts;
mod words;

use bench::Bench;
use ddc_names::NoMemory;
use std::alloc::Global;
use std::io;
use std::io::{BufRead, BufReader};
use texts::text;
use words::cut;

// The answer to a line.
fn answer(alloc: Global, bench: &mut Bench, line: &str) -> Result<String, NoMemory> {
    let (call, rest) = cut(line);
    match call {
        "disks" => devices::disks(alloc, bench, rest),
        "most" => devices::most(alloc, bench, rest),
        "hour" => devices::hour(alloc, bench, rest),
        "create" => devices::create(alloc, bench),
        "load" => devices::load(alloc, bench),
        "close" => devices::close(alloc, bench),
        "parts" => devices::parts(alloc, bench),
        "file" => devices::file(alloc, bench, rest),
        "write" => devices::write(alloc, bench, rest),
        "sync" => devices::sync(alloc, bench, rest),
        "crash" => devices::crash(alloc, bench, rest),
        "#" => text(alloc, line),
        _ => of_store(alloc, bench, call, rest),
    }
}

// The answer of an open store.
fn of_store(alloc: Global, bench: &mut Bench, call: &str, rest: &str) -> Result<String, NoMemory> {
    let hour = bench.hour;
    let Some(book) = &mut bench.book else {
        return text(alloc, "no store");
    };
    match call {
        "space" => changes::space(alloc, book, rest),
        "upload" => changes::upload(alloc, book, rest, hour),
        "put" => changes::put(alloc, book, rest, hour),
        "finalise" => changes::finalise(alloc, book, rest, hour),
        "get" => changes::get(alloc, book, rest, hour),
        "delete" => changes::delete(alloc, book, rest, hour),
        "peek" => reads::peek(alloc, book, rest),
        "has" => reads::has(alloc, book, rest),
        "open" => reads::open(alloc, book, rest),
        "exist" => reads::exist(alloc, book, rest),
        "verify" => reads::verify(alloc, book, rest),
        "row" => reads::row(alloc, book, rest),
        "events" => events::events(alloc, book, rest),
        "cursor" => events::cursor(alloc, book, rest),
        "state" => reads::state(alloc, book),
        _ => text(alloc, "no such call"),
    }
}

fn print(rt: HostRuntime, said: &str) -> io::Result<()> {
    println!(rt; "{said}")?;
    Ok(())
}

// Prints the answer to a line.
fn say(rt: HostRuntime, bench: &mut Bench, line: &str) -> io::Result<()> {
    match answer(rt.alloc(), bench, line) {
        Ok(said) => print(rt, said.as_str()),
        Err(NoMemory) => print(rt, "no memory"),
    }
}

// The same for all lines.
fn say_all(rt: HostRuntime, bench: &mut Bench) -> io::Result<()> {
    let input = BufReader::new(rt.alloc(), rt.reader())?;
    for line in input.lines(rt.alloc()) {
        let line = line?;
        say(rt, bench, line.as_str())?;
    }
    Ok(())
}

fn main(rt: HostRuntime) -> io::Result<()> {
    let mut bench = Bench::new();
    say_all(rt, &mut bench)
}
