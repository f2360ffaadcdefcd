//! Builds, loads or appends to a journal on a file: `bench_journal CALL PATH COUNT`. `build` makes a
//! journal of COUNT bodies of 8 bytes by one write, `load` loads the journal COUNT times, and
//! `append` makes a journal and appends COUNT bodies of 16 bytes.
#![tactic(auto)]

use ddc_disk::{Disk, FileDisk, write_sure};
use ddc_journal::{Framed, Journal};
use std::alloc::{AllocError, Global};
use std::{env, io};

// `count` items of 8 bytes with open gates, and a closing gate.
fn items(alloc: Global, count: u64) -> Result<Vec<u8>, AllocError> {
    let mut bytes = Vec::new(alloc);
    for number in 0..count {
        bytes.extend_from_slice(&[1, 8, 0, 0, 0])?;
        bytes.extend_from_slice(&number.to_le_bytes())?;
    }
    bytes.push(0)?;
    Ok(bytes)
}

// How many bodies were written, or none where the disk failed.
fn build(alloc: Global, disk: &mut FileDisk, count: u64) -> Result<u64, AllocError> {
    let bytes = items(alloc, count)?;
    if Journal::create(disk, 1).is_err() || write_sure(disk, 21, &bytes).is_err() {
        return Ok(0);
    }
    Ok(count)
}

// How many bodies the last load gave.
fn load(alloc: Global, disk: &mut FileDisk, times: u64) -> u64 {
    let mut last = 0;
    for _ in 0..times {
        last = match Journal::load(alloc, disk) {
            Ok((_, bodies)) => bodies.len() as u64,
            Err(_) => 0,
        };
    }
    last
}

// How many appends were done.
fn append<D: Disk>(disk: &mut D, item: &Framed, count: u64) -> u64 {
    let Ok(mut journal) = Journal::create(disk, 1) else {
        return 0;
    };
    for done in 0..count {
        if journal.append(disk, item).is_err() {
            return done;
        }
    }
    count
}

fn main(rt: HostRuntime) -> io::Result<()> {
    let mut words = env::args(&rt)?;
    let _program = words.next();
    let (Some(call), Some(path), Some(count)) = (words.next(), words.next(), words.next()) else {
        println!(rt; "usage: bench_journal build|load|append PATH COUNT")?;
        return Ok(());
    };
    let count = count.as_str().parse::<u64>().unwrap_or(0);
    let Ok(mut disk) = FileDisk::at_path(rt, rt.alloc(), path.as_str()) else {
        return Err(io::ErrorKind::OutOfMemory.into());
    };
    let Ok(item) = Framed::new(rt.alloc(), &[7; 16]) else {
        return Err(io::ErrorKind::OutOfMemory.into());
    };
    let bodies = match call.as_str() {
        "build" => build(rt.alloc(), &mut disk, count)?,
        "load" => load(rt.alloc(), &mut disk, count),
        _ => append(&mut disk, &item, count),
    };
    println!(rt; "{bodies} bodies")?;
    Ok(())
}
