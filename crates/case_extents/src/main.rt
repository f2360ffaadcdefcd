//! Reads a script of calls from standard input, one a line, and prints what the public calls of `blob_store` and of a disk
//! in memory say.
//!
//! - `store UNITS`: from here on a file of so many units, all free
//! - `disk CALL..`: from here on an empty disk whose calls with these numbers fail
//! - `find LEN`: the first free run that holds so many bytes
//! - `free START UNITS`, `claimed START UNITS`: whether the extent is free, or claimed
//! - `claim START UNITS`, `release START UNITS`: claims or releases it, where that may be done
//! - `write START UNITS HEX`: writes a blob to the extent
//! - `read START UNITS AT COUNT`: so many bytes from the extent's byte on
//! - `put AT HEX`, `get AT COUNT`, `sync`, `len`: the calls of the disk alone
//! - `counts`: how many calls the disk has had, its count of faults, and how many of them no list named
//! - `image CALLS CHOICE`: all bytes of the disk after that many calls and a crash
//! - `crash CALLS CHOICE`: from here on the disk after that many calls and a crash
//!
//! A line that begins with `#` is printed as it stands. `checks/extents` compares the answers with a model.
#![tactic(auto)]

mod blobs;
mod claims;
mod disks;
mod words;

use blob_store::BlobStore;
use ddc_disk::MemDisk;
use ddc_names::{NoMemory, Rows};
use std::alloc::Global;
use std::io;
use std::io::{BufRead, BufReader};

// What a script works on.
#[derive(Drop)]
struct Bench {
    store: BlobStore,
    disk: MemDisk,
}

// The answer to a line.
fn answer(alloc: Global, bench: &mut Bench, line: &str) -> Result<String, NoMemory> {
    let (call, rest) = match line.split_once(' ') {
        Some(parts) => parts,
        None => (line, ""),
    };
    match call {
        "store" => {
            bench.store = claims::new_store(alloc, rest);
            Ok(String::from_str(alloc, "ok")?)
        }
        "disk" => {
            bench.disk = MemDisk::new(alloc, Rows::of_vec(words::numbers(alloc, rest)?));
            Ok(String::from_str(alloc, "ok")?)
        }
        "crash" => {
            bench.disk = blobs::crashed(&bench.disk, rest)?;
            Ok(String::from_str(alloc, "ok")?)
        }
        "find" => claims::find_line(alloc, &bench.store, rest),
        "free" => claims::free_line(alloc, &bench.store, rest),
        "claimed" => claims::claimed_line(alloc, &bench.store, rest),
        "claim" => claims::claim_line(alloc, &mut bench.store, rest),
        "release" => claims::release_line(alloc, &mut bench.store, rest),
        "write" => blobs::write_line(alloc, &mut bench.disk, rest),
        "read" => blobs::read_line(alloc, &mut bench.disk, rest),
        "put" => disks::put_line(alloc, &mut bench.disk, rest),
        "get" => disks::get_line(alloc, &mut bench.disk, rest),
        "sync" => disks::sync_line(alloc, &mut bench.disk),
        "len" => disks::len_line(alloc, &mut bench.disk),
        "counts" => disks::counts_line(alloc, &bench.disk),
        "image" => disks::image_line(alloc, &bench.disk, rest),
        _ => Ok(String::from_str(alloc, line)?),
    }
}

fn main(rt: HostRuntime) -> io::Result<()> {
    let mut bench = Bench {
        store: BlobStore::new(rt.alloc(), 0),
        disk: MemDisk::new(rt.alloc(), Rows::new(rt.alloc())),
    };
    let input = BufReader::new(rt.alloc(), rt.reader())?;
    for line in input.lines(rt.alloc()) {
        let line = line?;
        match answer(rt.alloc(), &mut bench, line.as_str()) {
            Ok(text) => println!(rt; "{text}")?,
            Err(NoMemory) => println!(rt; "no memory")?,
        }
    }
    Ok(())
}
