//! Calls of a disk in memory.

use crate::words::{bytes_of, first_number, hex_text, number};
use ddc_disk::{Disk, MemDisk};
use ddc_names::{Failed, NoMemory};
use std::alloc::Global;

// The most bytes that a line asks for.
const MOST_BYTES: u64 = 65_536;

fn done(alloc: Global, answer: Result<(), Failed>) -> Result<String, NoMemory> {
    Ok(String::from_str(alloc, if answer.is_ok() { "ok" } else { "failed" })?)
}

// So many bytes from a place on in hexadecimal, or `failed`.
fn bytes_at(alloc: Global, disk: &mut MemDisk, at: u64, count: u64) -> Result<String, NoMemory> {
    let mut piece = Vec::new(alloc);
    piece.resize(count.min(MOST_BYTES) as usize, 7u8)?;
    match disk.read(at, &mut piece) {
        Ok(()) => hex_text(alloc, &piece),
        Err(failed) => done(alloc, Err(failed)),
    }
}

pub fn put_line(alloc: Global, disk: &mut MemDisk, words: &str) -> Result<String, NoMemory> {
    let (at, digits) = first_number(words);
    let bytes = bytes_of(alloc, digits)?;
    done(alloc, disk.write_at(at, &bytes))
}

pub fn get_line(alloc: Global, disk: &mut MemDisk, words: &str) -> Result<String, NoMemory> {
    let (at, rest) = first_number(words);
    bytes_at(alloc, disk, at, number(Some(rest)))
}

pub fn sync_line(alloc: Global, disk: &mut MemDisk) -> Result<String, NoMemory> {
    done(alloc, disk.sync())
}

pub fn len_line(alloc: Global, disk: &mut MemDisk) -> Result<String, NoMemory> {
    match disk.len() {
        Ok(len) => Ok(format!(in alloc; "{}", len)?),
        Err(failed) => done(alloc, Err(failed)),
    }
}

// The calls made, the count of faults, and the calls that found no memory or whose range didn't fit.
pub fn counts_line(alloc: Global, disk: &MemDisk) -> Result<String, NoMemory> {
    Ok(format!(in alloc; "{} {} {}", disk.calls(), disk.faults(), disk.starved())?)
}

// All bytes of the disk after so many calls and a crash.
pub fn image_line(alloc: Global, disk: &MemDisk, words: &str) -> Result<String, NoMemory> {
    let (calls, rest) = first_number(words);
    let mut crashed = disk.crashed(calls, number(Some(rest)))?;
    match crashed.len() {
        Ok(len) => bytes_at(alloc, &mut crashed, 0, len),
        Err(failed) => done(alloc, Err(failed)),
    }
}
