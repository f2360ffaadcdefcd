//! The calls that change a store.

use crate::texts::{push_packed, refused, text, with_hashes};
use crate::words::{bytes_of, cut, name_of, small_number};
use ddc_book::{Book, Held, StoreFault};
use ddc_disk::MemDisk;
use ddc_model::MOST_BLOB_BYTES;
use ddc_names::{IoHash, Namespace, NoMemory, Rows};
use ddc_state::Checked;
use io_hash::Intake;
use std::alloc::Global;

fn done(alloc: Global, answer: Result<(), StoreFault>) -> Result<String, NoMemory> {
    match answer {
        Ok(()) => text(alloc, "done"),
        Err(fault) => refused(alloc, fault),
    }
}

fn missing(alloc: Global, answer: Result<Rows<IoHash>, StoreFault>) -> Result<String, NoMemory> {
    match answer {
        Ok(hashes) => with_hashes(alloc, "missing", hashes.as_slice()),
        Err(fault) => refused(alloc, fault),
    }
}

fn held(alloc: Global, answer: Result<Held, StoreFault>) -> Result<String, NoMemory> {
    match answer {
        Ok(held) => {
            let mut line = with_hashes(alloc, "object", &[held.hash])?;
            line.push_str(" ")?;
            push_packed(alloc, &mut line, held.bytes.as_slice())?;
            Ok(line)
        }
        Err(fault) => refused(alloc, fault),
    }
}

// The bytes that a word spells, checked.
fn checked(alloc: Global, digits: &str) -> Result<Option<Checked>, NoMemory> {
    let bytes = bytes_of(alloc, digits)?;
    let mut intake = Intake::new(alloc, bytes.len() as u64);
    if intake.take(&bytes).is_err() {
        return Err(NoMemory);
    }
    Ok(Checked::new(alloc, intake.finish()).ok())
}

pub fn space(alloc: Global, book: &mut Book<MemDisk>, rest: &str) -> Result<String, NoMemory> {
    let (space, times) = cut(rest);
    let Ok(space) = Namespace::parse(space) else {
        return text(alloc, "no namespace");
    };
    let (ttl, pin) = cut(times);
    let (ttl, pin) = (small_number(ttl), small_number(pin));
    if ttl < 1 || 1_000_000 < ttl || pin < 1 || 1_000_000 < pin {
        return text(alloc, "no times");
    }
    done(alloc, book.set_space(alloc, space, ttl, pin))
}

pub fn upload(
    alloc: Global,
    book: &mut Book<MemDisk>,
    rest: &str,
    hour: u32,
) -> Result<String, NoMemory> {
    let (space, digits) = cut(rest);
    let Ok(space) = Namespace::parse(space) else {
        return text(alloc, "no namespace");
    };
    match checked(alloc, digits)? {
        Some(blob) if blob.whole().bytes().len() as u64 <= MOST_BLOB_BYTES => {
            done(alloc, book.upload(alloc, space, blob, hour))
        }
        _ => text(alloc, "no blob"),
    }
}

pub fn put(
    alloc: Global,
    book: &mut Book<MemDisk>,
    rest: &str,
    hour: u32,
) -> Result<String, NoMemory> {
    let (space, rest) = cut(rest);
    let (key, digits) = cut(rest);
    let Some(name) = name_of(space, key) else {
        return text(alloc, "no reference");
    };
    match checked(alloc, digits)? {
        Some(object)
            if object.is_object() && object.whole().bytes().len() as u64 <= MOST_BLOB_BYTES => {
            missing(alloc, book.put(alloc, name, object, hour))
        }
        _ => text(alloc, "no object"),
    }
}

pub fn finalise(
    alloc: Global,
    book: &mut Book<MemDisk>,
    rest: &str,
    hour: u32,
) -> Result<String, NoMemory> {
    let (space, rest) = cut(rest);
    let (key, digits) = cut(rest);
    let Some(name) = name_of(space, key) else {
        return text(alloc, "no reference");
    };
    match IoHash::parse(digits) {
        Some(hash) => missing(alloc, book.finalise(alloc, &name, hash, hour)),
        None => text(alloc, "no hash"),
    }
}

pub fn get(
    alloc: Global,
    book: &mut Book<MemDisk>,
    rest: &str,
    hour: u32,
) -> Result<String, NoMemory> {
    let (space, key) = cut(rest);
    match name_of(space, key) {
        Some(name) => held(alloc, book.get_ref(alloc, &name, hour)),
        None => text(alloc, "no reference"),
    }
}

pub fn delete(
    alloc: Global,
    book: &mut Book<MemDisk>,
    rest: &str,
    hour: u32,
) -> Result<String, NoMemory> {
    let (space, key) = cut(rest);
    match name_of(space, key) {
        Some(name) => done(alloc, book.delete(alloc, &name, hour)),
        None => text(alloc, "no reference"),
    }
}
