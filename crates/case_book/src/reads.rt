//! The calls that read a store.

use crate::texts::{refused, text, with_bytes, with_hashes};
use crate::words::{blob_of, cut, name_of};
use ddc_book::{Book, Opened, Step, StoreFault};
use ddc_disk::MemDisk;
use ddc_model::{BlobName, Entry};
use ddc_names::{IoHash, Namespace, NoMemory};
use std::alloc::Global;

pub fn peek(alloc: Global, book: &Book<MemDisk>, rest: &str) -> Result<String, NoMemory> {
    let (space, key) = cut(rest);
    let Some(name) = name_of(space, key) else {
        return text(alloc, "no reference");
    };
    match book.peek_ref(&name) {
        Ok((hash, len)) => with_hashes(
            alloc,
            format!(in alloc; "object of {len} bytes")?.as_str(),
            &[hash],
        ),
        Err(fault) => refused(alloc, fault),
    }
}

pub fn has(alloc: Global, book: &Book<MemDisk>, rest: &str) -> Result<String, NoMemory> {
    let Some(blob) = blob_of(rest) else {
        return text(alloc, "no blob");
    };
    match book.has_blob(&blob.space, blob.hash) {
        Ok(len) => Ok(format!(in alloc; "{len} bytes")?),
        Err(fault) => refused(alloc, fault),
    }
}

pub fn open(alloc: Global, book: &mut Book<MemDisk>, rest: &str) -> Result<String, NoMemory> {
    let Some(blob) = blob_of(rest) else {
        return text(alloc, "no blob");
    };
    match book.open_blob(alloc, &blob.space, blob.hash) {
        Ok(Opened::Whole(bytes)) => with_bytes(alloc, "bytes", bytes.as_slice()),
        Err(fault) => refused(alloc, fault),
    }
}

// The hashes of a line.
fn hashes_of(alloc: Global, line: &str) -> Result<Vec<IoHash>, NoMemory> {
    let mut hashes = Vec::new(alloc);
    for word in line.split(' ') {
        if let Some(hash) = IoHash::parse(word) {
            hashes.push(hash)?;
        }
    }
    Ok(hashes)
}

pub fn exist(alloc: Global, book: &Book<MemDisk>, rest: &str) -> Result<String, NoMemory> {
    let (space, words) = cut(rest);
    let Ok(space) = Namespace::parse(space) else {
        return text(alloc, "no namespace");
    };
    let hashes = hashes_of(alloc, words)?;
    match book.exist(alloc, &space, &hashes) {
        Ok(absent) => with_hashes(alloc, "absent", absent.as_slice()),
        Err(fault) => refused(alloc, fault),
    }
}

pub fn verify(alloc: Global, book: &mut Book<MemDisk>, rest: &str) -> Result<String, NoMemory> {
    let Some(blob) = blob_of(rest) else {
        return text(alloc, "no blob");
    };
    match book.verify(alloc, &blob.space, blob.hash) {
        Ok(()) => text(alloc, "done"),
        Err(fault) => refused(alloc, fault),
    }
}

/// A blob's length, where it stands and from which hour it is pinned.
pub fn row(alloc: Global, book: &Book<MemDisk>, rest: &str) -> Result<String, NoMemory> {
    let Some(blob) = blob_of(rest) else {
        return text(alloc, "no blob");
    };
    match book.index().blob(&blob.space, &blob.hash) {
        Some(row) => counted(
            alloc,
            &[
                (row.len, " bytes in "),
                (row.extent.units as u64, " units from "),
                (row.extent.start, " on, hour "),
                (row.at as u64, ""),
            ],
        ),
        None => text(alloc, "not found"),
    }
}

/// How many steps a store has, how much it holds, and how often its devices failed.
pub fn state(alloc: Global, book: &Book<MemDisk>) -> Result<String, NoMemory> {
    let index = book.index();
    counted(
        alloc,
        &[
            (book.count(), " steps, hour "),
            (index.hour() as u64, ", "),
            (index.space_count(), " spaces, "),
            (index.blob_count(), " blobs, "),
            (index.refs().len(), " refs, "),
            (index.link_count(), " links, "),
            (book.faults(), " faults"),
        ],
    )
}

// The blob that a step has added.
fn blob_added(step: &Step) -> Option<BlobName> {
    match step {
        Step::Change(Entry::Upload { space, blob, .. }) => Some(BlobName {
            space: *space,
            hash: blob.hash,
        }),
        Step::Change(
            Entry::Put {
                name,
                fresh: Some(blob),
                ..
            },
        ) => Some(BlobName {
            space: name.get().space,
            hash: blob.hash,
        }),
        _ => None,
    }
}

fn blobs_added(alloc: Global, steps: &[Step]) -> Result<Vec<BlobName>, NoMemory> {
    let mut names = Vec::new(alloc);
    for step in steps {
        if let Some(name) = blob_added(step) {
            names.push(name)?;
        }
    }
    Ok(names)
}

/// How many blobs of a store are damaged.
pub fn damaged(alloc: Global, book: &mut Book<MemDisk>) -> Result<u64, NoMemory> {
    let mut count = 0_u64;
    for blob in blobs_added(alloc, book.steps())? {
        if let Err(StoreFault::Damaged { .. }) = book.verify(alloc, &blob.space, blob.hash) {
            count = count.saturating_add(1);
        }
    }
    Ok(count)
}

// Numbers, each with the words after it.
fn counted(alloc: Global, counts: &[(u64, &str)]) -> Result<String, NoMemory> {
    let mut line = String::new(alloc);
    for (count, words) in counts.iter().copied() {
        line.push_str(format!(in alloc; "{count}{words}")?.as_str())?;
    }
    Ok(line)
}
