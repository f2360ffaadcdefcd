//! What is printed.

use ddc_book::{OpenFault, StoreFault, What};
use ddc_names::{IoHash, NoMemory, RefName};
use std::alloc::Global;

pub fn text(alloc: Global, words: &str) -> Result<String, NoMemory> {
    Ok(String::from_str(alloc, words)?)
}

/// Writes bytes in hexadecimal.
pub fn push_hex(text: &mut String, bytes: &[u8]) -> Result<(), NoMemory> {
    for byte in bytes {
        text.push(digit(*byte / 16))?;
        text.push(digit(*byte % 16))?;
    }
    Ok(())
}

fn digit(value: u8) -> char {
    char::from_digit(value as u32 % 16, 16).unwrap_or('0')
}

// Bytes 0 in a row: their number in brackets, where they are 16 or more.
fn push_zeros(alloc: Global, text: &mut String, count: u64) -> Result<(), NoMemory> {
    if count > 15 {
        return Ok(text.push_str(format!(in alloc; "({count})")?.as_str())?);
    }
    for _ in 0..count {
        text.push_str("00")?;
    }
    Ok(())
}

/// Writes bytes in hexadecimal, and of 16 and more bytes 0 in a row their number in brackets.
pub fn push_packed(alloc: Global, text: &mut String, bytes: &[u8]) -> Result<(), NoMemory> {
    let mut zeros = 0_u64;
    for byte in bytes {
        if *byte == 0 {
            zeros = zeros.saturating_add(1);
        } else {
            push_zeros(alloc, text, zeros)?;
            push_hex(text, &[*byte])?;
            zeros = 0;
        }
    }
    push_zeros(alloc, text, zeros)
}

/// A word, and bytes.
pub fn with_bytes(alloc: Global, word: &str, bytes: &[u8]) -> Result<String, NoMemory> {
    let mut line = format!(in alloc; "{word} ")?;
    push_packed(alloc, &mut line, bytes)?;
    Ok(line)
}

/// A word, and hashes.
pub fn with_hashes(alloc: Global, word: &str, hashes: &[IoHash]) -> Result<String, NoMemory> {
    let mut line = String::from_str(alloc, word)?;
    for hash in hashes {
        line.push_str(" ")?;
        push_hex(&mut line, &hash.0)?;
    }
    Ok(line)
}

/// Why a call was refused.
pub fn refused(alloc: Global, fault: StoreFault) -> Result<String, NoMemory> {
    match fault {
        StoreFault::Broken { faults } => Ok(format!(in alloc; "broken {faults}")?),
        StoreFault::UnknownSpace => text(alloc, "unknown space"),
        StoreFault::NotFound => text(alloc, "not found"),
        StoreFault::NotFinalised => text(alloc, "not finalised"),
        StoreFault::NotPending => text(alloc, "not pending"),
        StoreFault::Full { what, limit } => full(alloc, what, limit),
        StoreFault::HistoryFull { entries, links } => {
            Ok(format!(in alloc; "history full {entries} {links}")?)
        }
        StoreFault::NoMemory => Err(NoMemory),
        StoreFault::DiskFailed => text(alloc, "disk failed"),
        StoreFault::Damaged { named, found } => with_hashes(alloc, "damaged", &[named, found]),
    }
}

fn full(alloc: Global, what: What, limit: u64) -> Result<String, NoMemory> {
    let word = match what {
        What::Spaces => "spaces",
        What::Blobs => "blobs",
        What::Refs => "refs",
        What::Links => "links",
        What::Units => "units",
    };
    Ok(format!(in alloc; "full of {word} {limit}")?)
}

/// Why a store wasn't made or opened.
pub fn unopened(alloc: Global, fault: OpenFault) -> Result<String, NoMemory> {
    match fault {
        OpenFault::DiskFailed => text(alloc, "disk failed"),
        OpenFault::NotMade => text(alloc, "not made"),
        OpenFault::Corrupt { file, at } => Ok(format!(in alloc; "corrupt file {file} at {at}")?),
        OpenFault::BadVersion { found } => Ok(format!(in alloc; "version {found}")?),
        OpenFault::Unsound { name } => unsound(alloc, &name),
        OpenFault::NoMemory => Err(NoMemory),
    }
}

fn unsound(alloc: Global, name: &RefName) -> Result<String, NoMemory> {
    let bucket = name.spot.bucket.as_str();
    let mut line = format!(in alloc; "unsound {} {bucket} ", name.space.as_str())?;
    push_hex(&mut line, &name.spot.key.0)?;
    Ok(line)
}
