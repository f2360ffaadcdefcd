//! The words of a line.

use ddc_model::BlobName;
use ddc_names::{Bucket, IoHash, Namespace, NoMemory, RefKey, RefName, RefSpot};
use std::alloc::Global;

/// The first word of a line, and the rest.
pub fn cut(line: &str) -> (&str, &str) {
    match line.split_once(' ') {
        Some(parts) => parts,
        None => (line, ""),
    }
}

/// The number that a word spells, or 0.
pub fn number(word: &str) -> u64 {
    word.parse::<u64>().unwrap_or(0)
}

/// The same, of 32 bits.
pub fn small_number(word: &str) -> u32 {
    word.parse::<u32>().unwrap_or(0)
}

/// The bytes that a word spells: pieces with `+` between them, each in hexadecimal, or a number, `*` and what stands so
/// often.
pub fn bytes_of(alloc: Global, word: &str) -> Result<Vec<u8>, NoMemory> {
    let mut bytes = Vec::new(alloc);
    for piece in word.split('+') {
        match piece.split_once('*') {
            Some((count, digits)) => push_times(&mut bytes, small_number(count), digits)?,
            None => push_digits(&mut bytes, piece)?,
        }
    }
    Ok(bytes)
}

fn push_times(bytes: &mut Vec<u8>, count: u32, digits: &str) -> Result<(), NoMemory> {
    for _ in 0..count {
        push_digits(bytes, digits)?;
    }
    Ok(())
}

// The bytes of a hexadecimal text; none of another text.
fn push_digits(bytes: &mut Vec<u8>, digits: &str) -> Result<(), NoMemory> {
    let mut high = None;
    for byte in digits.bytes() {
        let Some(value) = (byte as char).to_digit(16) else {
            continue;
        };
        match high {
            None => high = Some(value),
            Some(front) => {
                bytes.push((front % 16 * 16 + value % 16) as u8)?;
                high = None;
            }
        }
    }
    Ok(())
}

/// The blob whose namespace and hash a line names.
pub fn blob_of(line: &str) -> Option<BlobName> {
    let (space, hash) = cut(line);
    let Ok(space) = Namespace::parse(space) else {
        return None;
    };
    let Some(hash) = IoHash::parse(hash) else {
        return None;
    };
    Some(BlobName { space, hash })
}

/// The reference of a namespace, in the bucket `maps`, whose key consists of this byte.
pub fn name_of(space: &str, key: &str) -> Option<RefName> {
    let key = RefKey([key.parse::<u8>().unwrap_or(0); 20]);
    let Ok(space) = Namespace::parse(space) else {
        return None;
    };
    let Ok(bucket) = Bucket::parse("maps") else {
        return None;
    };
    Some(RefName {
        space,
        spot: RefSpot { bucket, key },
    })
}
