//! Entries.

ghost use Rattle.std.specs.Prelude.{◌≡◌, ◌≤◌, true};
ghost use Rattle.ddc_model.specs.Counts.{added_links, fresh_of};
ghost use Rattle.ddc_model.specs.Limits.{most_links};
ghost use Rattle.ddc_entry.specs.Spelling.{RemovalCountFits};

use crate::objects::{bytes_of, push_hex, push_link};
use ddc_entry::{read_entry, write_entry};
use ddc_model::{Cursor, Entry, Stored};
use ddc_names::{IoHash, Namespace, NoMemory, RefName, RefSpot};
use replication_log::EventOp;
use std::alloc::Global;

// The most links of a blob.
const MOST_LINKS: usize = 4_194_304;

// The entry in words and whether it is written as the same bytes, or `none`.
pub fn entry_line(alloc: Global, digits: &str) -> Result<String, NoMemory> {
    let bytes = bytes_of(alloc, digits)?;
    let Some(entry) = read_entry(alloc, &bytes)? else {
        return Ok(String::from_str(alloc, "none")?);
    };
    let mut text = entry_text(alloc, &entry)?;
    if is_written_as(alloc, &entry, &bytes)? {
        text.push_str(" same")?;
    }
    Ok(text)
}

// Whether an entry that may be written is written as these bytes.
fn is_written_as(alloc: Global, entry: &Entry, bytes: &[u8]) -> Result<bool, NoMemory> {
    if !may_be_written(entry) {
        return Ok(false);
    }
    Ok(write_entry(alloc, entry)?.as_slice() == bytes)
}

// Whether an entry may be written.
fn may_be_written(entry: &Entry) -> bool
    ensures few_links { result ≡ true → added_links (fresh_of entry.now) ≤ most_links }
    ensures count_fits { result ≡ true → RemovalCountFits entry.now }
{
    match entry {
        Entry::Upload { blob, .. } => blob.links.len() <= MOST_LINKS,
        Entry::Put {
            fresh: Some(blob),
            ..
        } => blob.links.len() <= MOST_LINKS,
        Entry::Expire { spots, .. } => 1 <= spots.len() && spots.len() <= 64,
        Entry::Swept { hashes, .. } => 1 <= hashes.len() && hashes.len() <= 64,
        _ => true,
    }
}

// The words of an entry.
fn entry_text(alloc: Global, entry: &Entry) -> Result<String, NoMemory> {
    match entry {
        Entry::Space { space, ttl, pin } => space_text(alloc, "space", space, &[*ttl, *pin]),
        Entry::Upload { space, hour, blob } => {
            with_blob(alloc, space_text(alloc, "upload", space, &[*hour])?, blob)
        }
        Entry::Repin { space, hash, hour } => {
            with_hash(space_text(alloc, "repin", space, &[*hour])?, hash)
        }
        Entry::Put {
            name,
            root,
            fresh,
            whole,
            hour,
        } => {
            let word = if *whole { "put whole" } else { "put pending" };
            with_fresh(
                alloc,
                with_hash(name_text(alloc, word, name.get(), *hour as u64)?, root)?,
                fresh,
            )
        }
        Entry::Finalise { name, hash, hour } => {
            with_hash(
                name_text(alloc, "finalise", name.get(), *hour as u64)?,
                hash,
            )
        }
        Entry::Delete { name, hour } => name_text(alloc, "delete", name.get(), *hour as u64),
        Entry::Touch { name, hour } => name_text(alloc, "touch", name.get(), *hour as u64),
        Entry::Expire { space, spots, hour } => {
            with_spots(
                space_text(alloc, "expire", space, &[*hour])?,
                spots.as_slice(),
            )
        }
        Entry::Swept { space, hashes } => {
            with_hashes(space_text(alloc, "swept", space, &[])?, hashes.as_slice())
        }
        Entry::Cursor { space, cursor } => cursor_text(alloc, space, cursor.get()),
        Entry::BaseHour { hour } => Ok(format!(in alloc; "hour {hour}")?),
        Entry::BaseSlot {
            name,
            done,
            pending,
            seen,
        } => {
            let text = name_text(alloc, "slot", name.get(), *seen as u64)?;
            with_option(with_option(text, done)?, pending)
        }
        Entry::BaseEvent { name, number, op } => {
            with_op(name_text(alloc, "event", name.get(), *number)?, op)
        }
    }
}

// A word, a namespace and some numbers.
fn space_text(
    alloc: Global,
    word: &str,
    space: &Namespace,
    numbers: &[u32],
) -> Result<String, NoMemory> {
    let mut text = format!(in alloc; "{word} {}", space.as_str())?;
    for number in numbers {
        text.push_str(format!(in alloc; " {number}")?.as_str())?;
    }
    Ok(text)
}

// A word, a reference's name and a number.
fn name_text(alloc: Global, word: &str, name: &RefName, number: u64) -> Result<String, NoMemory> {
    let bucket = name.spot.bucket.as_str();
    let mut text = format!(in alloc; "{word} {} {bucket} ", name.space.as_str())?;
    push_hex(&mut text, &name.spot.key.0)?;
    text.push_str(format!(in alloc; " {number}")?.as_str())?;
    Ok(text)
}

// How far a follower has come.
fn cursor_text(alloc: Global, space: &Namespace, cursor: &Cursor) -> Result<String, NoMemory> {
    let word = if cursor.walking { "walking" } else { "reading" };
    let mut text = format!(in alloc; "cursor {} {word}", space.as_str())?;
    text.push_str(format!(in alloc; " {} {}", cursor.after, cursor.top)?.as_str())?;
    match &cursor.from {
        Some(spot) => push_spot(&mut text, spot)?,
        None => text.push_str(" none")?,
    }
    Ok(text)
}

// Writes a bucket and a key.
fn push_spot(text: &mut String, spot: &RefSpot) -> Result<(), NoMemory> {
    text.push_str(" ")?;
    text.push_str(spot.bucket.as_str())?;
    text.push_str(":")?;
    push_hex(text, &spot.key.0)
}

// A text and where some references stand.
fn with_spots(mut text: String, spots: &[RefSpot]) -> Result<String, NoMemory> {
    for spot in spots {
        push_spot(&mut text, spot)?;
    }
    Ok(text)
}

// A text and some hashes.
fn with_hashes(mut text: String, hashes: &[IoHash]) -> Result<String, NoMemory> {
    for hash in hashes {
        text.push_str(" ")?;
        push_hex(&mut text, &hash.0)?;
    }
    Ok(text)
}

// A text and a hash, or that there is none.
fn with_option(mut text: String, hash: &Option<IoHash>) -> Result<String, NoMemory> {
    match hash {
        Some(hash) => with_hash(text, hash),
        None => {
            text.push_str(" none")?;
            Ok(text)
        }
    }
}

// A text and what happened to a reference.
fn with_op(mut text: String, op: &EventOp) -> Result<String, NoMemory> {
    match op {
        EventOp::Added(object) => {
            text.push_str(" added")?;
            with_hash(text, object)
        }
        EventOp::Deleted => {
            text.push_str(" deleted")?;
            Ok(text)
        }
    }
}

// A text and a blob, where there is one.
fn with_fresh(alloc: Global, text: String, fresh: &Option<Stored>) -> Result<String, NoMemory> {
    match fresh {
        Some(blob) => with_blob(alloc, text, blob),
        None => Ok(text),
    }
}

// A text and a hash.
fn with_hash(mut text: String, hash: &IoHash) -> Result<String, NoMemory> {
    text.push_str(" ")?;
    push_hex(&mut text, &hash.0)?;
    Ok(text)
}

// A text and a blob's hash, length, first unit and links.
fn with_blob(alloc: Global, text: String, blob: &Stored) -> Result<String, NoMemory> {
    let mut text = with_hash(text, &blob.hash)?;
    text.push_str(format!(in alloc; " {} {}", blob.len, blob.start)?.as_str())?;
    for link in blob.links.as_slice() {
        push_link(&mut text, link)?;
    }
    Ok(text)
}
