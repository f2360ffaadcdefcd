//! The events of a namespace, and how far its follower has come.

use crate::texts::{push_hex, text};
use crate::words::{cut, number, small_number};
use ddc_book::Book;
use ddc_disk::MemDisk;
use ddc_model::Cursor;
use ddc_names::{Namespace, NoMemory, RefSpot};
use replication_log::{Event, EventLog, EventOp, LogFault};
use std::alloc::Global;

fn push_spot(line: &mut String, spot: &RefSpot) -> Result<(), NoMemory> {
    line.push_str(" ")?;
    line.push_str(spot.bucket.as_str())?;
    line.push_str(":")?;
    push_hex(line, &spot.key.0)
}

fn push_event(alloc: Global, line: &mut String, event: &Event) -> Result<(), NoMemory> {
    line.push_str(format!(in alloc; ", {}", event.number)?.as_str())?;
    push_spot(line, &event.spot)?;
    match event.op {
        EventOp::Added(object) => {
            line.push_str(" added ")?;
            push_hex(line, &object.0)
        }
        EventOp::Deleted => Ok(line.push_str(" deleted")?),
    }
}

fn with_events(alloc: Global, last: u64, events: &[Event]) -> Result<String, NoMemory> {
    let mut line = format!(in alloc; "last {last}")?;
    for event in events {
        push_event(alloc, &mut line, event)?;
    }
    Ok(line)
}

fn page(alloc: Global, log: &EventLog, after: u64, count: u32) -> Result<String, NoMemory> {
    match log.incremental(alloc, after, count) {
        Ok(events) => with_events(alloc, log.last(), events.as_slice()),
        Err(LogFault::Ahead { last }) => Ok(format!(in alloc; "ahead of {last}")?),
        Err(LogFault::Trimmed { oldest }) => Ok(format!(in alloc; "trimmed to {oldest}")?),
        Err(LogFault::NoMemory) => Err(NoMemory),
    }
}

/// The number of a namespace's last event, and some events after a number.
pub fn events(alloc: Global, book: &Book<MemDisk>, rest: &str) -> Result<String, NoMemory> {
    let (space, words) = cut(rest);
    let (after, count) = cut(words);
    let Ok(space) = Namespace::parse(space) else {
        return text(alloc, "no namespace");
    };
    match book.index().log(&space) {
        Some(log) => page(alloc, log, number(after), small_number(count)),
        None => text(alloc, "no events"),
    }
}

fn cursor_line(alloc: Global, cursor: &Cursor) -> Result<String, NoMemory> {
    let word = if cursor.walking { "walking" } else { "reading" };
    let mut line = format!(in alloc; "{word} {} {}", cursor.after, cursor.top)?;
    match &cursor.from {
        Some(spot) => push_spot(&mut line, spot)?,
        None => line.push_str(" none")?,
    }
    Ok(line)
}

/// How far the follower of a namespace has come.
pub fn cursor(alloc: Global, book: &Book<MemDisk>, rest: &str) -> Result<String, NoMemory> {
    let Ok(space) = Namespace::parse(rest) else {
        return text(alloc, "no namespace");
    };
    match book.index().cursor(&space) {
        Some(cursor) => cursor_line(alloc, &cursor),
        None => text(alloc, "no cursor"),
    }
}
