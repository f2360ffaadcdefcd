//! Writes an entry and reads it again, a number of times, and prints how many bytes were written and how many entries
//! read: `bench_entry LINKS TIMES [timed]`. With 0 links the entry is that a reference was read, else an upload of a
//! blob with so many links. With the third word a line follows with the nanoseconds of all writes and of all reads.
//! `bench/entries` runs it.
#![tactic(auto)]

ghost use Rattle.std.specs.Prelude.{◌≡◌, ◌≤◌, true};
ghost use Rattle.ddc_model.specs.Counts.{added_links, fresh_of};
ghost use Rattle.ddc_model.specs.Limits.{most_links};
ghost use Rattle.ddc_entry.specs.Spelling.{RemovalCountFits};

use cb_fields::{Link, LinkKind};
use ddc_entry::{read_entry, write_entry};
use ddc_model::{Entry, NameBox, Stored};
use ddc_names::{Bucket, IoHash, Namespace, NoMemory, RefKey, RefName, RefSpot, Rows};
use std::alloc::Global;
use std::time::Instant;
use std::{env, io};

// The most links of a blob.
const MOST_LINKS: usize = 4_194_304;

fn links_of(alloc: Global, count: u64) -> Result<Rows<Link>, NoMemory> {
    let mut links = Rows::new(alloc);
    for number in 0..count {
        links.push(Link {
            kind: LinkKind::Binary,
            hash: IoHash([(number % 251) as u8; 20]),
        })?;
    }
    Ok(links)
}

fn touched(alloc: Global) -> Result<Option<Entry>, NoMemory> {
    let (Ok(space), Ok(bucket)) = (Namespace::parse("game"), Bucket::parse("ddc")) else {
        return Ok(None);
    };
    let spot = RefSpot {
        bucket,
        key: RefKey([7; 20]),
    };
    Ok(Some(Entry::Touch {
        name: NameBox::new(alloc, RefName { space, spot })?,
        hour: 494_933,
    }))
}

// How many bytes were written.
fn write_all(alloc: Global, entry: &Entry, times: u64) -> Result<u64, NoMemory>
    requires few_links { added_links (fresh_of entry.now) ≤ most_links }
    requires count_fits { RemovalCountFits entry.now }
{
    let mut total = 0u64;
    for _ in 0..times {
        total = total.wrapping_add(write_entry(alloc, entry)?.len() as u64);
    }
    Ok(total)
}

// How many entries were read.
fn read_all(alloc: Global, bytes: &[u8], times: u64) -> Result<u64, NoMemory> {
    let mut found = 0u64;
    for _ in 0..times {
        if read_entry(alloc, bytes)?.is_some() {
            found = found.wrapping_add(1);
        }
    }
    Ok(found)
}

fn upload_of(links: Rows<Link>) -> Option<Entry> {
    let Ok(space) = Namespace::parse("game") else {
        return None;
    };
    let blob = Stored {
        hash: IoHash([9; 20]),
        len: 65_536,
        start: 4_096,
        links,
    };
    Some(Entry::Upload {
        space,
        hour: 494_933,
        blob,
    })
}

// The entry with so many links.
fn entry_of(alloc: Global, count: u64) -> Result<Option<Entry>, NoMemory> {
    if count == 0 {
        return touched(alloc);
    }
    Ok(upload_of(links_of(alloc, count)?))
}

// Whether an entry may be written.
fn may_be_written(entry: &Entry) -> bool
    ensures few_links { result ≡ true → added_links (fresh_of entry.now) ≤ most_links }
    ensures count_fits { result ≡ true → RemovalCountFits entry.now }
{
    match entry {
        Entry::Upload { blob, .. } => blob.links.len() <= MOST_LINKS,
        Entry::Touch { .. } => true,
        _ => false,
    }
}

fn number_or(word: Option<String>, other: u64) -> u64 {
    match word {
        Some(word) => word.as_str().parse::<u64>().unwrap_or(other),
        None => other,
    }
}

fn main(rt: HostRuntime) -> io::Result<()> {
    let mut words = env::args(&rt)?;
    let _program = words.next();
    let links = number_or(words.next(), 2);
    let times = number_or(words.next(), 3);
    let timed = words.next().is_some();
    let Ok(Some(entry)) = entry_of(rt.alloc(), links) else {
        return Ok(());
    };
    if !may_be_written(&entry) {
        return Ok(());
    }
    let Ok(bytes) = write_entry(rt.alloc(), &entry) else {
        return Ok(());
    };
    let start = Instant::now(&rt)?;
    let written = write_all(rt.alloc(), &entry, times).unwrap_or(0);
    let writing = start.elapsed(&rt)?.as_nanos();
    let start = Instant::now(&rt)?;
    let read = read_all(rt.alloc(), bytes.as_slice(), times).unwrap_or(0);
    let reading = start.elapsed(&rt)?.as_nanos();
    println!(rt; "{written} bytes, {read} entries")?;
    if timed {
        println!(rt; "{writing} {reading}")?;
    }
    Ok(())
}
