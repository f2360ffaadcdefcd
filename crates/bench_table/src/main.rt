//! Sets, gets and pages through a table of references: `bench_table COUNT PAGES [TIMES]`.
//! It sets COUNT references of one namespace, gets each once in another order, and reads PAGES pages of 50. It prints
//! what it found; with a third word it prints the nanoseconds of each part too. `bench/table` runs it beside
//! `bench/table.rs`, which does the same with Rust's `BTreeMap`.
#![tactic(auto)]

use ddc_names::{Bucket, IoHash, Namespace, RefKey, RefName, RefSpot};
use ref_store::{RefTable, Slot};
use std::alloc::Global;
use std::time::Instant;
use std::{env, io};

#[derive(Drop)]
struct Names {
    space: Namespace,
    buckets: [Bucket; 4],
}

// The numbers of splitmix64.
fn mixed(i: u64) -> u64 {
    let z = i.wrapping_add(1).wrapping_mul(0x9e37_79b9_7f4a_7c15);
    let z = (z ^ (z >> 30)).wrapping_mul(0xbf58_476d_1ce4_e5b9);
    let z = (z ^ (z >> 27)).wrapping_mul(0x94d0_49bb_1331_11eb);
    z ^ (z >> 31)
}

fn low_half(i: u64) -> u32 {
    (i % 0x1_0000_0000) as u32
}

fn key_of(i: u64) -> [u8; 20] {
    let mut key = [0; 20];
    key[..8].copy_from_slice(&mixed(i).to_be_bytes());
    key[8..16].copy_from_slice(&mixed(!i).to_be_bytes());
    key[16..].copy_from_slice(&low_half(i).to_be_bytes());
    key
}

impl Names {
    fn name(&self, i: u64) -> RefName {
        RefName {
            space: self.space,
            spot: RefSpot {
                bucket: self.buckets[(mixed(i) % 4) as usize],
                key: RefKey(key_of(i)),
            },
        }
    }
}

fn slot_of(i: u64) -> Slot {
    Slot {
        done: Some(IoHash(key_of(i))),
        pending: None,
        seen: low_half(i),
    }
}

// How many of the references were set.
fn set_all(table: &mut RefTable, names: &Names, count: u64) -> u64 {
    let mut set = 0u64;
    for i in 0..count {
        if table.set(&names.name(i), slot_of(i)).is_ok() {
            set = set.wrapping_add(1);
        }
    }
    set
}

// The sum of the hours in which the references were seen.
fn get_all(table: &RefTable, names: &Names, count: u64) -> u64 {
    let mut hours = 0u64;
    for i in 0..count {
        if let Some(slot) = table.get(&names.name(mixed(i) % count.max(1))) {
            hours = hours.wrapping_add(slot.seen as u64);
        }
    }
    hours
}

// How many rows the pages have.
fn read_pages(alloc: Global, table: &RefTable, names: &Names, count: u64, pages: u64) -> u64 {
    let mut rows = 0u64;
    for i in 0..pages {
        let from = names.name(mixed(i) % count.max(1)).spot;
        if let Ok(page) = table.page(alloc, &names.space, Some(from), 50) {
            rows = rows.wrapping_add(page.rows.len() as u64);
        }
    }
    rows
}

fn number_or(word: Option<String>, default: u64) -> u64 {
    match word {
        Some(word) => word.parse::<u64>().unwrap_or(default),
        None => default,
    }
}

fn bench_names() -> Option<Names> {
    Some(Names {
        space: Namespace::parse("ue5.ddc").ok()?,
        buckets: [
            Bucket::parse("textures").ok()?,
            Bucket::parse("meshes").ok()?,
            Bucket::parse("shaders").ok()?,
            Bucket::parse("animations").ok()?,
        ],
    })
}

fn main(rt: HostRuntime) -> io::Result<()> {
    let mut words = env::args(&rt)?;
    let _program = words.next();
    let count = number_or(words.next(), 1_000);
    let pages = number_or(words.next(), 10);
    let timed = words.next().is_some();
    let Some(names) = bench_names() else {
        return Ok(());
    };
    let mut table = RefTable::new(rt.alloc());
    let start = Instant::now(&rt)?;
    let set = set_all(&mut table, &names, count);
    let set_nanos = start.elapsed(&rt)?.as_nanos();
    let start = Instant::now(&rt)?;
    let hours = get_all(&table, &names, count);
    let get_nanos = start.elapsed(&rt)?.as_nanos();
    let start = Instant::now(&rt)?;
    let rows = read_pages(rt.alloc(), &table, &names, count, pages);
    let page_nanos = start.elapsed(&rt)?.as_nanos();
    println!(rt; "{set} set, {hours} hours, {rows} rows")?;
    if timed {
        println!(rt; "{set_nanos} {get_nanos} {page_nanos}")?;
    }
    Ok(())
}
