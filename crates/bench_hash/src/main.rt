//! Hashes bytes in memory by one of the ways of this repository, and prints the hash; `bench/hash` runs it and reads
//! the times that it prints.
//!
//! Words: the way (`plain`, `pieces`, `lanes`, `once` or `intake`), how many bytes, and how often. With no third word, and so
//! with none at all, no time is printed.
#![tactic(auto)]

ghost use Rattle.std.specs.Prelude.{◌<◌};

use blake3_hash::{Hasher, hash};
use blake3_lanes::{WideHasher, hash as lanes_hash};
use io_hash::{Intake, IntakeFault};
use std::alloc::{AllocError, Global};
use std::time::Instant;
use std::{env, io};

const PIECE: usize = 65_536;

#[derive(Clone, Copy)]
enum Way {
    Plain,
    Pieces,
    Lanes,
    Once,
    Intake,
}

fn way_of(word: &str) -> Way {
    match word {
        "plain" => Way::Plain,
        "pieces" => Way::Pieces,
        "once" => Way::Once,
        "intake" => Way::Intake,
        _ => Way::Lanes,
    }
}

// The first eight bytes of the hash of the bytes, and 0 where there is no memory.
fn hash_by(alloc: Global, way: Way, bytes: &[u8]) -> u64 {
    match way {
        Way::Plain => first_part(&hash(bytes)),
        Way::Pieces => first_part(&by_pieces(bytes)),
        Way::Lanes => first_part(&by_lanes(bytes)),
        Way::Once => first_part(&lanes_hash(bytes)),
        Way::Intake => match taken(alloc, bytes) {
            Ok(intake) => first_part(&intake.finish().hash().0),
            Err(_) => 0,
        },
    }
}

// Not inlined, like the next one, or each way would pay for the locals of all.
#[inline(never)]
fn by_pieces(bytes: &[u8]) -> [u8; 32] {
    let mut hasher = Hasher::new();
    hasher.update(bytes);
    hasher.finish()
}

#[inline(never)]
fn by_lanes(bytes: &[u8]) -> [u8; 32] {
    let mut hasher = WideHasher::new();
    hasher.update(bytes);
    hasher.finish()
}

fn taken(alloc: Global, bytes: &[u8]) -> Result<Intake, IntakeFault> {
    let mut intake = Intake::new(alloc, bytes.len() as u64);
    for piece in bytes.chunks(PIECE) {
        intake.take(piece)?;
    }
    Ok(intake)
}

fn first_part<const N: usize>(hash: &[u8; N]) -> u64
    requires { 8 < N }
{
    let mut part = 0u64;
    for i in 0..8usize {
        part = (part << 8) | hash[i] as u64;
    }
    part
}

// The bytes 0, 1, .., 250, 0, ..
fn counted(alloc: Global, len: usize) -> Result<Vec<u8>, AllocError> {
    let mut bytes = Vec::new(alloc);
    for i in 0..len {
        bytes.push((i % 251) as u8)?;
    }
    Ok(bytes)
}

fn number_or(word: Option<String>, default: u64) -> u64 {
    match word {
        Some(word) => word.parse::<u64>().unwrap_or(default),
        None => default,
    }
}

fn main(rt: HostRuntime) -> io::Result<()> {
    let mut words = env::args(&rt)?;
    let _program = words.next();
    let way = match words.next() {
        Some(word) => way_of(word.as_str()),
        None => Way::Lanes,
    };
    let len = number_or(words.next(), 100_000);
    let times = number_or(words.next(), 0);
    let bytes = counted(rt.alloc(), len as usize)?;
    println!(rt; "{:016x}", hash_by(rt.alloc(), way, bytes.as_slice()))?;
    for _ in 0..times {
        let start = Instant::now(&rt)?;
        let part = hash_by(rt.alloc(), way, bytes.as_slice());
        let nanos = start.elapsed(&rt)?.as_nanos();
        println!(rt; "{nanos} {part:016x}")?;
    }
    Ok(())
}
