//! Bytes with the hash that names them, against what `b3sum` prints.

use crate::hashes::{ROWS, counted};
use ddc_names::IoHash;
use io_hash::{Intake, IntakeFault, io_hash_of};
use std::alloc::Global;
use std::test::Fail;
use std::thread::join;

fn first_part(hash: &[u8; 20]) -> u64 {
    let mut part = 0u64;
    for i in 0..8usize {
        part = (part << 8) | hash[i] as u64;
    }
    part
}

fn taken(alloc: Global, bytes: &[u8], size: usize) -> Result<Intake, IntakeFault> {
    let mut intake = Intake::new(alloc, bytes.len() as u64);
    for piece in bytes.chunks(size.max(1)) {
        intake.take(piece)?;
    }
    Ok(intake)
}

// The hash of bytes that come in pieces, where an intake of their length takes them and refuses one byte more.
fn hash_of_pieces(alloc: Global, bytes: &[u8], size: usize) -> Option<IoHash> {
    let mut intake = taken(alloc, bytes, size).ok()?;
    let limit = bytes.len() as u64;
    if intake.take(&[0]) != Err(IntakeFault::TooLarge { limit }) {
        return None;
    }
    let whole = intake.finish();
    if whole.bytes() == bytes {
        Some(whole.hash())
    } else {
        None
    }
}

#[test]
fn an_intake_gives_the_cut_hash(rt: HostRuntime) -> Result<(), Fail> {
    for (len, wanted) in ROWS {
        let bytes = counted(rt.alloc(), len)?;
        let hash = io_hash_of(bytes.as_slice());
        assert_eq!(rt; first_part(&hash.0), wanted[0], "{len}");
        for size in [1, 1000, 8192] {
            let found = hash_of_pieces(rt.alloc(), bytes.as_slice(), size);
            assert_eq!(rt; found, Some(hash), "{len} in pieces of {size}");
        }
    }
    Ok(())
}

// Bytes with their hash go from thread to thread.
#[test]
fn whole_is_made_in_another_thread(rt: HostRuntime) -> Result<(), Fail> {
    let alloc = rt.alloc();
    let (front, back) = join(
        &rt,
        || Intake::new(alloc, 1).finish(),
        || Intake::new(alloc, 2).finish(),
    );
    assert_eq!(rt; front.hash(), back.hash());
    Ok(())
}
