//! Each public call once, against bytes written by hand. All other cases are lines of `case_journal`.

ghost use Rattle.std.specs.Prelude.{◌≡◌, ◌∷◌, ◌<◌, ◌^◌, [], IfOk};

use ddc_disk::{Devices, Disk, FileDisk, HeldDevices, MemDisk};
use ddc_journal::pair::{self, Pair};
use ddc_journal::{Framed, Journal};
use ddc_names::{ByteList, NoMemory, Rows};
use std::alloc::Global;
use std::fs;
use std::test::Fail;

// A journal with the body ab.
const ONE: [u8; 28] = [
    0x44, 0x44, 0x43, 0x4a, 0x4c, 0x4f, 0x47, 0x0a, 0, 0, 0, 0, 1, 0, 0, 0, 0, 0, 0, 0, 1, 1, 1, 0,
    0, 0, 0xab, 0,
];

// The second file after a checkpoint of the body cd to the version 2.
const SECOND: [u8; 28] = [
    0x44, 0x44, 0x43, 0x4a, 0x4c, 0x4f, 0x47, 0x0a, 2, 0, 0, 0, 2, 0, 0, 0, 0, 0, 0, 0, 1, 1, 1, 0,
    0, 0, 0xcd, 0,
];

fn empty_disk(alloc: Global) -> MemDisk {
    MemDisk::new(alloc, Rows::new(alloc))
}

// Whether a disk of 28 bytes holds these.
fn is_written<D: Disk>(disk: &mut D, wanted: &[u8; 28]) -> bool {
    let mut bytes = [9; 28];
    disk.len() == Ok(28) && disk.read(0, &mut bytes) == Ok(()) && bytes == *wanted
}

fn is_one(bodies: &Rows<ByteList>, byte: u8) -> bool {
    match bodies.as_slice() {
        [body] => body.as_slice() == [byte].as_slice(),
        _ => false,
    }
}

// Makes a journal and appends the body ab.
fn make_one<D: Disk>(alloc: Global, disk: &mut D) -> bool {
    match (Journal::create(disk, 1), Framed::new(alloc, &[0xab])) {
        (Ok(mut journal), Ok(item)) => journal.append(disk, &item).is_ok(),
        _ => false,
    }
}

fn loads_one<D: Disk>(alloc: Global, disk: &mut D) -> bool {
    match Journal::load(alloc, disk) {
        Ok((_, bodies)) => is_one(&bodies, 0xab),
        Err(_) => false,
    }
}

#[test]
fn a_journal_of_one_body_has_28_bytes(rt: HostRuntime) {
    let mut disk = empty_disk(rt.alloc());
    assert!(rt; make_one(rt.alloc(), &mut disk));
    assert!(rt; is_written(&mut disk, &ONE));
    assert!(rt; loads_one(rt.alloc(), &mut disk));
}

#[test]
fn a_journal_on_a_file_gives_its_bodies_back(rt: HostRuntime) -> Result<(), Fail> {
    let folder = "ddc_journal_test";
    let _ = fs::remove_dir_all(&rt, folder);
    fs::create_dir(&rt, folder)?;
    let mut disk = FileDisk::at_path(rt, rt.alloc(), "ddc_journal_test/first")?;
    assert!(rt; make_one(rt.alloc(), &mut disk));
    drop(disk);
    let mut again = FileDisk::at_path(rt, rt.alloc(), "ddc_journal_test/first")?;
    assert!(rt; loads_one(rt.alloc(), &mut again));
    fs::remove_dir_all(&rt, folder)?;
    Ok(())
}

// Appends a body of so many bytes 7.
fn append_sevens(alloc: Global, disk: &mut MemDisk, journal: &mut Journal, count: usize) -> bool
    requires { count < 2 ^ 31 }
{
    let mut body = Vec::new(alloc);
    if body.resize(count, 7).is_err() {
        return false;
    }
    match Framed::new(alloc, &body) {
        Ok(item) => journal.append(disk, &item).is_ok(),
        Err(NoMemory) => false,
    }
}

// A journal of two bodies, of so many bytes 7.
fn two_bodies(alloc: Global, disk: &mut MemDisk, first: usize, second: usize) -> bool
    requires first { first < 2 ^ 31 }
    requires second { second < 2 ^ 31 }
{
    match Journal::create(disk, 1) {
        Ok(mut journal) => {
            append_sevens(alloc, disk, &mut journal, first)
                && append_sevens(alloc, disk, &mut journal, second)
        }
        Err(_) => false,
    }
}

fn are_sevens(body: &ByteList, count: usize) -> bool {
    body.len() == count && body.as_slice().iter().all(|byte| *byte == 7)
}

fn loads_two(alloc: Global, disk: &mut MemDisk, first: usize, second: usize) -> bool {
    match Journal::load(alloc, disk) {
        Ok((_, bodies)) => match bodies.as_slice() {
            [one, two] => are_sevens(one, first) && are_sevens(two, second),
            _ => false,
        },
        Err(_) => false,
    }
}

#[test]
fn an_item_across_two_windows_is_loaded(rt: HostRuntime) {
    let mut disk = empty_disk(rt.alloc());
    assert!(rt; two_bodies(rt.alloc(), &mut disk, 65000, 1000));
    assert!(rt; loads_two(rt.alloc(), &mut disk, 65000, 1000));
}

#[test]
fn an_item_longer_than_a_window_is_loaded(rt: HostRuntime) {
    let mut disk = empty_disk(rt.alloc());
    assert!(rt; two_bodies(rt.alloc(), &mut disk, 70000, 3));
    assert!(rt; loads_two(rt.alloc(), &mut disk, 70000, 3));
}

fn made_pair(alloc: Global, held: &mut HeldDevices<MemDisk>) -> Option<Pair> {
    match (pair::create(held, 1), Framed::new(alloc, &[0xab])) {
        (Ok(mut pair), Ok(item)) => pair.append(held, &item).is_ok().then_some(pair),
        _ => None,
    }
}

fn next_bodies(alloc: Global) -> Result<Rows<ByteList>, NoMemory>
    ensures { IfOk result (λ bodies. bodies ≡ (205 ∷ []) ∷ []) }
{
    let mut bodies = Rows::new(alloc);
    let body = Vec::from_slice(alloc, &[0xcd])?;
    bodies.push(Rows::of_vec(body))?;
    Ok(bodies)
}

// Whether a checkpoint of the body cd makes the second file the active one.
fn turns(alloc: Global, held: &mut HeldDevices<MemDisk>, mut pair: Pair) -> bool {
    match next_bodies(alloc) {
        Ok(bodies) => {
            pair.checkpoint(alloc, held, &bodies, 2).is_ok()
                && pair.active() == 1
                && pair.version() == 2
        }
        Err(NoMemory) => false,
    }
}

fn loads_next(alloc: Global, held: &mut HeldDevices<MemDisk>) -> bool {
    match pair::load(alloc, held, 2) {
        Ok((pair, bodies)) => pair.active() == 1 && is_one(&bodies, 0xcd),
        Err(_) => false,
    }
}

#[test]
fn a_checkpoint_writes_the_other_file(rt: HostRuntime) {
    let alloc = rt.alloc();
    let mut held = HeldDevices::new(Devices {
        first: empty_disk(alloc),
        second: empty_disk(alloc),
        blobs: empty_disk(alloc),
    });
    let made = match made_pair(alloc, &mut held) {
        Some(pair) => turns(alloc, &mut held, pair),
        None => false,
    };
    assert!(rt; made);
    assert!(rt; is_written(held.second(), &SECOND));
    assert!(rt; loads_next(alloc, &mut held));
}
