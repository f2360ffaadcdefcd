//! Disks whose bytes, calls and images a reader can count by hand. The rest are cases of `case_extents`.

use ddc_disk::{Devices, Disk, FileDisk, HeldDevices, MemDisk, write_sure};
use ddc_names::{Failed, NoMemory, Rows};
use std::alloc::Global;
use std::fs;
use std::test::Fail;

const FOLDER: &str = "ddc_disk_test";

const FILE: &str = "ddc_disk_test/journal";

fn disk(alloc: Global, failing: &[u64]) -> Result<MemDisk, NoMemory> {
    Ok(MemDisk::new(alloc, Rows::of_vec(Vec::from_slice(alloc, failing)?)))
}

// Whether a read from the front gives these bytes.
fn reads<D: Disk>(disk: &mut D, bytes: &[u8]) -> bool {
    let mut buffer = [0xee; 16];
    if bytes.len() > buffer.len() {
        return false;
    }
    let window = &mut buffer[..bytes.len()];
    disk.read(0, window).is_ok() && *window == *bytes
}

// Whether two bytes are written but not made sure, and read back.
fn writes<D: Disk>(disk: &mut D) -> bool {
    disk.write_at(1, b"ab") == Ok(()) && disk.sync() == Err(Failed) && reads(disk, b"\0ab\0")
}

// The end that a crash after so many calls leaves.
fn end_after(disk: &MemDisk, calls: u64, choice: u64) -> Result<u64, NoMemory> {
    Ok(disk.crashed(calls, choice)?.len().unwrap_or(99))
}

#[test]
fn a_disk_in_memory_fails_as_listed_and_crashes(rt: HostRuntime) -> Result<(), Fail> {
    let mut disk = disk(rt.alloc(), &[1])?;
    assert!(rt; writes(&mut disk));
    assert_eq!(rt; (disk.calls(), disk.faults(), disk.starved()), (3, 1, 0));
    assert_eq!(rt; (end_after(&disk, 3, 0)?, end_after(&disk, 3, 1)?), (0, 3));
    Ok(())
}

// Three devices, of which the second fails at its first call.
fn three(alloc: Global) -> Result<Devices<MemDisk>, NoMemory> {
    Ok(Devices {
        first: disk(alloc, &[])?,
        second: disk(alloc, &[0])?,
        blobs: disk(alloc, &[])?,
    })
}

// Whether each device is written at a moment after the one before.
fn writes_in_turn<D: Disk>(held: &mut HeldDevices<D>) -> bool {
    write_sure(held.blobs(), 0, b"blob") == Ok(())
        && held.moment() == 2
        && write_sure(held.first(), 0, b"entry") == Ok(())
        && held.moment() == 4
        && write_sure(held.second(), 0, b"other") == Err(Failed)
        && held.moment() == 5
}

#[test]
fn devices_are_lent_one_at_a_time_on_one_clock(rt: HostRuntime) -> Result<(), Fail> {
    let devices = three(rt.alloc())?;
    assert_eq!(rt; devices.faults(), 0);
    let mut held = HeldDevices::new(devices);
    assert!(rt; writes_in_turn(&mut held));
    assert_eq!(rt; held.faults(), 1);
    let mut devices = held.into_devices();
    assert!(rt; reads(&mut devices.first, b"entry") && reads(&mut devices.blobs, b"blob"));
    Ok(())
}

// Whether an empty disk with one fault takes bytes, refuses a range past 2^64, and goes on to a later moment.
fn fills<D: Disk>(disk: &mut D) -> bool {
    let filled = disk.len() == Ok(0)
        && write_sure(disk, 3, b"ab") == Ok(())
        && disk.write_at(u64::MAX, b"a") == Err(Failed);
    disk.wait_until(9);
    filled && disk.faults() == 2 && disk.moment() == 9
}

// Whether a disk has these bytes and no more.
fn keeps<D: Disk>(disk: &mut D) -> bool {
    let mut past = [7; 4];
    disk.len() == Ok(5)
        && reads(disk, b"\0\0\0ab\0\0\0")
        && disk.read(u64::MAX, &mut past) == Ok(())
        && past == [0; 4]
}

#[test]
fn a_file_keeps_what_was_written(rt: HostRuntime) -> Result<(), Fail> {
    let _ = fs::remove_dir_all(&rt, FOLDER);
    let mut early = FileDisk::at_path(rt, rt.alloc(), FILE)?;
    assert_eq!(rt; early.len(), Err(Failed), "no folder");
    fs::create_dir(&rt, FOLDER)?;
    assert!(rt; fills(&mut early));
    let mut again = FileDisk::at_path(rt, rt.alloc(), FILE)?;
    assert_eq!(rt; again.len(), Err(Failed), "opened twice");
    drop(early);
    assert!(rt; keeps(&mut again));
    fs::remove_dir_all(&rt, FOLDER)?;
    Ok(())
}
