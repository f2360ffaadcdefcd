//! Crashes in an append and in a checkpoint, and calls that fail.

ghost use Rattle.std.specs.Prelude.{◌≡◌, ◌∷◌, [], IfOk};

use crate::files::{devices_of, empty_disk, loaded, pair_loaded};
use crate::texts::{cut, number_of};
use ddc_disk::{Devices, HeldDevices, MemDisk};
use ddc_journal::{Framed, Journal, pair};
use ddc_names::{ByteList, NoMemory, Rows};
use std::alloc::Global;

const BODY: [u8; 1] = [0xab];

const NEXT: [u8; 1] = [0xcd];

// Makes a journal, and gives how many calls that took; then appends the body, where the disk does it.
fn append_body(alloc: Global, disk: &mut MemDisk) -> Result<u64, NoMemory> {
    let item = Framed::new(alloc, &BODY)?;
    let Ok(mut journal) = Journal::create(disk, 1) else {
        return Err(NoMemory);
    };
    let start = disk.calls();
    let _ = journal.append(disk, &item);
    Ok(start)
}

pub fn append_line(alloc: Global, rest: &str) -> Result<String, NoMemory> {
    let (calls, choice) = cut(rest);
    let mut disk = empty_disk(alloc);
    let start = append_body(alloc, &mut disk)?;
    let calls = start.saturating_add(number_of(calls));
    let left = disk.crashed(calls, number_of(choice))?;
    loaded(alloc, left)
}

// The journal after an append of which this call fails.
pub fn fail_line(alloc: Global, call: &str) -> Result<String, NoMemory> {
    let made = append_body(alloc, &mut empty_disk(alloc))?;
    let call = made.saturating_add(number_of(call));
    let failing = Vec::from_slice(alloc, &[call])?;
    let mut disk = MemDisk::new(alloc, Rows::of_vec(failing));
    append_body(alloc, &mut disk)?;
    loaded(alloc, disk)
}

// A pair with one body.
fn pair_of_one(alloc: Global) -> Result<(HeldDevices<MemDisk>, pair::Pair), NoMemory> {
    let item = Framed::new(alloc, &BODY)?;
    let devices = devices_of(alloc, empty_disk(alloc), empty_disk(alloc));
    let mut held = HeldDevices::new(devices);
    let Ok(mut pair) = pair::create(&mut held, 1) else {
        return Err(NoMemory);
    };
    match pair.append(&mut held, &item) {
        Ok(()) => Ok((held, pair)),
        Err(_) => Err(NoMemory),
    }
}

fn next_bodies(alloc: Global) -> Result<Rows<ByteList>, NoMemory>
    ensures { IfOk result (λ bodies. bodies ≡ (205 ∷ []) ∷ []) }
{
    let mut bodies = Rows::new(alloc);
    let body = Vec::from_slice(alloc, &NEXT)?;
    bodies.push(Rows::of_vec(body))?;
    Ok(bodies)
}

// The devices after a checkpoint, and how many calls of the second file there were before it.
fn checkpointed(alloc: Global) -> Result<(Devices<MemDisk>, u64), NoMemory> {
    let bodies = next_bodies(alloc)?;
    let (held, mut pair) = pair_of_one(alloc)?;
    let devices = held.into_devices();
    let start = devices.second.calls();
    let mut held = HeldDevices::new(devices);
    match pair.checkpoint(alloc, &mut held, &bodies, 2) {
        Ok(()) => Ok((held.into_devices(), start)),
        Err(_) => Err(NoMemory),
    }
}

pub fn checkpoint_line(alloc: Global, rest: &str) -> Result<String, NoMemory> {
    let (calls, choice) = cut(rest);
    let choice = number_of(choice);
    let (devices, start) = checkpointed(alloc)?;
    let calls = start.saturating_add(number_of(calls));
    let first = devices.first.crashed(devices.first.calls(), choice)?;
    let second = devices.second.crashed(calls, choice)?;
    pair_loaded(alloc, devices_of(alloc, first, second), 2)
}
