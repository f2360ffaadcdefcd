//! The devices in memory, and how a store is made or opened on them.

use crate::bench::{Bench, Most};
use crate::reads::{damaged, state};
use crate::texts::{text, unopened, with_bytes};
use crate::words::{bytes_of, cut, number, small_number};
use ddc_book::{Book, OpenFault, Step};
use ddc_disk::{Devices, Disk, MemDisk};
use ddc_names::{NoMemory, Rows};
use std::alloc::Global;

// A disk of which the calls fail that a line lists for this file.
fn disk(alloc: Global, line: &str, file: u64) -> Result<MemDisk, NoMemory> {
    let mut failing = Vec::new(alloc);
    for word in line.split(' ') {
        if let Some((which, call)) = word.split_once(':') {
            if number(which) == file {
                failing.push(number(call))?;
            }
        }
    }
    Ok(MemDisk::new(alloc, Rows::of_vec(failing)))
}

fn new_devices(alloc: Global, line: &str) -> Result<Devices<MemDisk>, NoMemory> {
    Ok(Devices {
        first: disk(alloc, line, 0)?,
        second: disk(alloc, line, 1)?,
        blobs: disk(alloc, line, 2)?,
    })
}

pub fn disks(alloc: Global, bench: &mut Bench, line: &str) -> Result<String, NoMemory> {
    bench.book = None;
    bench.devices = Some(new_devices(alloc, line)?);
    text(alloc, "disks")
}

pub fn most(alloc: Global, bench: &mut Bench, line: &str) -> Result<String, NoMemory> {
    bench.most = Most::standard();
    for word in line.split(' ') {
        if let Some((what, number)) = word.split_once(':') {
            bench.most.set(what, number);
        }
    }
    text(alloc, "most")
}

pub fn hour(alloc: Global, bench: &mut Bench, line: &str) -> Result<String, NoMemory> {
    bench.hour = small_number(line);
    text(alloc, "hour")
}

// Takes what was made or opened.
fn taken(
    alloc: Global,
    bench: &mut Bench,
    opened: Result<Book<MemDisk>, (Devices<MemDisk>, OpenFault)>,
) -> Result<String, NoMemory> {
    match opened {
        Ok(book) => {
            let line = state(alloc, &book)?;
            bench.book = Some(book);
            Ok(line)
        }
        Err((devices, fault)) => {
            let faults = devices.faults();
            bench.devices = Some(devices);
            let line = unopened(alloc, fault)?;
            Ok(format!(in alloc; "{}, {faults} faults", line.as_str())?)
        }
    }
}

pub fn create(alloc: Global, bench: &mut Bench) -> Result<String, NoMemory> {
    let limits = bench.most.limits();
    match bench.devices.take() {
        Some(devices) => taken(alloc, bench, Book::create(alloc, devices, limits)),
        None => text(alloc, "no devices"),
    }
}

pub fn load(alloc: Global, bench: &mut Bench) -> Result<String, NoMemory> {
    let limits = bench.most.limits();
    match bench.devices.take() {
        Some(devices) => taken(alloc, bench, Book::load(alloc, devices, limits)),
        None => text(alloc, "no devices"),
    }
}

pub fn close(alloc: Global, bench: &mut Bench) -> Result<String, NoMemory> {
    let Some(book) = bench.book.take() else {
        return text(alloc, "no store");
    };
    let devices = book.into_devices();
    let (first, second) = (devices.first.calls(), devices.second.calls());
    let blobs = devices.blobs.calls();
    bench.devices = Some(devices);
    Ok(format!(in alloc; "calls {first} {second} {blobs}")?)
}

// A word for each step.
fn step_word(alloc: Global, step: &Step) -> Result<String, NoMemory> {
    match step {
        Step::Loaded { faults, .. } => Ok(format!(in alloc; " loaded:{faults}")?),
        Step::Change(_) => text(alloc, " change"),
        Step::Lease { number, .. } => Ok(format!(in alloc; " lease:{number}")?),
        Step::Unlease { number } => Ok(format!(in alloc; " unlease:{number}")?),
        Step::Broke {
            changed,
            before,
            now,
        } => Ok(format!(in alloc; " broke:{changed}:{before}:{now}")?),
    }
}

fn step_words(alloc: Global, steps: &[Step]) -> Result<String, NoMemory> {
    let mut line = String::from_str(alloc, "steps")?;
    for step in steps {
        line.push_str(step_word(alloc, step)?.as_str())?;
    }
    Ok(line)
}

pub fn parts(alloc: Global, bench: &mut Bench) -> Result<String, NoMemory> {
    let Some(book) = bench.book.take() else {
        return text(alloc, "no store");
    };
    let (devices, steps) = book.into_parts();
    bench.devices = Some(devices);
    step_words(alloc, steps.as_slice())
}

// The bytes of a file, where they can be read.
fn bytes_in(alloc: Global, disk: &mut MemDisk) -> Result<Option<Vec<u8>>, NoMemory> {
    let Ok(len) = disk.len() else {
        return Ok(None);
    };
    let mut bytes = Vec::new(alloc);
    bytes.resize(len as usize, 0)?;
    match disk.read(0, &mut bytes) {
        Ok(()) => Ok(Some(bytes)),
        Err(_) => Ok(None),
    }
}

// The device of this number.
fn device<'a>(devices: &'a mut Devices<MemDisk>, file: &str) -> &'a mut MemDisk {
    match file {
        "0" => &mut devices.first,
        "1" => &mut devices.second,
        _ => &mut devices.blobs,
    }
}

pub fn file(alloc: Global, bench: &mut Bench, rest: &str) -> Result<String, NoMemory> {
    let Some(devices) = &mut bench.devices else {
        return text(alloc, "no devices");
    };
    match bytes_in(alloc, device(devices, rest))? {
        Some(bytes) => with_bytes(alloc, "file", &bytes),
        None => text(alloc, "file failed"),
    }
}

pub fn write(alloc: Global, bench: &mut Bench, rest: &str) -> Result<String, NoMemory> {
    let Some(devices) = &mut bench.devices else {
        return text(alloc, "no devices");
    };
    let (file, rest) = cut(rest);
    let (place, word) = cut(rest);
    let bytes = bytes_of(alloc, word)?;
    match device(devices, file).write_at(number(place), &bytes) {
        Ok(()) => text(alloc, "written"),
        Err(_) => text(alloc, "failed"),
    }
}

pub fn sync(alloc: Global, bench: &mut Bench, rest: &str) -> Result<String, NoMemory> {
    let Some(devices) = &mut bench.devices else {
        return text(alloc, "no devices");
    };
    match device(devices, rest).sync() {
        Ok(()) => text(alloc, "synced"),
        Err(_) => text(alloc, "failed"),
    }
}

// What a store holds on these devices, or why it can't be opened.
fn opened_on(alloc: Global, devices: Devices<MemDisk>, most: &Most) -> Result<String, NoMemory> {
    match Book::load(alloc, devices, most.limits()) {
        Ok(book) => {
            let mut book = book;
            let line = state(alloc, &book)?;
            let count = damaged(alloc, &mut book)?;
            Ok(format!(in alloc; "{}, {count} damaged", line.as_str())?)
        }
        Err((_devices, fault)) => unopened(alloc, fault),
    }
}

// What a crash leaves of a device after its last call.
fn crashed(disk: &MemDisk, choice: &str) -> Result<MemDisk, NoMemory> {
    disk.crashed(disk.calls(), number(choice))
}

pub fn crash(alloc: Global, bench: &mut Bench, rest: &str) -> Result<String, NoMemory> {
    let Some(devices) = &bench.devices else {
        return text(alloc, "no devices");
    };
    let (first, rest) = cut(rest);
    let (second, blobs) = cut(rest);
    let left = Devices {
        first: crashed(&devices.first, first)?,
        second: crashed(&devices.second, second)?,
        blobs: crashed(&devices.blobs, blobs)?,
    };
    opened_on(alloc, left, &bench.most)
}
