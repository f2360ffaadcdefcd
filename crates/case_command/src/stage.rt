//! What the lines set.

use crate::texts::{bytes_of, numbers_of, parts_of, push_packed};
use ddc_disk::{Devices, Disk, MemDisk};
use ddc_names::{NoMemory, Rows};
use std::alloc::Global;

/// The most bytes of a device that are printed.
const MOST_SHOWN: u64 = 65_536;

/// The devices, which go on from run to run, and what is set for the next run.
#[derive(Drop)]
pub struct Stage {
    pub devices: Devices<MemDisk>,
    pub input: Vec<u8>,
    pub reads: Vec<u64>,
    pub puts: Vec<u64>,
    pub notes: Vec<u64>,
    pub pieces: u32,
    pub hour: u32,
}

impl Stage {
    /// Devices that hold nothing and don't fail, and the hour 100.
    pub fn new(alloc: Global) -> Stage {
        Stage {
            devices: empty(alloc),
            input: Vec::new(alloc),
            reads: Vec::new(alloc),
            puts: Vec::new(alloc),
            notes: Vec::new(alloc),
            pieces: 0,
            hour: 100,
        }
    }
}

/// Devices that hold nothing and don't fail.
pub fn empty(alloc: Global) -> Devices<MemDisk> {
    Devices {
        first: MemDisk::new(alloc, Rows::new(alloc)),
        second: MemDisk::new(alloc, Rows::new(alloc)),
        blobs: MemDisk::new(alloc, Rows::new(alloc)),
    }
}

// The device of this name.
fn device<'a>(devices: &'a mut Devices<MemDisk>, name: &str) -> &'a mut MemDisk {
    match name {
        "first" => &mut devices.first,
        "second" => &mut devices.second,
        _ => &mut devices.blobs,
    }
}

/// Sets what a line says, and whether it says that.
pub fn set(alloc: Global, stage: &mut Stage, call: &str, rest: &str) -> Result<bool, NoMemory> {
    if change(alloc, &mut stage.devices, call, rest)?
        || lengthen(alloc, &mut stage.input, call, rest)?
    {
        return Ok(true);
    }
    match call {
        "reads" => put_numbers(alloc, &mut stage.reads, rest),
        "puts" => put_numbers(alloc, &mut stage.puts, rest),
        "notes" => put_numbers(alloc, &mut stage.notes, rest),
        _ => Ok(set_number(stage, call, rest)),
    }
}

fn put_numbers(alloc: Global, numbers: &mut Vec<u64>, rest: &str) -> Result<bool, NoMemory> {
    *numbers = numbers_of(alloc, rest)?;
    Ok(true)
}

fn set_number(stage: &mut Stage, call: &str, rest: &str) -> bool {
    let number = rest.parse::<u32>().unwrap_or(0);
    match call {
        "hour" => stage.hour = number,
        "pieces" => stage.pieces = number,
        _ => return false,
    }
    true
}

// Changes the devices as a line says, and whether it says that.
fn change(
    alloc: Global,
    devices: &mut Devices<MemDisk>,
    call: &str,
    rest: &str,
) -> Result<bool, NoMemory> {
    match call {
        "new" => {
            *devices = empty(alloc);
            Ok(true)
        }
        "fails" => fails(alloc, devices, rest),
        "write" => write(alloc, devices, rest),
        "crash" => crash(devices, rest),
        _ => Ok(false),
    }
}

// Changes the input as a line says, and whether it says that.
fn lengthen(alloc: Global, input: &mut Vec<u8>, call: &str, rest: &str) -> Result<bool, NoMemory> {
    match call {
        "ask" => push_request(alloc, input, rest, "", &[]),
        "put" => push_put(alloc, input, rest),
        "repeat" => repeat(alloc, input, rest),
        "cut" => {
            input.truncate(rest.parse::<usize>().unwrap_or(0));
            Ok(true)
        }
        _ => Ok(false),
    }
}

fn push_request(
    alloc: Global,
    input: &mut Vec<u8>,
    line: &str,
    field: &str,
    body: &[u8],
) -> Result<bool, NoMemory> {
    let head = format!(in alloc; "{line} HTTP/1.1\r\n{field}\r\n")?;
    input.extend_from_slice(head.as_bytes())?;
    input.extend_from_slice(body)?;
    Ok(true)
}

fn push_put(alloc: Global, input: &mut Vec<u8>, rest: &str) -> Result<bool, NoMemory> {
    let (target, digits) = parts_of(rest);
    let body = bytes_of(alloc, digits)?;
    let length = body.len();
    let line = format!(in alloc; "PUT {target}")?;
    let field = format!(in alloc; "Content-Length: {length}\r\n")?;
    push_request(alloc, input, line.as_str(), field.as_str(), &body)
}

fn repeat(alloc: Global, input: &mut Vec<u8>, rest: &str) -> Result<bool, NoMemory> {
    let count = rest.parse::<u16>().unwrap_or(0);
    let once = Vec::from_slice(alloc, input)?;
    input.clear();
    for _ in 0..count {
        input.extend_from_slice(&once)?;
    }
    Ok(true)
}

fn fails(alloc: Global, devices: &mut Devices<MemDisk>, rest: &str) -> Result<bool, NoMemory> {
    let (name, numbers) = parts_of(rest);
    let failing = numbers_of(alloc, numbers)?;
    *device(devices, name) = MemDisk::new(alloc, Rows::of_vec(failing));
    Ok(true)
}

fn write(alloc: Global, devices: &mut Devices<MemDisk>, rest: &str) -> Result<bool, NoMemory> {
    let (name, rest) = parts_of(rest);
    let (at, digits) = parts_of(rest);
    let bytes = bytes_of(alloc, digits)?;
    match device(devices, name).write_at(at.parse::<u64>().unwrap_or(0), &bytes) {
        Ok(()) => Ok(true),
        Err(_) => Err(NoMemory),
    }
}

// What a crash leaves of a device after its last call.
fn crashed(disk: &MemDisk, choice: &str) -> Result<MemDisk, NoMemory> {
    disk.crashed(disk.calls(), choice.parse::<u64>().unwrap_or(0))
}

fn crash(devices: &mut Devices<MemDisk>, rest: &str) -> Result<bool, NoMemory> {
    let (first, rest) = parts_of(rest);
    let (second, blobs) = parts_of(rest);
    *devices = Devices {
        first: crashed(&devices.first, first)?,
        second: crashed(&devices.second, second)?,
        blobs: crashed(&devices.blobs, blobs)?,
    };
    Ok(true)
}

/// What a device holds.
pub fn file_line(alloc: Global, stage: &mut Stage, name: &str) -> Result<String, NoMemory> {
    let disk = device(&mut stage.devices, name);
    let mut text = format!(in alloc; "{name} ")?;
    match held(alloc, disk)? {
        Some(bytes) => push_packed(alloc, &mut text, &bytes)?,
        None => text.push_str("failed")?,
    }
    text.push_str("\n")?;
    Ok(text)
}

// What a device holds, or None where its call fails.
fn held(alloc: Global, disk: &mut MemDisk) -> Result<Option<Vec<u8>>, NoMemory> {
    let Ok(length) = disk.len() else {
        return Ok(None);
    };
    let mut bytes = vec![in alloc; 0; length.min(MOST_SHOWN) as usize]?;
    match disk.read(0, &mut bytes) {
        Ok(()) => Ok(Some(bytes)),
        Err(_) => Ok(None),
    }
}

/// How often each device was called.
pub fn calls_line(alloc: Global, stage: &Stage) -> Result<String, NoMemory> {
    let first = stage.devices.first.calls();
    let second = stage.devices.second.calls();
    let blobs = stage.devices.blobs.calls();
    Ok(format!(in alloc; "calls {first} {second} {blobs}\n")?)
}
