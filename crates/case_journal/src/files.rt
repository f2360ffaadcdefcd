//! Files of given bytes.

use crate::texts::{bytes_of, cut, fault_text, number_of, with_bodies};
use ddc_disk::{Devices, Disk, HeldDevices, MemDisk};
use ddc_journal::{Journal, pair};
use ddc_names::{NoMemory, Rows};
use std::alloc::Global;

pub fn empty_disk(alloc: Global) -> MemDisk {
    MemDisk::new(alloc, Rows::new(alloc))
}

pub fn devices_of(alloc: Global, first: MemDisk, second: MemDisk) -> Devices<MemDisk> {
    Devices {
        first,
        second,
        blobs: empty_disk(alloc),
    }
}

// A disk that holds the bytes of a hexadecimal text.
fn disk_of(alloc: Global, digits: &str) -> Result<MemDisk, NoMemory> {
    let bytes = bytes_of(alloc, digits)?;
    let mut disk = empty_disk(alloc);
    match disk.write_at(0, &bytes) {
        Ok(()) => Ok(disk),
        Err(_) => Err(NoMemory),
    }
}

// `journal` and its bodies, or the fault.
pub fn loaded(alloc: Global, mut disk: MemDisk) -> Result<String, NoMemory> {
    match Journal::load(alloc, &mut disk) {
        Ok((_, bodies)) => with_bodies(String::from_str(alloc, "journal")?, bodies.as_slice()),
        Err(fault) => fault_text(alloc, fault),
    }
}

// The number and the version of the file that is taken, and its bodies, or the fault.
pub fn pair_loaded(
    alloc: Global,
    devices: Devices<MemDisk>,
    newest: u32,
) -> Result<String, NoMemory> {
    let mut held = HeldDevices::new(devices);
    match pair::load(alloc, &mut held, newest) {
        Ok((pair, bodies)) => {
            let (file, version) = (pair.active(), pair.version());
            let text = format!(in alloc; "file {file} version {version}")?;
            with_bodies(text, bodies.as_slice())
        }
        Err(fault) => fault_text(alloc, fault),
    }
}

pub fn load_line(alloc: Global, digits: &str) -> Result<String, NoMemory> {
    let disk = disk_of(alloc, digits)?;
    loaded(alloc, disk)
}

pub fn pair_line(alloc: Global, rest: &str) -> Result<String, NoMemory> {
    let (newest, rest) = cut(rest);
    let (first, second) = cut(rest);
    let newest = (number_of(newest) % 256).max(1) as u32;
    let first = disk_of(alloc, first)?;
    let second = disk_of(alloc, second)?;
    pair_loaded(alloc, devices_of(alloc, first, second), newest)
}
