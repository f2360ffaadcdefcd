//! Blobs in their extents.

ghost use Rattle.std.specs.Prelude.{◌≡◌, true};
ghost use Rattle.blob_store.specs.Bytes.{LieIn};

use crate::words::{bytes_of, first_extent, first_number, hex_text, number};
use blob_store::{read_piece, write_blob};
use ddc_disk::MemDisk;
use ddc_model::Extent;
use ddc_names::NoMemory;
use io_hash::{Intake, IntakeFault, Whole};
use std::alloc::Global;

// The unit at or below which an extent ends.
const MOST_UNITS: u64 = 2_251_799_813_685_248;

// The most bytes that a line asks for.
const MOST_BYTES: u64 = 65_536;

// Whether so many bytes from the extent's byte on lie in it.
fn lie_in(extent: Extent, at: u64, count: u64) -> bool
    ensures { result ≡ true → LieIn extent at count }
{
    let units = extent.units as u64;
    extent.start <= MOST_UNITS
        && units <= MOST_UNITS - extent.start
        && at <= units * 4096
        && count <= units * 4096 - at
}

fn whole(alloc: Global, bytes: &[u8]) -> Result<Whole, NoMemory> {
    let mut intake = Intake::new(alloc, u64::MAX);
    match intake.take(bytes) {
        Ok(()) => Ok(intake.finish()),
        Err(IntakeFault::NoMemory | IntakeFault::TooLarge { .. }) => Err(NoMemory),
    }
}

// `written`, `failed`, or `not in it`.
pub fn write_line(alloc: Global, disk: &mut MemDisk, words: &str) -> Result<String, NoMemory> {
    let (extent, digits) = first_extent(words);
    let blob = whole(alloc, &bytes_of(alloc, digits)?)?;
    if !lie_in(extent, 0, blob.bytes().len() as u64) {
        return Ok(String::from_str(alloc, "not in it")?);
    }
    Ok(match write_blob(disk, extent, &blob) {
        Ok(()) => String::from_str(alloc, "written")?,
        Err(_) => String::from_str(alloc, "failed")?,
    })
}

// The bytes in hexadecimal, `failed`, or `not in it`.
pub fn read_line(alloc: Global, disk: &mut MemDisk, words: &str) -> Result<String, NoMemory> {
    let (extent, rest) = first_extent(words);
    let (at, rest) = first_number(rest);
    let count = number(Some(rest)).min(MOST_BYTES);
    let mut piece = Vec::new(alloc);
    piece.resize(count as usize, 7u8)?;
    if !lie_in(extent, at, piece.len() as u64) {
        return Ok(String::from_str(alloc, "not in it")?);
    }
    match read_piece(disk, extent, at, &mut piece) {
        Ok(()) => hex_text(alloc, &piece),
        Err(_) => Ok(String::from_str(alloc, "failed")?),
    }
}

// The disk after so many calls and a crash.
pub fn crashed(disk: &MemDisk, words: &str) -> Result<MemDisk, NoMemory> {
    let (calls, rest) = first_number(words);
    disk.crashed(calls, number(Some(rest)))
}
