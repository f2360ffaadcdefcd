//! Claims.

use crate::words::{first_extent, number};
use blob_store::BlobStore;
use ddc_model::MOST_BLOB_BYTES;
use ddc_names::NoMemory;
use std::alloc::Global;

// The most units of a file.
const MOST_UNITS: u64 = 2_251_799_813_685_248;

// A file of so many units.
pub fn new_store(alloc: Global, words: &str) -> BlobStore {
    BlobStore::new(alloc, number(Some(words)).min(MOST_UNITS))
}

// The first free run, or `none`.
pub fn find_line(alloc: Global, store: &BlobStore, words: &str) -> Result<String, NoMemory> {
    let len = number(Some(words));
    if len > MOST_BLOB_BYTES {
        return Ok(String::from_str(alloc, "too long")?);
    }
    match store.find_free(len) {
        Some(run) => Ok(format!(in alloc; "{} {}", run.start, run.units)?),
        None => Ok(String::from_str(alloc, "none")?),
    }
}

fn word(alloc: Global, yes: bool) -> Result<String, NoMemory> {
    Ok(String::from_str(alloc, if yes { "yes" } else { "no" })?)
}

pub fn free_line(alloc: Global, store: &BlobStore, words: &str) -> Result<String, NoMemory> {
    word(alloc, store.is_free(first_extent(words).0))
}

pub fn claimed_line(alloc: Global, store: &BlobStore, words: &str) -> Result<String, NoMemory> {
    word(alloc, store.is_claimed(first_extent(words).0))
}

// Claims a free extent.
pub fn claim_line(alloc: Global, store: &mut BlobStore, words: &str) -> Result<String, NoMemory> {
    let (extent, _) = first_extent(words);
    if !store.is_free(extent) {
        return Ok(String::from_str(alloc, "not free")?);
    }
    store.claim(extent)?;
    Ok(String::from_str(alloc, "claimed")?)
}

// Releases a claimed extent.
pub fn release_line(alloc: Global, store: &mut BlobStore, words: &str) -> Result<String, NoMemory> {
    let (extent, _) = first_extent(words);
    if !store.is_claimed(extent) {
        return Ok(String::from_str(alloc, "not claimed")?);
    }
    store.release(extent);
    Ok(String::from_str(alloc, "released")?)
}
