//! Each public call once, with values that a reader can work out. The rest are cases of `case_extents`.

ghost use Rattle.std.specs.Prelude.{◌≡◌};

use blob_store::{BlobStore, read_piece, write_blob};
use ddc_disk::{Disk, MemDisk};
use ddc_model::Extent;
use ddc_names::{Failed, NoMemory, Rows};
use io_hash::{Intake, IntakeFault, Whole};
use std::alloc::Global;
use std::test::Fail;
use std::thread::join;

fn extent(start: u64, units: u32) -> Extent
    ensures { result ≡ record { start = start; units = units } }
{
    Extent { start, units }
}

fn claim_if_free(store: &mut BlobStore, extent: Extent) -> Result<bool, NoMemory> {
    if !store.is_free(extent) {
        return Ok(false);
    }
    store.claim(extent)?;
    Ok(true)
}

fn release_if_claimed(store: &mut BlobStore, extent: Extent) -> bool {
    if !store.is_claimed(extent) {
        return false;
    }
    store.release(extent);
    true
}

// Whether a run is found in eight free units, claimed, and released.
fn is_found_again(store: &mut BlobStore) -> Result<bool, NoMemory> {
    let found = store.find_free(4097) == Some(extent(0, 2));
    let claimed = claim_if_free(store, extent(0, 2))? && !claim_if_free(store, extent(1, 1))?;
    let full = store.find_free(24577).is_none();
    let released = release_if_claimed(store, extent(0, 2));
    Ok(found && claimed && full && released && store.find_free(24577) == Some(extent(0, 7)))
}

#[test]
fn the_first_run_that_fits_is_claimed_and_released(rt: HostRuntime) {
    let mut store = BlobStore::new(rt.alloc(), 8);
    assert!(rt; is_found_again(&mut store) == Ok(true));
}

fn whole(alloc: Global, bytes: &[u8]) -> Result<Whole, IntakeFault> {
    let mut intake = Intake::new(alloc, 8);
    intake.take(bytes)?;
    Ok(intake.finish())
}

// The units 1 and 2.
fn write<D: Disk>(disk: &mut D, whole: &Whole) -> Result<(), Failed> {
    if whole.bytes().len() > 8192 {
        return Err(Failed);
    }
    write_blob(disk, extent(1, 2), whole)
}

fn read<D: Disk>(disk: &mut D, at: u64) -> Result<[u8; 2], Failed> {
    let mut piece = [7; 2];
    if at > 8190 {
        return Err(Failed);
    }
    read_piece(disk, extent(1, 2), at, &mut piece)?;
    Ok(piece)
}

// What is read of the blob, once a crash came after so many calls.
fn read_after(disk: &MemDisk, calls: u64) -> Result<[u8; 2], Failed> {
    match disk.crashed(calls, 0) {
        Ok(mut left) => read(&mut left, 0),
        Err(NoMemory) => Err(Failed),
    }
}

#[test]
fn a_blob_is_written_to_its_extent_by_two_calls(rt: HostRuntime) -> Result<(), Fail> {
    let blob = whole(rt.alloc(), b"abc")?;
    let mut disk = MemDisk::new(rt.alloc(), Rows::new(rt.alloc()));
    assert_eq!(rt; write(&mut disk, &blob), Ok(()));
    assert_eq!(rt; disk.calls(), 2);
    assert_eq!(rt; read(&mut disk, 1), Ok(*b"bc"));
    assert_eq!(rt;
        (read_after(&disk, 1), read_after(&disk, 2)),
        (Ok([0; 2]), Ok(*b"ab"))
    );
    Ok(())
}

// A store goes from thread to thread.
#[test]
fn a_store_is_made_in_another_thread(rt: HostRuntime) {
    let alloc = rt.alloc();
    let (front, back) = join(
        &rt,
        || BlobStore::new(alloc, 1),
        || BlobStore::new(alloc, 2),
    );
    assert_eq!(rt;
        (front.find_free(8192), back.find_free(8192)),
        (None, Some(extent(0, 2)))
    );
}
