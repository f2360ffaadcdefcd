//! The items of a file, read a piece at a time.

ghost use Rattle.std.specs.Prelude.{◌≡◌, ◌⊎◌, ◌<◌, ◌≤◌, ◌+◌, length, take, drop, IfErr, IfOk, IfSome, OnOk};
ghost use Rattle.ddc_journal.specs.inside.Reads.{FailsBy, IsOnlyRead};
ghost use Rattle.ddc_journal.specs.inside.Scanning.{EndsAt, GoesOn, IsReadTo, ItemFault, NeedsAt, StopsAt};
ghost use Rattle.ddc_journal.specs.declared.fault.JournalFault.TheVariants.{DiskFailed, NoMemory};

use crate::JournalFault;
use crate::kind::{FRONT, ITEM_HEAD, LEAST_ITEM};
use crate::parse::{Stop, take_items};
use ddc_disk::Disk;
use ddc_names::{ByteList, Rows};
use std::alloc::Global;

// How many bytes are read at once, but for a body that is longer.
const WINDOW: u64 = 65_536;

// How far a load has come: the bodies so far, and the place of the gate after their items.
#[derive(Drop)]
pub(crate) struct Walk {
    pub(crate) bodies: Rows<ByteList>,
    pub(crate) at: u64,
}

// The bytes of a file from a place on.
pub(crate) fn read_piece<D: Disk>(
    alloc: Global,
    disk: &mut D,
    at: u64,
    size: u64,
) -> Result<Vec<u8>, JournalFault>
    ensures bytes { IfOk result (λ bytes. IfSome (D.meaning disk.old).held (λ file. at + size ≤ length file → bytes.items ≡ take size (drop at file))) }
    ensures size { IfOk result (λ bytes. length bytes.items ≡ size) }
    ensures fault { IfErr result (λ fault. (fault ≡ DiskFailed) ⊎ (fault ≡ NoMemory)) }
    ensures cause { FailsBy (D.meaning disk.old).faults (D.meaning disk.new).faults result }
    ensures only { IsOnlyRead (D.meaning disk.old) (D.meaning disk.new) }
{
    let mut bytes = Vec::new(alloc);
    if bytes.resize(size as usize, 0).is_err() {
        return Err(JournalFault::NoMemory);
    }
    if disk.read(at, &mut bytes).is_err() {
        return Err(JournalFault::DiskFailed);
    }
    Ok(bytes)
}

// Reads a window of a file of this size, and adds the bodies of its whole items.
fn read_window<D: Disk>(
    alloc: Global,
    disk: &mut D,
    size: u64,
    walk: &mut Walk,
) -> Result<Stop, JournalFault>
    requires { walk.old.at < size }
    ensures inside { IfOk result (λ _. walk.new.at < size) }
    ensures goes { IfOk result (λ stop. (walk.old.at ≤ walk.new.at) × GoesOn stop size walk.old.at walk.new.at) }
    ensures reads { IfOk result (λ stop. IfSome (D.meaning disk.old).held (λ file. size ≡ length file → IsReadTo walk.old.bodies walk.old.at file
        → IsReadTo walk.new.bodies walk.new.at file × StopsAt stop (drop walk.new.at file))) }
    ensures fault { IfErr result (λ fault. (fault ≡ DiskFailed) ⊎ (fault ≡ NoMemory)) }
    ensures cause { FailsBy (D.meaning disk.old).faults (D.meaning disk.new).faults result }
    ensures only { IsOnlyRead (D.meaning disk.old) (D.meaning disk.new) }
{
    let piece = match read_piece(alloc, disk, walk.at, (size - walk.at).min(WINDOW)) {
        Ok(piece) => piece,
        Err(fault) => return Err(fault),
    };
    let Ok((count, stop)) = take_items(alloc, &piece, &mut walk.bodies) else {
        return Err(JournalFault::NoMemory);
    };
    walk.at += count as u64;
    Ok(stop)
}

// Passes an item that isn't whole in its window and needs so many bytes: where the file doesn't have
// them it is corrupt, an item that is longer than a window is read by itself, and any other one is left
// to the next window.
fn pass_item<D: Disk>(
    alloc: Global,
    disk: &mut D,
    size: u64,
    number: u8,
    walk: &mut Walk,
    need: u64,
) -> Result<(), JournalFault>
    requires { walk.old.at < size }
    ensures inside { OnOk result (walk.new.at < size) }
    ensures goes { OnOk result ((walk.old.at + need ≤ size) × (walk.old.at ≤ walk.new.at) × (65536 < need → walk.old.at < walk.new.at)) }
    ensures reads { OnOk result (IfSome (D.meaning disk.old).held (λ file. size ≡ length file → IsReadTo walk.old.bodies walk.old.at file → NeedsAt need (drop walk.old.at file)
        → IsReadTo walk.new.bodies walk.new.at file)) }
    ensures fault { IfErr result (λ fault. (fault ≡ DiskFailed) ⊎ IfSome (D.meaning disk.old).held (λ file. size ≡ length file → IsReadTo walk.old.bodies walk.old.at file → NeedsAt need (drop walk.old.at file)
        → ItemFault number (drop 21 file) fault)) }
    ensures cause { FailsBy (D.meaning disk.old).faults (D.meaning disk.new).faults result }
    ensures only { IsOnlyRead (D.meaning disk.old) (D.meaning disk.new) }
{
    let at = walk.at;
    if size - at < need {
        return Err(JournalFault::Corrupt { file: number, at });
    }
    if need <= WINDOW {
        return Ok(());
    }
    let body = match read_piece(alloc, disk, at + ITEM_HEAD, need - LEAST_ITEM) {
        Ok(body) => body,
        Err(fault) => return Err(fault),
    };
    if walk.bodies.push(Rows::of_vec(body)).is_err() {
        return Err(JournalFault::NoMemory);
    }
    walk.at += need - 1;
    Ok(())
}

// The bodies of a file of this size, and the place of its closing gate.
pub(crate) fn read_items<D: Disk>(
    alloc: Global,
    disk: &mut D,
    size: u64,
    number: u8,
) -> Result<Walk, JournalFault>
    requires { 21 < size }
    ensures ends { IfOk result (λ walk. IfSome (D.meaning disk.old).held (λ file. size ≡ length file → EndsAt walk.bodies walk.at (drop 21 file))) }
    ensures fault { IfErr result (λ fault. (fault ≡ DiskFailed) ⊎ IfSome (D.meaning disk.old).held (λ file. size ≡ length file → ItemFault number (drop 21 file) fault)) }
    ensures cause { FailsBy (D.meaning disk.old).faults (D.meaning disk.new).faults result }
    ensures only { IsOnlyRead (D.meaning disk.old) (D.meaning disk.new) }
{
    let mut walk = Walk {
        bodies: Rows::new(alloc),
        at: FRONT,
    };
    'windows: loop {
        match read_window(alloc, disk, size, &mut walk) {
            Ok(Stop::Closed) => return Ok(walk),
            Ok(Stop::Lacks(need)) => {
                match pass_item(alloc, disk, size, number, &mut walk, need) {
                    Ok(()) => {}
                    Err(fault) => return Err(fault),
                }
            }
            Err(fault) => return Err(fault),
        }
    }
}
