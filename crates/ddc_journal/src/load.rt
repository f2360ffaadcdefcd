//! How a journal is loaded.

ghost use Rattle.std.specs.Prelude.{◌≡◌, ◌⊎◌, ◌≤◌, IfErr, IfOk, IfSome, OnOk};
ghost use Rattle.ddc_names.specs.Causes.{Rose};
ghost use Rattle.ddc_disk.specs.Disk.{EachSince, IsCalm, IsImage};
ghost use Rattle.ddc_journal.specs.Journal.{generation_in, IsReady};
ghost use Rattle.ddc_journal.specs.Faults.{FaultOf, FileFault, LoadsAs};
ghost use Rattle.ddc_journal.specs.inside.Scanning.{IsScan};
ghost use Rattle.ddc_journal.specs.declared.fault.JournalFault.TheVariants.{DiskFailed};

use crate::kind::{FRONT, FileKind, single};
use crate::parse::open_items;
use crate::window::{read_items, read_piece};
use crate::{Journal, JournalFault};
use ddc_disk::Disk;
use ddc_names::{ByteList, Rows};
use std::alloc::Global;

// A journal that was read: what its head names, its bodies, and the place of its closing gate.
#[derive(Drop)]
pub(crate) struct Scan {
    pub(crate) version: u32,
    pub(crate) generation: u64,
    pub(crate) bodies: Rows<ByteList>,
    pub(crate) end: u64,
}

// The journal that a disk holds.
pub(crate) fn scan_disk<D: Disk>(
    alloc: Global,
    disk: &mut D,
    kind: FileKind,
) -> Result<Scan, JournalFault>
    ensures loads { IfOk result (λ scan. IfSome (D.meaning disk.old).held (λ file. IsScan kind file scan.version scan.generation scan.bodies scan.end)) }
    ensures fault { IfErr result (λ fault. ((fault ≡ DiskFailed) × Rose (D.meaning disk.old).faults (D.meaning disk.new).faults) ⊎ IfSome (D.meaning disk.old).held (λ file. FileFault kind file fault)) }
    ensures cause { IfErr result (λ fault. fault ≡ DiskFailed → Rose (D.meaning disk.old).faults (D.meaning disk.new).faults) }
    ensures same { OnOk result ((D.meaning disk.old).faults ≡ (D.meaning disk.new).faults) }
    ensures later { (D.meaning disk.old).faults ≤ (D.meaning disk.new).faults }
    ensures held { (D.meaning disk.new).held ≡ (D.meaning disk.old).held }
    ensures calm { IsCalm (D.meaning disk.old).line (D.meaning disk.new).line }
    ensures past { EachSince (D.meaning disk.old).line (D.meaning disk.new).line (IsImage (D.meaning disk.old).line) }
{
    let Ok(size) = disk.len() else {
        return Err(JournalFault::DiskFailed);
    };
    let front = match read_piece(alloc, disk, 0, size.min(FRONT + 1)) {
        Ok(front) => front,
        Err(fault) => return Err(fault),
    };
    let head = match open_items(&front, kind) {
        Ok(head) => head,
        Err(fault) => return Err(fault),
    };
    match read_items(alloc, disk, size, kind.number) {
        Ok(walk) => Ok(Scan {
            version: head.version,
            generation: head.generation,
            bodies: walk.bodies,
            end: walk.at,
        }),
        Err(fault) => Err(fault),
    }
}

impl Journal {
    /// Opens the journal of a disk and gives the bodies after open gates, in order. It begins with a
    /// sync, and changes nothing.
    ///
    /// # Errors
    ///
    /// `NotMade`, `Corrupt` and `BadVersion` exactly by the bytes that the disk holds, `DiskFailed`
    /// where the disk failed, and `NoMemory` where there is none for a piece of the file or its bodies.
    pub fn load<D: Disk>(
        alloc: Global,
        disk: &mut D,
    ) -> Result<(Journal, Rows<ByteList>), JournalFault>
        ensures loads { IfOk result (λ r. IfSome (D.meaning disk.old).held (λ file. LoadsAs file r.1 r.0)) }
        ensures ready { IfOk result (λ r. IfSome (D.meaning disk.old).held (λ file. IsReady (D.meaning disk.new) (generation_in file) r.1 r.0)) }
        ensures fault { IfErr result (λ fault. ((fault ≡ DiskFailed) × Rose (D.meaning disk.old).faults (D.meaning disk.new).faults) ⊎ IfSome (D.meaning disk.old).held (λ file. FaultOf file fault)) }
        ensures cause { IfErr result (λ fault. fault ≡ DiskFailed → Rose (D.meaning disk.old).faults (D.meaning disk.new).faults) }
        ensures same { OnOk result ((D.meaning disk.old).faults ≡ (D.meaning disk.new).faults) }
        ensures later { (D.meaning disk.old).faults ≤ (D.meaning disk.new).faults }
        ensures held { (D.meaning disk.new).held ≡ (D.meaning disk.old).held }
        ensures past { EachSince (D.meaning disk.old).line (D.meaning disk.new).line (IsImage (D.meaning disk.old).line) }
    {
        if disk.sync().is_err() {
            return Err(JournalFault::DiskFailed);
        }
        match scan_disk(alloc, disk, single()) {
            Ok(scan) => Ok((Journal::at(scan.end), scan.bodies)),
            Err(fault) => Err(fault),
        }
    }
}
