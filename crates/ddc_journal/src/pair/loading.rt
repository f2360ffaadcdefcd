//! How a pair is loaded.

ghost use Rattle.std.specs.Prelude.{◌≡◌, ◌⊎◌, ◌≤◌, IfErr, IfOk, OnOk};
ghost use Rattle.ddc_names.specs.Causes.{Rose};
ghost use Rattle.ddc_disk.specs.Images.{devices_faults};
ghost use Rattle.ddc_journal.specs.Faults.{IsKnown};
ghost use Rattle.ddc_journal.specs.Pairs.{pair_kind, IfBoth, IsOpenPair, IsPairReady, LooksOnly, PairFault};
ghost use Rattle.ddc_journal.specs.declared.fault.JournalFault.TheVariants.{DiskFailed};

use super::Pair;
use super::files::{is_second_taken, scan_file, sync_both};
use crate::JournalFault;
use ddc_disk::{Disk, HeldDevices};
use ddc_names::{ByteList, Rows};
use std::alloc::Global;

/// Opens the pair of two files and gives the bodies of the one that is taken: that with an open gate and
/// the greatest generation, and the first where both are equal. It begins with a sync of both, and
/// writes nothing. The versions from 1 to `newest` are known.
///
/// # Errors
///
/// `NotMade`, where no file's gate is open, and `Corrupt` and `BadVersion` exactly by the bytes that the
/// taken file holds, `DiskFailed` where a device failed, and `NoMemory`.
pub fn load<D: Disk>(
    alloc: Global,
    devices: &mut HeldDevices<D>,
    newest: u32,
) -> Result<(Pair, Rows<ByteList>), JournalFault>
    ensures loads { IfOk result (λ r. IfBoth D.meaning devices.old (λ a b. IsOpenPair a b r.0 r.1 × IsKnown (pair_kind newest r.0.second) r.0.version)) }
    ensures ready { IfOk result (λ r. IfBoth D.meaning devices.old (λ _ _. IsPairReady D.meaning devices.new r.0 r.1)) }
    ensures fault { IfErr result (λ fault. ((fault ≡ DiskFailed) × Rose (devices_faults D.meaning devices.old) (devices_faults D.meaning devices.new)) ⊎ IfBoth D.meaning devices.old (λ a b. PairFault newest a b fault)) }
    ensures cause { IfErr result (λ fault. fault ≡ DiskFailed → Rose (devices_faults D.meaning devices.old) (devices_faults D.meaning devices.new)) }
    ensures same { OnOk result (devices_faults D.meaning devices.old ≡ devices_faults D.meaning devices.new) }
    ensures later { devices_faults D.meaning devices.old ≤ devices_faults D.meaning devices.new }
    ensures looks { LooksOnly D.meaning devices.old devices.new }
{
    if sync_both(devices).is_err() {
        return Err(JournalFault::DiskFailed);
    }
    let Ok(second) = is_second_taken(devices) else {
        return Err(JournalFault::DiskFailed);
    };
    let scan = match scan_file(alloc, devices, second, newest) {
        Ok(scan) => scan,
        Err(fault) => return Err(fault),
    };
    let pair = Pair {
        second,
        version: scan.version,
        generation: scan.generation,
        end: scan.end,
    };
    Ok((pair, scan.bodies))
}
