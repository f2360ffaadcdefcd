//! How a store is opened.

ghost use Rattle.std.specs.Prelude.{◌≡◌, ◌⊎◌, ◌≤◌, ◌^◌, ℕ, List, IsTrue, IfErr, IfOk};
ghost use Rattle.ddc_names.specs.Causes.{Rose};
ghost use Rattle.ddc_disk.specs.Disk.{IsSure};
ghost use Rattle.ddc_disk.specs.Images.{devices_faults};
ghost use Rattle.ddc_journal.specs.Faults.{IsKnown};
ghost use Rattle.ddc_journal.specs.Pairs.{pair_kind, IfBoth, IsOpenPair, IsPairReady, PairFault};
ghost use Rattle.ddc_opening.specs.Loading.{AsBefore, HeldSteps, IsOpenStore};
ghost use Rattle.ddc_opening.specs.Opening.{version, OpenFaultOf};
ghost use Rattle.ddc_opening.specs.inside.Replaying.{of_journal};

use crate::OpenFault;
use crate::replay::{Replayed, replay};
use crate::sync::sync_blobs;
use ddc_disk::{Disk, HeldDevices};
use ddc_journal::JournalFault;
use ddc_journal::pair::{self, Pair};
use ddc_model::{Limits, Step};
use ddc_names::{ByteList, Rows};
use ddc_state::Index;
use std::alloc::Global;

// The version of a store's journal files.
pub(crate) const VERSION: u32 = 1;

/// A store that was made or opened: its journal, its index, and the changes that led there.
#[derive(Drop)]
pub struct OpenedStore {
    pub pair: Pair,
    pub index: Index,
    pub steps: Vec<Step>,
}

fn fault_of(fault: JournalFault) -> OpenFault
    ensures { result ≡ of_journal fault }
{
    match fault {
        JournalFault::DiskFailed => OpenFault::DiskFailed,
        JournalFault::NotMade => OpenFault::NotMade,
        JournalFault::Corrupt { file, at } => OpenFault::Corrupt { file, at },
        JournalFault::BadVersion { found } => OpenFault::BadVersion { found },
        JournalFault::NoMemory => OpenFault::NoMemory,
    }
}

// The journal and its bodies, once each device is sure.
fn read_pair<D: Disk>(
    alloc: Global,
    devices: &mut HeldDevices<D>,
) -> Result<(Pair, Rows<ByteList>), JournalFault>
    ensures as_before { AsBefore D.meaning devices.old devices.new }
    ensures loads { IfOk result (λ r. IfBoth D.meaning devices.old (λ a b. IsOpenPair a b r.0 r.1 × IsKnown (pair_kind version r.0.second) r.0.version)) }
    ensures ready { IfOk result (λ r. IsTrue D.tells → IsPairReady D.meaning devices.new r.0 r.1 × ((file : List ℕ) × IsSure (D.meaning devices.new.blobs) file)) }
    ensures fault { IfErr result (λ fault. ((fault ≡ JournalFault.DiskFailed) × Rose (devices_faults D.meaning devices.old) (devices_faults D.meaning devices.new)) ⊎ IfBoth D.meaning devices.old (λ a b. PairFault version a b fault)) }
    ensures cause { IfErr result (λ fault. fault ≡ JournalFault.DiskFailed → Rose (devices_faults D.meaning devices.old) (devices_faults D.meaning devices.new)) }
{
    if sync_blobs(devices).is_err() {
        return Err(JournalFault::DiskFailed);
    }
    pair::load(alloc, devices, VERSION)
}

/// Opens the store of these devices, within these limits. It begins with a sync of each device, that of the blob file
/// first, and writes nothing. Of the blob file it reads nothing.
///
/// # Errors
///
/// `NotMade`, `Corrupt`, `BadVersion` and `Unsound` exactly by what the two journal files hold, `DiskFailed` where a
/// device failed, and `NoMemory`.
pub fn load_store<D: Disk>(
    alloc: Global,
    devices: &mut HeldDevices<D>,
    limits: Limits,
) -> Result<OpenedStore, OpenFault>
    requires kept { 1 ≤ limits.kept }
    requires units { limits.units ≤ 2 ^ 51 }
    ensures opened { IfOk result (λ store. IsOpenStore D.tells D.meaning devices.new limits store.pair store.index.state store.steps.items) }
    ensures held { IfOk result (λ store. HeldSteps D.meaning devices.old limits store.index.state store.steps.items) }
    ensures fault { IfErr result (λ fault. ((fault ≡ OpenFault.DiskFailed) × Rose (devices_faults D.meaning devices.old) (devices_faults D.meaning devices.new)) ⊎ IfBoth D.meaning devices.old (λ a b. OpenFaultOf limits a b fault)) }
    ensures cause { IfErr result (λ fault. fault ≡ OpenFault.DiskFailed → Rose (devices_faults D.meaning devices.old) (devices_faults D.meaning devices.new)) }
    ensures back { AsBefore D.meaning devices.old devices.new }
{
    let (pair, bodies) = match read_pair(alloc, devices) {
        Ok(found) => found,
        Err(fault) => return Err(fault_of(fault)),
    };
    match replay(alloc, limits, bodies, pair.active()) {
        Ok(Replayed { index, steps }) => Ok(OpenedStore { pair, index, steps }),
        Err(fault) => Err(fault),
    }
}
