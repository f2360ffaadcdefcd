//! How a store is made.

ghost use Rattle.std.specs.Prelude.{◌≡◌, ◌≤◌, ◌^◌, [], false, IsTrue, IfErr, IfOk};
ghost use Rattle.ddc_names.specs.Causes.{HasCause, Rose};
ghost use Rattle.ddc_disk.specs.Images.{devices_faults};
ghost use Rattle.ddc_journal.specs.Journal.{front_size};
ghost use Rattle.ddc_journal.specs.Pairs.{IsNewPair};
ghost use Rattle.ddc_model.specs.State.{empty_state};
ghost use Rattle.ddc_opening.specs.Opening.{version};
ghost use Rattle.ddc_opening.specs.Loading.{Creates, IsOpenStore, IsReady};

use crate::load::VERSION;
use crate::sync::sync_blobs;
use crate::{OpenFault, OpenedStore};
use ddc_disk::{Disk, HeldDevices};
use ddc_journal::pair::{self, Pair};
use ddc_model::{Limits, commands_stay_sound};
use ddc_names::Failed;
use ddc_state::Index;
use std::alloc::Global;

// Makes an empty pair of journal files, once the blob file is sure.
fn make_pair<D: Disk>(devices: &mut HeldDevices<D>, limits: Limits) -> Result<Pair, Failed>
    ensures creates { Creates D.meaning devices.old limits devices.new }
    ensures ready { IfOk result (λ pair. IsTrue D.tells → IsReady D.meaning devices.new pair []) }
    ensures fresh { IfOk result (λ _. IsTrue D.tells → IsNewPair D.meaning devices.new version) }
    ensures pair { IfOk result (λ pair. pair ≡ record { second = false; version = version; generation = 1; end = front_size }) }
    ensures cause { HasCause (devices_faults D.meaning devices.old) (devices_faults D.meaning devices.new) result }
{
    commands_stay_sound();
    sync_blobs(devices)?;
    match pair::create(devices, VERSION) {
        Ok(pair) => Ok(pair),
        Err(_) => Err(Failed),
    }
}

/// Makes an empty store on any devices, within these limits. It begins with a sync of each device, that of the blob
/// file first.
///
/// # Errors
///
/// `DiskFailed` alone. The store may then be made or not.
pub fn create_store<D: Disk>(
    alloc: Global,
    devices: &mut HeldDevices<D>,
    limits: Limits,
) -> Result<OpenedStore, OpenFault>
    requires kept { 1 ≤ limits.kept }
    requires units { limits.units ≤ 2 ^ 51 }
    ensures opened { IfOk result (λ store. IsOpenStore D.tells D.meaning devices.new limits store.pair store.index.state store.steps.items) }
    ensures empty { IfOk result (λ store. store.index.state ≡ empty_state limits) }
    ensures no_steps { IfOk result (λ store. store.steps.items ≡ []) }
    ensures fresh { IfOk result (λ _. IsTrue D.tells → IsNewPair D.meaning devices.new version) }
    ensures pair { IfOk result (λ store. store.pair ≡ record { second = false; version = version; generation = 1; end = front_size }) }
    ensures any_moment { Creates D.meaning devices.old limits devices.new }
    ensures fault { IfErr result (λ fault. (fault ≡ OpenFault.DiskFailed) × Rose (devices_faults D.meaning devices.old) (devices_faults D.meaning devices.new)) }
{
    commands_stay_sound();
    match make_pair(devices, limits) {
        Ok(pair) => {
            let index = Index::new(alloc, limits);
            let steps = Vec::new(alloc);
            Ok(OpenedStore { pair, index, steps })
        }
        Err(Failed) => Err(OpenFault::DiskFailed),
    }
}
