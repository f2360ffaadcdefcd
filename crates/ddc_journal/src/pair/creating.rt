//! How an empty pair is made.

ghost use Rattle.std.specs.Prelude.{◌≡◌, ◌⊎◌, ◌≤◌, [], false, IfErr, IfOk, OnOk};
ghost use Rattle.ddc_names.specs.Causes.{HasCause};
ghost use Rattle.ddc_disk.specs.Disk.{EachSince, IsImage};
ghost use Rattle.ddc_disk.specs.Images.{devices_faults, devices_line};
ghost use Rattle.ddc_journal.specs.Journal.{front_size};
ghost use Rattle.ddc_journal.specs.Pairs.{IfBoth, IsNewPair, IsPairOf, IsPairReady, NoneMade};
ghost use Rattle.ddc_journal.specs.inside.PairFiles.{created};
ghost use Rattle.ddc_journal.specs.declared.fault.JournalFault.TheVariants.{DiskFailed};

use super::Pair;
use super::files::{close_second, remake_file, sync_both};
use crate::JournalFault;
use crate::kind::FRONT;
use ddc_disk::{Disk, HeldDevices};
use ddc_names::Failed;

// The generation of a pair's first journal.
const FIRST: u64 = 1;

// Closes the second file, and makes an empty journal in the first.
fn make<D: Disk>(devices: &mut HeldDevices<D>, version: u32) -> Result<(), Failed>
    ensures any_moment { IfBoth D.meaning devices.old (λ a b. NoneMade a b → EachSince (devices_line D.meaning devices.old) (devices_line D.meaning devices.new) (λ im. IsImage (devices_line D.meaning devices.old) im ⊎ (NoneMade im.first im.second ⊎ IsPairOf version [] im.first im.second))) }
    ensures ready { OnOk result (IfBoth D.meaning devices.old (λ _ _. IsPairReady D.meaning devices.new (created version) [])) }
    ensures fresh { OnOk result (IfBoth D.meaning devices.old (λ _ _. IsNewPair D.meaning devices.new version)) }
    ensures past { EachSince (devices_line D.meaning devices.old) (devices_line D.meaning devices.new) (λ _. Unit {0}) }
    ensures blobs { devices.new.blobs ≡ devices.old.blobs }
    ensures cause { HasCause (devices_faults D.meaning devices.old) (devices_faults D.meaning devices.new) result }
{
    sync_both(devices)?;
    close_second(devices)?;
    remake_file(devices, false, version, FIRST, &[0])?;
    Ok(())
}

/// Makes an empty pair over whatever the two files held: it syncs both, closes the second, and makes a
/// journal of the generation 1 in the first. The version is at least 1. The second file isn't made then,
/// whatever it held.
///
/// # Errors
///
/// `DiskFailed` alone. Neither file may then be made, or the pair be empty.
pub fn create<D: Disk>(devices: &mut HeldDevices<D>, version: u32) -> Result<Pair, JournalFault>
    requires { 1 ≤ version }
    ensures any_moment { IfBoth D.meaning devices.old (λ a b. NoneMade a b → EachSince (devices_line D.meaning devices.old) (devices_line D.meaning devices.new) (λ im. IsImage (devices_line D.meaning devices.old) im ⊎ (NoneMade im.first im.second ⊎ IsPairOf version [] im.first im.second))) }
    ensures ready { IfOk result (λ pair. IfBoth D.meaning devices.old (λ _ _. IsPairReady D.meaning devices.new pair [])) }
    ensures fresh { OnOk result (IfBoth D.meaning devices.old (λ _ _. IsNewPair D.meaning devices.new version)) }
    ensures pair { IfOk result (λ pair. pair ≡ record { second = false; version = version; generation = 1; end = front_size }) }
    ensures past { EachSince (devices_line D.meaning devices.old) (devices_line D.meaning devices.new) (λ _. Unit {0}) }
    ensures blobs { devices.new.blobs ≡ devices.old.blobs }
    ensures failed { IfErr result (λ fault. fault ≡ DiskFailed) }
    ensures cause { HasCause (devices_faults D.meaning devices.old) (devices_faults D.meaning devices.new) result }
{
    if make(devices, version).is_err() {
        return Err(JournalFault::DiskFailed);
    }
    Ok(Pair {
        second: false,
        version,
        generation: FIRST,
        end: FRONT,
    })
}
