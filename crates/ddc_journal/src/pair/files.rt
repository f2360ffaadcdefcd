//! What is done to one of the two files, or to both.

ghost use Rattle.std.specs.Prelude.{◌≡◌, ◌⊎◌, ◌++◌, ◌∷◌, ◌+◌, ◌<◌, ◌≤◌, ◌^◌, [], ℕ, List, true, false, length, IfErr, IfOk, IfSome, OnOk};
ghost use Rattle.ddc_names.specs.Causes.{HasCause, Rose};
ghost use Rattle.ddc_disk.specs.Disk.{EachSince, IsCalm, IsImage, IsSure};
ghost use Rattle.ddc_disk.specs.Images.{devices_faults, devices_line};
ghost use Rattle.ddc_journal.specs.Journal.{framed, journal_bytes, rank, IsEither, StandsAs};
ghost use Rattle.ddc_journal.specs.Faults.{FileFault};
ghost use Rattle.ddc_journal.specs.Pairs.{pair_kind, takes_second, IfBoth, LooksOnly};
ghost use Rattle.ddc_journal.specs.inside.Closing.{AreItems, IsClosed, IsRemade, IsSureOf};
ghost use Rattle.ddc_journal.specs.inside.Scanning.{IsScan};
ghost use Rattle.ddc_journal.specs.inside.PairFiles.{device_of, other_of, OneChanges};
ghost use Rattle.ddc_journal.specs.declared.fault.JournalFault.TheVariants.{DiskFailed};

use crate::JournalFault;
use crate::create::{close, remake};
use crate::journal::append_at;
use crate::kind::{FRONT, FileKind};
use crate::load::{Scan, scan_disk};
use crate::parse::rank_in;
use ddc_disk::{Disk, HeldDevices};
use ddc_names::Failed;
use std::alloc::Global;

// The versions of a pair's files begin with this one.
const OLDEST: u32 = 1;

// Makes sure of both files.
pub(super) fn sync_both<D: Disk>(devices: &mut HeldDevices<D>) -> Result<(), Failed>
    ensures looks { LooksOnly D.meaning devices.old devices.new }
    ensures sure { OnOk result (IfBoth D.meaning devices.old (λ first second. IsSure (D.meaning devices.new.first) first × IsSure (D.meaning devices.new.second) second)) }
    ensures cause { HasCause (devices_faults D.meaning devices.old) (devices_faults D.meaning devices.new) result }
{
    devices.first().sync()?;
    devices.second().sync()
}

// The generation that a file names, where its gate is open, and else 0.
fn rank_of<D: Disk>(disk: &mut D) -> Result<u64, Failed>
    ensures value { IfOk result (λ number. IfSome (D.meaning disk.old).held (λ file. number ≡ rank file)) }
    ensures held { (D.meaning disk.new).held ≡ (D.meaning disk.old).held }
    ensures calm { IsCalm (D.meaning disk.old).line (D.meaning disk.new).line }
    ensures past { EachSince (D.meaning disk.old).line (D.meaning disk.new).line (IsImage (D.meaning disk.old).line) }
    ensures cause { HasCause (D.meaning disk.old).faults (D.meaning disk.new).faults result }
{
    let mut front = [0; FRONT as usize];
    disk.read(0, &mut front)?;
    Ok(rank_in(&front))
}

// Whether the second file is the one that a load takes.
pub(super) fn is_second_taken<D: Disk>(devices: &mut HeldDevices<D>) -> Result<bool, Failed>
    ensures value { IfOk result (λ second. IfBoth D.meaning devices.old (λ a b. second ≡ takes_second a b)) }
    ensures looks { LooksOnly D.meaning devices.old devices.new }
    ensures cause { HasCause (devices_faults D.meaning devices.old) (devices_faults D.meaning devices.new) result }
{
    let first = rank_of(devices.first())?;
    let second = rank_of(devices.second())?;
    Ok(first < second)
}

// The journal of one of the two files.
pub(super) fn scan_file<D: Disk>(
    alloc: Global,
    devices: &mut HeldDevices<D>,
    second: bool,
    newest: u32,
) -> Result<Scan, JournalFault>
    ensures loads { IfOk result (λ scan. IfSome (D.meaning (device_of second devices.old)).held (λ file. IsScan (pair_kind newest second) file scan.version scan.generation scan.bodies scan.end)) }
    ensures fault { IfErr result (λ fault. ((fault ≡ DiskFailed) × Rose (devices_faults D.meaning devices.old) (devices_faults D.meaning devices.new)) ⊎ IfSome (D.meaning (device_of second devices.old)).held (λ file. FileFault (pair_kind newest second) file fault)) }
    ensures cause { IfErr result (λ fault. fault ≡ DiskFailed → Rose (devices_faults D.meaning devices.old) (devices_faults D.meaning devices.new)) }
    ensures same { OnOk result (devices_faults D.meaning devices.old ≡ devices_faults D.meaning devices.new) }
    ensures later { devices_faults D.meaning devices.old ≤ devices_faults D.meaning devices.new }
    ensures looks { LooksOnly D.meaning devices.old devices.new }
{
    let kind = FileKind {
        number: second as u8,
        least: OLDEST,
        most: newest,
    };
    if second {
        match scan_disk(alloc, devices.second(), kind) {
            Ok(scan) => Ok(scan),
            Err(fault) => Err(fault),
        }
    } else {
        match scan_disk(alloc, devices.first(), kind) {
            Ok(scan) => Ok(scan),
            Err(fault) => Err(fault),
        }
    }
}

// Appends an item to one of the two files.
pub(super) fn append_to<D: Disk>(
    devices: &mut HeldDevices<D>,
    second: bool,
    gate: u64,
    bytes: &[u8],
) -> Result<(), Failed>
    ensures any_moment { (version generation : ℕ) (bodies : List (List ℕ)) (body other : List ℕ) → bytes.now ≡ framed body ++ 0 ∷ [] → length body < 2 ^ 32
        → StandsAs (D.meaning (device_of second devices.old)) version generation bodies gate → IsSure (D.meaning (other_of second devices.old)) other
        → EachSince (devices_line D.meaning devices.old) (devices_line D.meaning devices.new) (OneChanges second (IsEither version generation bodies body) other) }
    ensures ready { OnOk result ((version generation : ℕ) (bodies : List (List ℕ)) (body : List ℕ) → bytes.now ≡ framed body ++ 0 ∷ [] → length body < 2 ^ 32
        → StandsAs (D.meaning (device_of second devices.old)) version generation bodies gate
        → IsSureOf (D.meaning (device_of second devices.new)) version generation (bodies ++ body ∷ []) × (gate + length bytes.now ≡ length (journal_bytes version generation (bodies ++ body ∷ [])))) }
    ensures other { other_of second devices.new ≡ other_of second devices.old }
    ensures blobs { devices.new.blobs ≡ devices.old.blobs }
    ensures past { EachSince (devices_line D.meaning devices.old) (devices_line D.meaning devices.new) (λ _. Unit {0}) }
    ensures fits { OnOk result (gate + length bytes.now < 2 ^ 64) }
    ensures cause { HasCause (devices_faults D.meaning devices.old) (devices_faults D.meaning devices.new) result }
{
    if second {
        append_at(devices.second(), gate, bytes)?;
    } else {
        append_at(devices.first(), gate, bytes)?;
    }
    Ok(())
}

// Makes a journal of these items in one of the two files.
pub(super) fn remake_file<D: Disk>(
    devices: &mut HeldDevices<D>,
    second: bool,
    version: u32,
    generation: u64,
    items: &[u8],
) -> Result<(), Failed>
    ensures any_moment { (file other : List ℕ) (bodies : List (List ℕ)) → IsSure (D.meaning (device_of second devices.old)) file → IsSure (D.meaning (other_of second devices.old)) other → AreItems generation bodies items.now
        → EachSince (devices_line D.meaning devices.old) (devices_line D.meaning devices.new) (OneChanges second (IsRemade version generation bodies file) other) }
    ensures made { OnOk result ((file : List ℕ) (bodies : List (List ℕ)) → IsSure (D.meaning (device_of second devices.old)) file → AreItems generation bodies items.now → IsSureOf (D.meaning (device_of second devices.new)) version generation bodies) }
    ensures other { other_of second devices.new ≡ other_of second devices.old }
    ensures blobs { devices.new.blobs ≡ devices.old.blobs }
    ensures past { EachSince (devices_line D.meaning devices.old) (devices_line D.meaning devices.new) (λ _. Unit {0}) }
    ensures cause { HasCause (devices_faults D.meaning devices.old) (devices_faults D.meaning devices.new) result }
{
    if second {
        remake(devices.second(), version, generation, items)?;
    } else {
        remake(devices.first(), version, generation, items)?;
    }
    Ok(())
}

// Closes the second file.
pub(super) fn close_second<D: Disk>(devices: &mut HeldDevices<D>) -> Result<(), Failed>
    ensures any_moment { (first second : List ℕ) → IsSure (D.meaning devices.old.first) first → IsSure (D.meaning devices.old.second) second
        → EachSince (devices_line D.meaning devices.old) (devices_line D.meaning devices.new) (OneChanges true (λ image. rank image ≤ rank second) first) }
    ensures closed { OnOk result ((second : List ℕ) → IsSure (D.meaning devices.old.second) second → IsClosed (D.meaning devices.new.second)) }
    ensures first { devices.new.first ≡ devices.old.first }
    ensures blobs { devices.new.blobs ≡ devices.old.blobs }
    ensures past { EachSince (devices_line D.meaning devices.old) (devices_line D.meaning devices.new) (λ _. Unit {0}) }
    ensures cause { HasCause (devices_faults D.meaning devices.old) (devices_faults D.meaning devices.new) result }
{
    close(devices.second())?;
    Ok(())
}
