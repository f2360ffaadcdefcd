//! How a pair's bodies are written anew, into the file that isn't active.

ghost use Rattle.std.specs.Prelude.{◌≡◌, ◌⊎◌, ◌++◌, ◌∷◌, ◌+◌, ◌-◌, ◌<◌, ◌≤◌, ◌^◌, [], ℕ, List, not, length, Ok, Err, IfErr, IfOk, OnErr, OnOk};
ghost use Rattle.ddc_names.specs.Causes.{Rose};
ghost use Rattle.ddc_disk.specs.Disk.{EachSince};
ghost use Rattle.ddc_disk.specs.Images.{devices_faults, devices_line};
ghost use Rattle.ddc_journal.specs.Journal.{framed, items, journal_bytes, AreSized};
ghost use Rattle.ddc_journal.specs.Pairs.{IsPairOf, IsPairReady};
ghost use Rattle.ddc_journal.specs.declared.fault.JournalFault.TheVariants.{DiskFailed, NoMemory};

use super::Pair;
use super::files::remake_file;
use crate::JournalFault;
use crate::kind::GATE;
use ddc_disk::{Disk, HeldDevices};
use ddc_names::{ByteList, Rows};
use std::alloc::{AllocError, Global};

// Adds an item with an open gate.
fn push_item(bytes: &mut Vec<u8>, body: &[u8]) -> Result<(), AllocError>
    requires { length body.now < 2 ^ 32 }
    ensures { OnOk result (bytes.new.items ≡ bytes.old.items ++ 1 ∷ framed body.now) }
{
    bytes.push(1)?;
    bytes.extend_from_slice(&(body.len() as u32).to_le_bytes())?;
    bytes.extend_from_slice(body)?;
    Ok(())
}

// Items with open gates, and a closed one after them.
fn items_of(alloc: Global, bodies: &[ByteList]) -> Result<Vec<u8>, AllocError>
    requires { AreSized bodies.now }
    ensures { IfOk result (λ bytes. bytes.items ≡ items bodies.now ++ 0 ∷ []) }
{
    let mut bytes = Vec::new(alloc);
    let mut rest = bodies;
    while let [body, later @ ..] = rest {
        push_item(&mut bytes, body.as_slice())?;
        rest = later;
    }
    bytes.push(0)?;
    Ok(bytes)
}

impl Pair {
    /// Writes these bodies as a journal of this version, which is at least 1, and of the next generation
    /// into the file that isn't active, and makes that file the active one. Each body has fewer than 2^32
    /// bytes. At the last generation it writes nothing.
    ///
    /// # Errors
    ///
    /// `NoMemory`, before any call of a device, and the pair goes on as before. `DiskFailed`: a crash may
    /// then leave the old bodies or the new ones, so load the pair before it is used again.
    pub fn checkpoint<D: Disk>(
        &mut self,
        alloc: Global,
        devices: &mut HeldDevices<D>,
        bodies: &Rows<ByteList>,
        version: u32,
    ) -> Result<(), JournalFault>
        requires sized { AreSized bodies.now }
        requires version { 1 ≤ version }
        ensures any_moment { (olds : List (List ℕ)) → IsPairReady D.meaning devices.old self.old olds
            → EachSince (devices_line D.meaning devices.old) (devices_line D.meaning devices.new) (λ im. IsPairOf self.old.version olds im.first im.second ⊎ IsPairOf version bodies.now im.first im.second) }
        ensures ready { OnOk result ((olds : List (List ℕ)) → IsPairReady D.meaning devices.old self.old olds → self.old.generation < 2 ^ 64 - 1 → IsPairReady D.meaning devices.new self.new bodies.now) }
        ensures turned { OnOk result (self.old.generation < 2 ^ 64 - 1 → self.new ≡ record { second = not self.old.second; version = version; generation = self.old.generation + 1; end = length (journal_bytes version (self.old.generation + 1) bodies.now) }) }
        ensures last { self.old.generation ≡ 2 ^ 64 - 1 → (result ≡ Ok tt) × (self.new ≡ self.old) × (devices.new ≡ devices.old) }
        ensures kept { OnErr result (self.new ≡ self.old) }
        ensures no_memory { result ≡ Err NoMemory → devices.new ≡ devices.old }
        ensures past { EachSince (devices_line D.meaning devices.old) (devices_line D.meaning devices.new) (λ _. Unit {0}) }
        ensures blobs { devices.new.blobs ≡ devices.old.blobs }
        ensures failed { IfErr result (λ fault. ((fault ≡ DiskFailed) × Rose (devices_faults D.meaning devices.old) (devices_faults D.meaning devices.new)) ⊎ (fault ≡ NoMemory)) }
        ensures same { OnOk result (devices_faults D.meaning devices.old ≡ devices_faults D.meaning devices.new) }
        ensures later { devices_faults D.meaning devices.old ≤ devices_faults D.meaning devices.new }
    {
        if self.generation == u64::MAX {
            return Ok(());
        }
        let Ok(items) = items_of(alloc, bodies.as_slice()) else {
            return Err(JournalFault::NoMemory);
        };
        let second = !self.second;
        let generation = self.generation + 1;
        if remake_file(devices, second, version, generation, &items).is_err() {
            return Err(JournalFault::DiskFailed);
        }
        self.second = second;
        self.version = version;
        self.generation = generation;
        self.end = GATE + items.len() as u64;
        Ok(())
    }
}
