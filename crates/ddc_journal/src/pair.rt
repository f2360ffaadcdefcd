//! A journal on two files, of which a checkpoint writes the one that isn't active.
//!
//! Contracts see the two as devices of a store, which are lent one at a time.

ghost use Rattle.std.specs.Prelude.{◌≡◌, ◌⊎◌, ◌+◌, ◌++◌, ◌∷◌, [], if◌then◌else◌, ℕ, List, length, OnErr, OnOk, IfErr};
ghost use Rattle.ddc_names.specs.Causes.{HasCause};
ghost use Rattle.ddc_disk.specs.Disk.{EachSince};
ghost use Rattle.ddc_disk.specs.Images.{devices_faults, devices_line};
ghost use Rattle.ddc_journal.specs.Journal.{item_head};
ghost use Rattle.ddc_journal.specs.Pairs.{IsPairOf, IsPairReady};
ghost use Rattle.ddc_journal.specs.declared.fault.JournalFault.TheVariants.{DiskFailed};

use crate::{Framed, JournalFault};
use ddc_disk::{Disk, HeldDevices};
use std::marker::Model;

mod checkpointing;
mod creating;
mod files;
mod loading;

pub use creating::create;
pub use loading::load;

/// Two open journal files, of which one is active. Contracts see which, and what the active one is.
#[derive(Debug, Drop)]
pub struct Pair {
    // Whether the second file is the active one.
    second: bool,
    version: u32,
    generation: u64,
    end: u64,
}

impl Model for Pair {
    ghost use Rattle.ddc_journal.specs.Pairs.{PairView};

    ghost Value = { PairView };

    ghost view = { λ pair. record { second = pair.second; version = pair.version; generation = pair.generation; end = pair.end } };
}

impl Pair {
    /// The number of the active file: 0 for the first, and 1 for the second.
    pub fn active(&self) -> u8
        ensures { result ≡ (if self.now.second then 1 else 0) }
    {
        self.second as u8
    }

    /// The version of the active file.
    pub fn version(&self) -> u32
        ensures { result ≡ self.now.version }
    {
        self.version
    }

    /// Adds a body after the others, by four calls of the active file's device, and takes no memory.
    ///
    /// # Errors
    ///
    /// `DiskFailed` alone. A crash may then leave the body or not: load the pair before it is used
    /// again.
    pub fn append<D: Disk>(
        &mut self,
        devices: &mut HeldDevices<D>,
        item: &Framed,
    ) -> Result<(), JournalFault>
        ensures any_moment { (bodies : List (List ℕ)) → IsPairReady D.meaning devices.old self.old bodies
            → EachSince (devices_line D.meaning devices.old) (devices_line D.meaning devices.new) (λ im. IsPairOf self.old.version bodies im.first im.second ⊎ IsPairOf self.old.version (bodies ++ item.now ∷ []) im.first im.second) }
        ensures ready { OnOk result ((bodies : List (List ℕ)) → IsPairReady D.meaning devices.old self.old bodies
            → IsPairReady D.meaning devices.new self.new (bodies ++ item.now ∷ [])) }
        ensures moved { OnOk result (self.new ≡ record self.old { end = self.old.end + item_head + length item.now }) }
        ensures kept { OnErr result (self.new ≡ self.old) }
        ensures past { EachSince (devices_line D.meaning devices.old) (devices_line D.meaning devices.new) (λ _. Unit {0}) }
        ensures blobs { devices.new.blobs ≡ devices.old.blobs }
        ensures failed { IfErr result (λ fault. fault ≡ DiskFailed) }
        ensures cause { HasCause (devices_faults D.meaning devices.old) (devices_faults D.meaning devices.new) result }
    {
        let bytes = item.as_bytes();
        if files::append_to(devices, self.second, self.end, bytes).is_err() {
            return Err(JournalFault::DiskFailed);
        }
        self.end += bytes.len() as u64;
        Ok(())
    }
}
