//! How an entry is made: all memory first, then the step and the new index, and then the devices.

ghost use Rattle.std.specs.Prelude.{◌≡◌, ◌++◌, ◌∷◌, [], ◌≤◌, ℕ, List, true, None, Some, IfOk, OnErr, OnOk, length, Err, Ok};
ghost use Rattle.ddc_names.specs.Causes.{HasCause, Rose};
ghost use Rattle.ddc_disk.specs.Disk.{EachSince, IsSure};
ghost use Rattle.ddc_disk.specs.Images.{devices_faults, devices_line};
ghost use Rattle.ddc_entry.specs.Spelling.{spelling, IsEntry, RemovalCountFits};
ghost use Rattle.ddc_journal.specs.Pairs.{IsPairReady};
ghost use Rattle.blob_store.specs.Bytes.{ChangesOnly, LieIn};
ghost use Rattle.ddc_model.specs.Limits.{most_bytes, most_links};
ghost use Rattle.ddc_model.specs.Counts.{added_links, fresh_of};
ghost use Rattle.ddc_model.specs.History.{broken_by, no_room, past_of, WithRoom};
ghost use Rattle.ddc_opening.specs.Opening.{version};
ghost use Rattle.ddc_book.specs.Calls.{Commits, CommandGives, GoesOn};
ghost use Rattle.ddc_book.specs.inside.Making.{bytes_or_none, fresh_length, place_of, with_bytes, Between, IsFit, IsServing};
ghost use Rattle.ddc_book.specs.View.{book_faults};

use crate::Book;
use blob_store::write_blob;
use ddc_disk::{Disk, HeldDevices};
use ddc_entry::write_entry;
use ddc_journal::Framed;
use ddc_journal::pair::Pair;
use ddc_model::{Entry, Extent, StoreFault};
use ddc_names::{Failed, NoMemory};
use ddc_opening::fresh_of;
use io_hash::Whole;
use std::alloc::Global;

// The entry as it is written.
fn written(alloc: Global, entry: &Entry) -> Result<Framed, NoMemory>
    requires few_links { added_links (fresh_of entry.now) ≤ most_links }
    requires count_fits { RemovalCountFits entry.now }
    ensures body { IfOk result (λ item. item ≡ spelling entry.now) }
    ensures spellable { OnOk result (IsEntry entry.now) }
{
    let body = write_entry(alloc, entry)?;
    Framed::new(alloc, body.as_slice())
}

// Where the blob goes that an entry adds.
fn place(entry: &Entry) -> Extent
    requires { fresh_length (fresh_of entry.now) ≤ most_bytes }
    ensures { result ≡ place_of (fresh_of entry.now) }
{
    match fresh_of(entry) {
        Some(blob) => Extent {
            start: blob.start,
            units: blob.len.div_ceil(4096) as u32,
        },
        None => Extent { start: 0, units: 0 },
    }
}

// Writes the bytes of a blob to their extent, where there is a blob.
fn write_fresh<D: Disk>(
    devices: &mut HeldDevices<D>,
    place: Extent,
    blob: &Option<Whole>,
) -> Result<(), Failed>
    requires { LieIn place 0 (length (bytes_or_none blob.now)) }
    ensures any_moment { (first second file : List ℕ) → IsSure (D.meaning devices.old.first) first → IsSure (D.meaning devices.old.second) second → IsSure (D.meaning devices.old.blobs) file
        → EachSince (devices_line D.meaning devices.old) (devices_line D.meaning devices.new) (λ im. (im.first ≡ first) × (im.second ≡ second) × ChangesOnly place file im.blobs) }
    ensures sure { OnOk result ((file : List ℕ) → IsSure (D.meaning devices.old.blobs) file → IsSure (D.meaning devices.new.blobs) (with_bytes file place (bytes_or_none blob.now))) }
    ensures first { devices.new.first ≡ devices.old.first }
    ensures second { devices.new.second ≡ devices.old.second }
    ensures past { EachSince (devices_line D.meaning devices.old) (devices_line D.meaning devices.new) (λ _. Unit {0}) }
    ensures cause { HasCause (devices_faults D.meaning devices.old) (devices_faults D.meaning devices.new) result }
{
    match blob {
        Some(whole) => write_blob(devices.blobs(), place, whole),
        None => Ok(()),
    }
}

// Writes the bytes of a blob and makes sure of them, and only then the entry's item.
fn write_all<D: Disk>(
    devices: &mut HeldDevices<D>,
    pair: &mut Pair,
    place: Extent,
    blob: &Option<Whole>,
    item: &Framed,
) -> Result<(), Failed>
    requires { LieIn place 0 (length (bytes_or_none blob.now)) }
    ensures any_moment { (bodies : List (List ℕ)) (file : List ℕ) → pair.old.version ≡ version → IsPairReady D.meaning devices.old pair.old bodies → IsSure (D.meaning devices.old.blobs) file
        → EachSince (devices_line D.meaning devices.old) (devices_line D.meaning devices.new) (Between bodies item.now file place (bytes_or_none blob.now)) }
    ensures ready { OnOk result ((bodies : List (List ℕ)) (file : List ℕ) → IsPairReady D.meaning devices.old pair.old bodies → IsSure (D.meaning devices.old.blobs) file
        → IsPairReady D.meaning devices.new pair.new (bodies ++ item.now ∷ []) × IsSure (D.meaning devices.new.blobs) (with_bytes file place (bytes_or_none blob.now))) }
    ensures same_version { OnOk result (pair.new.version ≡ pair.old.version) }
    ensures past { EachSince (devices_line D.meaning devices.old) (devices_line D.meaning devices.new) (λ _. Unit {0}) }
    ensures cause { HasCause (devices_faults D.meaning devices.old) (devices_faults D.meaning devices.new) result }
{
    write_fresh(devices, place, blob)?;
    match pair.append(devices, item) {
        Ok(()) => Ok(()),
        Err(_) => Err(Failed),
    }
}

impl<D: Disk> Book<D> {
    /// Makes an entry, with the blob that it adds. Every changing call goes through here.
    ///
    /// # Errors
    ///
    /// `NoMemory`, and the book is as before. `DiskFailed`, and the entry counts as made in a book that is broken.
    pub(crate) fn commit(
        &mut self,
        alloc: Global,
        entry: Entry,
        blob: Option<Whole>,
    ) -> Result<(), StoreFault>
        requires unbroken { broken_by self.old.steps ≡ None }
        requires fit { IsFit self.old.cache entry blob }
        requires room { no_room self.old.cache.index (past_of self.old.steps) entry ≡ None }
        ensures gives { Commits D.meaning self.old entry (bytes_or_none blob) self.new result }
        ensures goes_on { GoesOn D.tells D.meaning self.old (bytes_or_none blob) self.new }
        ensures cause { result ≡ Err StoreFault.DiskFailed → Rose (book_faults D.meaning self.old) (book_faults D.meaning self.new) }
    {
        let before = self.devices.faults();
        let Ok(item) = written(alloc, &entry) else {
            return Err(StoreFault::NoMemory);
        };
        let place = place(&entry);
        let Ok(()) = self.history.make(alloc, &mut self.index, entry) else {
            return Err(StoreFault::NoMemory);
        };
        match write_all(&mut self.devices, &mut self.pair, place, &blob, &item) {
            Ok(()) => Ok(()),
            Err(Failed) => {
                self.history
                    .note_broken(true, before, self.devices.faults());
                Err(StoreFault::DiskFailed)
            }
        }
    }

    // Makes the entry of a command, where the history has room for it, and answers this.
    pub(crate) fn make<A: Drop>(
        &mut self,
        alloc: Global,
        entry: Entry,
        blob: Option<Whole>,
        answer: A,
    ) -> Result<A, StoreFault>
        requires serves { IsServing D.tells D.meaning self.old }
        requires fit { no_room self.old.cache.index (past_of self.old.steps) entry ≡ None → IsFit self.old.cache entry blob }
        ensures gives { CommandGives D.meaning self.old (bytes_or_none blob) self.new (WithRoom self.old.cache.index (past_of self.old.steps) (λ wished made. (wished ≡ Ok answer) × (made ≡ Some entry))) result }
        ensures goes_on { GoesOn D.tells D.meaning self.old (bytes_or_none blob) self.new }
        ensures cause { result ≡ Err StoreFault.DiskFailed → Rose (book_faults D.meaning self.old) (book_faults D.meaning self.new) }
    {
        if let Some(fault) = self.no_room(&entry) {
            return Err(fault);
        }
        match self.commit(alloc, entry, blob) {
            Ok(()) => Ok(answer),
            Err(fault) => Err(fault),
        }
    }
}
