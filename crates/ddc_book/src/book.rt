//! The book: what it holds, and what is looked up in it.

ghost use Rattle.std.specs.Prelude.{◌≡◌, ◌≤◌, true, IsTrue, None, Some, length, is_some, IfErr, IfOk, IfSome, option_copied, option_map};
ghost use Rattle.std.specs.FinMap as map;
ghost use Rattle.ddc_disk.specs.Disk.{EachImage};
ghost use Rattle.ddc_disk.specs.Images.{devices_line};
ghost use Rattle.ddc_model.specs.declared.fault.StoreFault.TheVariants.{Full};
ghost use Rattle.ddc_model.specs.Limits.{most_bytes};
ghost use Rattle.ddc_model.specs.State.{blob_at, has_space};
ghost use Rattle.ddc_model.specs.Entries.{is_hash};
ghost use Rattle.ddc_model.specs.Closure.{links_in, with_links, AreNeeds};
ghost use Rattle.ddc_model.specs.Counts.{added, added_links, fresh_of, lacks_run, passes};
ghost use Rattle.ddc_model.specs.Commands.{hour_of, is_done, object_of, touch_entry};
ghost use Rattle.ddc_model.specs.History.{broken_by, no_room, past_of};
ghost use Rattle.ddc_book.specs.inside.Making.{fresh_length, full_by, IsRefusal, IsServing, IsStill};
ghost use Rattle.ddc_opening.specs.Opening.{OpensAs};
ghost use Rattle.ddc_book.specs.View.{book_faults, limits_of, opened_count, sure_count, IsHonest, EachFrom, OpensFrom};

use crate::history::{History, added_links_of};
use cb_fields::Link;
use ddc_disk::{Devices, Disk, HeldDevices};
use ddc_journal::pair::Pair;
use ddc_model::{Entry, NameBox, Step, StoreFault, Stored, What};
use ddc_names::{IoHash, Namespace, NoMemory, RefName, Rows};
use ddc_state::Index;
use needs_resolver::{needs, needs_with};
use std::alloc::Global;
use std::marker::Model;

/// An opened store. Contracts see its devices, its state with the bytes that the devices tell of each blob, its steps, the
/// moment of its opening, and how often links were read. The type keeps that the index is what the steps leave, that each
/// finalised reference has its whole closure, that while no disk failed a crash now leaves devices that open to its state,
/// and, for devices that held a sound state when they were opened, that each crash since leaves a sound state of its
/// history.
#[derive(Drop)]
pub struct Book<D: Disk> {
    pub(crate) devices: HeldDevices<D>,
    pub(crate) pair: Pair,
    pub(crate) index: Index,
    pub(crate) history: History,
    pub(crate) opened: u64,
}

impl<D: Disk> Model for Book<D> {
    ghost use Rattle.ddc_book.specs.View.{BookView, coded_book, told_cache, IsBook};

    ghost Value = { BookView D };

    ghost coded = { coded_book D.code };

    ghost view = { λ b. record { devices = b.devices; cache = told_cache D.tells D.meaning b.devices b.index.state; steps = b.history; opened = b.opened; reads = b.index.reads } };

    ghost invariant = { λ b. IsBook D.tells D.meaning (record { devices = b.devices; cache = told_cache D.tells D.meaning b.devices b.index.state; steps = b.history; opened = b.opened; reads = b.index.reads }) b.pair };
}

impl<D: Disk> Book<D> {
    /// Gives the devices back. Where no disk failed, a crash now leaves devices that open to the book's state. Where they
    /// held a sound state when they were opened, each crash since leaves a sound state that the changes before the opening
    /// and some of the first steps after it leave, and a crash now leaves what all steps leave; where a disk failed as a
    /// change was written, with that change or without it.
    pub fn into_devices(self) -> Devices<D>
        ensures devices { result ≡ self.devices }
        ensures opened { IsTrue D.tells → broken_by self.steps ≡ None → EachImage (devices_line D.meaning result) (λ im. OpensAs (limits_of self) im self.cache) }
        ensures since { IsHonest D.tells (devices_line D.meaning result) (limits_of self) self.opened → EachFrom (devices_line D.meaning result) self.opened (OpensFrom (opened_count self.steps) (limits_of self) self.steps) }
        ensures last { IsHonest D.tells (devices_line D.meaning result) (limits_of self) self.opened → EachImage (devices_line D.meaning result) (OpensFrom (sure_count self.steps) (limits_of self) self.steps) }
    {
        let Book { devices, .. } = self;
        devices.into_devices()
    }

    /// Gives the devices back, and the steps, with all that is known of the devices.
    pub fn into_parts(self) -> (Devices<D>, Rows<Step>)
        ensures devices { result.0 ≡ self.devices }
        ensures steps { result.1 ≡ self.steps }
        ensures opened { IsTrue D.tells → broken_by self.steps ≡ None → EachImage (devices_line D.meaning result.0) (λ im. OpensAs (limits_of self) im self.cache) }
        ensures since { IsHonest D.tells (devices_line D.meaning result.0) (limits_of self) self.opened → EachFrom (devices_line D.meaning result.0) self.opened (OpensFrom (opened_count self.steps) (limits_of self) self.steps) }
        ensures last { IsHonest D.tells (devices_line D.meaning result.0) (limits_of self) self.opened → EachImage (devices_line D.meaning result.0) (OpensFrom (sure_count self.steps) (limits_of self) self.steps) }
    {
        let Book {
            devices,
            history,
            ..
        } = self;
        (devices.into_devices(), history.into_rows())
    }

    /// The index.
    pub fn index(&self) -> &Index
        ensures state { result.now.state ≡ self.now.cache.index }
        ensures reads { result.now.reads ≡ self.now.reads }
    {
        &self.index
    }

    /// The steps since before the opening: the changes that the store was opened with, the opening, and its own.
    pub fn steps(&self) -> &[Step]
        ensures { result.now ≡ self.now.steps }
    {
        self.history.as_slice()
    }

    /// The number of steps.
    pub fn count(&self) -> u64
        ensures { result ≡ length self.now.steps }
    {
        self.history.len() as u64
    }

    /// How often the devices have failed, up to 2^64 - 1.
    pub fn faults(&self) -> u64
        ensures { result ≡ book_faults D.meaning self.now }
    {
        self.devices.faults()
    }
}

// What a command looks up.
impl<D: Disk> Book<D> {
    // The count of faults at which it broke.
    pub(crate) fn broken(&self) -> Option<u64>
        ensures count { result ≡ broken_by self.now.steps }
        ensures still { IsStill D.tells D.meaning self.now }
        ensures serves { broken_by self.now.steps ≡ None → IsServing D.tells D.meaning self.now }
    {
        let _ = &self.devices;
        self.history.broken()
    }

    pub(crate) fn has_space(&self, space: &Namespace) -> bool
        ensures { result ≡ has_space self.now.cache.index space.now }
    {
        self.index.space(space).is_some()
    }

    pub(crate) fn hour_of(&self, hour: u32) -> u32
        ensures { result ≡ hour_of self.now.cache.index hour }
    {
        self.index.hour().max(hour)
    }

    // The hour at which a blob was stored or named last.
    pub(crate) fn pinned_at(&self, space: &Namespace, hash: &IoHash) -> Option<u32>
        ensures { result ≡ option_map (λ blob. blob.row.at) (blob_at self.now.cache.index space.now hash.now) }
    {
        match self.index.blob(space, hash) {
            Some(row) => Some(row.at),
            None => None,
        }
    }

    // Whether the object is finalised already, or pending.
    pub(crate) fn is_done(&self, name: &RefName, hash: &IoHash) -> Result<bool, StoreFault>
        ensures done { result ≡ is_done self.now.cache.index name.now hash.now }
        ensures refusal { IfErr result IsRefusal }
    {
        if !self.has_space(&name.space) {
            return Err(StoreFault::UnknownSpace);
        }
        match self.index.refs().get(name) {
            None => Err(StoreFault::NotFound),
            Some(slot) => {
                if is_hash(slot.done, hash) {
                    Ok(true)
                } else if is_hash(slot.pending, hash) {
                    Ok(false)
                } else {
                    Err(StoreFault::NotPending)
                }
            }
        }
    }

    // The finalised object of a reference.
    pub(crate) fn object_of(&self, name: &RefName) -> Result<IoHash, StoreFault>
        ensures hash { result ≡ object_of self.now.cache.index name.now }
        ensures refusal { IfErr result IsRefusal }
    {
        if !self.has_space(&name.space) {
            return Err(StoreFault::UnknownSpace);
        }
        match self.index.refs().get(name) {
            None => Err(StoreFault::NotFound),
            Some(slot) => slot.done.ok_or(StoreFault::NotFinalised),
        }
    }

    // A reference that was read at an earlier hour is touched.
    pub(crate) fn touch_entry(
        &self,
        alloc: Global,
        name: &RefName,
        hour: u32,
    ) -> Result<Option<Entry>, NoMemory>
        ensures { IfOk result (λ made. made ≡ touch_entry self.now.cache.index name.now hour) }
    {
        let hour = self.hour_of(hour);
        match self.index.refs().get(name) {
            Some(slot) if slot.seen < hour => {
                let name = NameBox::new(alloc, *name)?;
                Ok(Some(Entry::Touch { name, hour }))
            }
            _ => Ok(None),
        }
    }

    // The first limit that so many namespaces and references and a blob more would pass.
    pub(crate) fn full(&self, spaces: u64, fresh: Option<&Stored>, refs: u64) -> Option<StoreFault>
        requires { fresh_length (option_copied fresh) ≤ most_bytes }
        ensures fault { result ≡ full_by self.now.cache.index spaces (option_copied fresh.entry) refs }
        ensures refusal { IfSome result IsRefusal }
    {
        let limits = self.index.limits();
        let (blobs, links) = match fresh {
            None => (0, 0),
            Some(blob) => (1, blob.links.len() as u64),
        };
        if passes(self.index.space_count(), spaces, limits.spaces as u64) {
            return full_of(What::Spaces, limits.spaces as u64);
        }
        if passes(self.index.blob_count(), blobs, limits.blobs) {
            return full_of(What::Blobs, limits.blobs);
        }
        if passes(self.index.refs().len(), refs, limits.refs) {
            return full_of(What::Refs, limits.refs);
        }
        if passes(self.index.link_count(), links, limits.links) {
            return full_of(What::Links, limits.links);
        }
        if self.lacks_run(fresh) {
            return full_of(What::Units, limits.units);
        }
        None
    }

    // No run of free units holds the blob.
    fn lacks_run(&self, fresh: Option<&Stored>) -> bool
        requires { fresh_length (option_copied fresh) ≤ most_bytes }
        ensures { result ≡ lacks_run self.now.cache.index (option_copied fresh.entry) }
    {
        match fresh {
            Some(blob) => self.index.free_run(blob.len).is_none(),
            None => false,
        }
    }

    pub(crate) fn added_spaces(&self, space: &Namespace) -> u64
        ensures { result ≡ added (has_space self.now.cache.index space.now) }
    {
        if self.has_space(space) { 0 } else { 1 }
    }

    pub(crate) fn added_refs(&self, name: &RefName) -> u64
        ensures { result ≡ added (is_some (map.get self.now.cache.index.slots name.now)) }
    {
        match self.index.refs().get(name) {
            None => 1,
            Some(_) => 0,
        }
    }

    // Why the history has no room for an entry.
    pub(crate) fn no_room(&self, entry: &Entry) -> Option<StoreFault>
        ensures fault { result ≡ no_room self.now.cache.index (past_of self.now.steps) entry.now }
        ensures refusal { IfSome result IsRefusal }
    {
        let limits = self.index.limits();
        let (entries, links) = (self.history.entries(), self.history.links());
        if limits.entries <= entries
            || limits.entry_links < links
            || limits.entry_links - links < added_links_of(entry)
            || !self.index.has_room_for_events(entry)
        {
            return Some(StoreFault::HistoryFull { entries, links });
        }
        None
    }

    // What is missing of an object that is there.
    pub(crate) fn missing(
        &mut self,
        alloc: Global,
        space: &Namespace,
        root: IoHash,
    ) -> Result<Rows<IoHash>, NoMemory>
        ensures same { self.new ≡ record self.old { reads = self.new.reads } }
        ensures needs { IfOk result (λ needs. AreNeeds (links_in self.old.cache.index space.now) root needs) }
    {
        needs(alloc, &mut self.index, space, root)
    }

    // What will be missing of an object that isn't there, and has these links.
    pub(crate) fn missing_with(
        &mut self,
        alloc: Global,
        space: &Namespace,
        root: IoHash,
        links: &[Link],
    ) -> Result<Rows<IoHash>, NoMemory>
        ensures same { self.new ≡ record self.old { reads = self.new.reads } }
        ensures needs { IfOk result (λ needs. AreNeeds (with_links (links_in self.old.cache.index space.now) root links.now) root needs) }
    {
        needs_with(alloc, &mut self.index, space, root, links)
    }
}

fn is_hash(found: Option<IoHash>, hash: &IoHash) -> bool
    ensures { result ≡ is_hash found hash.now }
{
    match found {
        Some(found) => found == *hash,
        None => false,
    }
}

// Whether the number is raised, and past the limit.
fn passes(count: u64, more: u64, limit: u64) -> bool
    ensures { result ≡ passes count more limit }
{
    0 < more && (limit < count || limit - count < more)
}

fn full_of(what: What, limit: u64) -> Option<StoreFault>
    ensures { result ≡ Some (Full what limit) }
{
    Some(StoreFault::Full { what, limit })
}
