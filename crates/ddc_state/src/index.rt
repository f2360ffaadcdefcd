//! The index.

ghost use Rattle.std.specs.Prelude.{◌≡◌, ◌+◌, ◌-◌, ◌^◌, ◌≤◌, true, min, [], OnOk, OnErr, option_copied, option_map};
ghost use Rattle.std.specs.Option.{unwrap_or};
ghost use Rattle.std.specs.Borrow.{sem};
ghost use Rattle.std.specs.FinMap as map;
ghost use Rattle.ddc_model.specs.State.{blob_at, empty_state};
ghost use Rattle.ddc_model.specs.Extents.{IsPlaced, free_run, units_of};
ghost use Rattle.ddc_model.specs.Entries.{after, has_room_for_events, legal};
ghost use Rattle.ddc_model.specs.Closure.{links_in};
ghost use Rattle.ddc_model.specs.Counts.{link_count};
ghost use Rattle.ddc_model.specs.Limits.{most_bytes};
ghost use Rattle.ddc_state.specs.NextKeys.{NextBlob, NextSpace};

mod changes;
mod events;
mod expiry;
mod legal;
mod room;

use crate::blobs::BlobTable;
use crate::packed::PackedBlob;
use crate::spaces::SpaceTable;
use blob_store::BlobStore;
use cb_fields::Link;
use ddc_model::{BlobName, BlobRow, Cursor, Entry, Limits, SpaceRow};
use ddc_names::{IoHash, Namespace, NoMemory};
use ref_store::RefTable;
use replication_log::EventLog;
use std::alloc::Global;
use std::marker::Model;

/// The namespaces, blobs and references of a store, within its limits, the events of each namespace, how far followers
/// have come, and the greatest hour of a change. Contracts see the state, and the number of times that links were given
/// out. The units of the blobs are claimed, so that no two blobs have one in common.
#[derive(Drop)]
pub struct Index {
    limits: Limits,
    hour: u32,
    spaces: SpaceTable<SpaceRow>,
    blobs: BlobTable,
    area: BlobStore,
    refs: RefTable,
    logs: SpaceTable<EventLog>,
    cursors: SpaceTable<Cursor>,
    reads: u64,
}

impl Model for Index {
    ghost use Rattle.ddc_state.specs.Views.{IndexView, coded_index};
    ghost use Rattle.ddc_state.specs.inside.Claimed.{IsIndexed};

    ghost Value = { IndexView };

    ghost coded = { coded_index };

    ghost view = { λ index. record { state = record { limits = index.limits; hour = index.hour; spaces = index.spaces; blobs = index.blobs; slots = index.refs; logs = index.logs; cursors = index.cursors }; reads = index.reads } };

    ghost invariant = { λ index. IsIndexed index.area index.limits index.blobs };
}

impl Index {
    ghost use Rattle.ddc_state.specs.IndexLends.{counts_a_read};

    /// An index of nothing, at the hour 0, which holds no memory yet.
    pub fn new(alloc: Global, limits: Limits) -> Index
        requires kept { 1 ≤ limits.kept }
        requires units { limits.units ≤ 2 ^ 51 }
        ensures state { result.state ≡ empty_state limits }
        ensures reads { result.reads ≡ 0 }
    {
        Index {
            limits,
            hour: 0,
            spaces: SpaceTable::new(alloc),
            blobs: BlobTable::new(alloc),
            area: BlobStore::new(alloc, limits.units),
            refs: RefTable::new(alloc),
            logs: SpaceTable::new(alloc),
            cursors: SpaceTable::new(alloc),
            reads: 0,
        }
    }

    /// Whether an entry is legal.
    pub fn fits(&self, entry: &Entry) -> bool
        ensures { result ≡ legal self.now.state entry.now }
    {
        self.has_room_for_events(entry) && self.fits_state(entry)
    }

    /// Whether the numbers of a namespace's events have room for those that an entry notes.
    pub fn has_room_for_events(&self, entry: &Entry) -> bool
        ensures { result ≡ has_room_for_events self.now.state entry.now }
    {
        match entry {
            Entry::Put {
                name,
                root,
                whole,
                ..
            } => !*whole || self.has_room_to_add(name.get(), root),
            Entry::Finalise { name, hash, .. } => self.has_room_to_add(name.get(), hash),
            Entry::Delete { name, .. } => self.has_room_to_delete(name.get()),
            Entry::Expire { space, spots, .. } => self.has_room_to_expire(space, spots.as_slice()),
            _ => true,
        }
    }

    /// Makes the change of a legal entry.
    ///
    /// # Errors
    ///
    /// `NoMemory` where there is none for a row that isn't there yet, for the claim of a blob's units or for an event
    /// of a log that grows, or where the links of all blobs would be more than a `u64` counts. The index is then as
    /// before.
    pub fn apply(&mut self, alloc: Global, entry: &Entry) -> Result<(), NoMemory>
        requires { legal self.old.state entry.now ≡ true }
        ensures ok { OnOk result (self.new.state ≡ after self.old.state entry.now) }
        ensures err { OnErr result (self.new ≡ self.old) }
        ensures reads { self.new.reads ≡ self.old.reads }
    {
        match entry {
            Entry::Space { space, ttl, pin } => self.apply_space(space, *ttl, *pin),
            Entry::Upload { space, hour, blob } => self.apply_upload(alloc, space, blob, *hour),
            Entry::Repin { space, hash, hour } => {
                self.apply_repin(space, hash, *hour);
                Ok(())
            }
            Entry::Put {
                name,
                root,
                fresh,
                whole,
                hour,
            } => self.apply_put(alloc, name.get(), root, fresh, *whole, *hour),
            Entry::Finalise { name, hash, hour } => {
                self.apply_finalise(alloc, name.get(), hash, *hour)
            }
            Entry::Delete { name, hour } => self.apply_delete(alloc, name.get(), *hour),
            Entry::Touch { name, hour } => self.apply_touch(name.get(), *hour),
            Entry::Expire { space, spots, hour } => {
                self.apply_expire(alloc, space, spots.as_slice(), *hour)
            }
            Entry::Swept { space, hashes } => {
                self.apply_swept(space, hashes.as_slice());
                Ok(())
            }
            Entry::Cursor { space, cursor } => self.apply_cursor(space, cursor.get()),
            Entry::BaseHour { hour } => {
                self.raise(*hour);
                Ok(())
            }
            Entry::BaseSlot {
                name,
                done,
                pending,
                seen,
            } => self.apply_base_slot(name.get(), *done, *pending, *seen),
            Entry::BaseEvent { name, number, op } => {
                self.note_numbered(alloc, name.get(), *number, *op)
            }
        }
    }

    /// The links of a blob, in order of occurrence, and none where the blob isn't there. The read is counted, up to
    /// 2^64 - 1. The index is lent beside them, so that it can be asked while they are read.
    pub fn links(&mut self, space: &Namespace, hash: &IoHash) -> (&Index, &[Link])
        ensures* counted { sem 𝓛 (counts_a_read self.entry) }
        ensures index { result.0.now.state ≡ self.old.state }
        ensures links { result.1.now ≡ unwrap_or (links_in self.old.state space.now hash.now) [] }
    {
        self.reads = self.reads.saturating_add(1);
        let index: &Index = self;
        (index, index.links_of(space, hash))
    }

    /// What is kept of a blob beside its links.
    pub fn blob(&self, space: &Namespace, hash: &IoHash) -> Option<BlobRow>
        ensures row { result ≡ option_map (λ blob. blob.row) (blob_at self.now.state space.now hash.now) }
        ensures placed { IsPlaced self.now.state }
        ensures low { self.now.state.limits.units ≤ 2 ^ 51 }
    {
        match self.found(space, hash) {
            Some(blob) => Some(blob.row()),
            None => None,
        }
    }

    /// The first blob of a namespace after another hash, or the first of all.
    pub fn next_blob(&self, space: &Namespace, after: Option<IoHash>) -> Option<IoHash>
        ensures { NextBlob self.now.state.blobs space.now after result }
    {
        self.blobs.next(space, after)
    }

    /// The first unit of the first run of free units that holds so many bytes, and `None` where there is none. No bytes
    /// take no units, and their run begins at 0.
    pub fn free_run(&self, len: u64) -> Option<u64>
        requires { len ≤ most_bytes }
        ensures run { result ≡ free_run self.now.state (units_of len) }
        ensures placed { IsPlaced self.now.state }
        ensures low { self.now.state.limits.units ≤ 2 ^ 51 }
    {
        match self.area.find_free(len) {
            Some(run) => Some(run.start),
            None => None,
        }
    }

    /// The times of a namespace.
    pub fn space(&self, space: &Namespace) -> Option<SpaceRow>
        ensures { result ≡ map.get self.now.state.spaces space.now }
    {
        self.spaces.get(space).copied()
    }

    /// The first namespace after another, or the first of all.
    pub fn next_space(&self, after: Option<Namespace>) -> Option<Namespace>
        ensures { NextSpace self.now.state.spaces after result }
    {
        self.spaces.next(after)
    }

    /// The events of a namespace, and `None` where it never noted one.
    pub fn log(&self, space: &Namespace) -> Option<&EventLog>
        ensures { option_copied result ≡ map.get self.now.state.logs space.now }
    {
        self.logs.get(space)
    }

    /// How far the follower of a namespace has come, where that was noted.
    pub fn cursor(&self, space: &Namespace) -> Option<Cursor>
        ensures { result ≡ map.get self.now.state.cursors space.now }
    {
        self.cursors.get(space).copied()
    }

    /// The references.
    pub fn refs(&self) -> &RefTable
        ensures { result.now ≡ self.now.state.slots }
    {
        &self.refs
    }

    /// The greatest hour of a change, in whole hours since 1970.
    pub fn hour(&self) -> u32
        ensures { result ≡ self.now.state.hour }
    {
        self.hour
    }

    /// The limits of the store.
    pub fn limits(&self) -> Limits
        ensures { result ≡ self.now.state.limits }
    {
        self.limits
    }

    /// How many blobs all namespaces have.
    pub fn blob_count(&self) -> u64
        ensures { result ≡ map.len self.now.state.blobs }
    {
        self.blobs.len()
    }

    /// How many namespaces there are.
    pub fn space_count(&self) -> u64
        ensures { result ≡ map.len self.now.state.spaces }
    {
        self.spaces.len()
    }

    /// How many links all blobs have.
    pub fn link_count(&self) -> u64
        ensures { result ≡ link_count self.now.state }
    {
        self.blobs.link_count()
    }

    /// How many reads of links were counted. The count stands still at 2^64 - 1.
    pub fn reads(&self) -> u64
        ensures { result ≡ self.now.reads }
    {
        self.reads
    }

    fn links_of(&self, space: &Namespace, hash: &IoHash) -> &[Link]
        ensures { result.now ≡ unwrap_or (links_in self.now.state space.now hash.now) [] }
    {
        match self.found(space, hash) {
            Some(blob) => blob.links(),
            None => &[],
        }
    }

    fn found(&self, space: &Namespace, hash: &IoHash) -> Option<&PackedBlob>
        ensures found { option_copied result ≡ blob_at self.now.state space.now hash.now }
        ensures placed { IsPlaced self.now.state }
        ensures low { self.now.state.limits.units ≤ 2 ^ 51 }
    {
        self.blobs.get(&BlobName {
            space: *space,
            hash: *hash,
        })
    }
}
