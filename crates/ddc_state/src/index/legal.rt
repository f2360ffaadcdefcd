//! What makes an entry legal.

ghost use Rattle.std.specs.Prelude.{◌≡◌, ◌≤◌, ◌&&◌, ◌||◌, not, is_some};
ghost use Rattle.std.specs.FinMap as map;
ghost use Rattle.ddc_names.specs.Orders.{io_hash_cmp, spot_cmp};
ghost use Rattle.replication_log.specs.Logs.{can_follow};
ghost use Rattle.ddc_model.specs.State.{done_of, has_blob, has_space, log_of, pending_of};
ghost use Rattle.ddc_model.specs.Entries.{ascends, extent_of, fits_state, has_blobs, has_slots, is_fresh, is_hash, is_root, is_time, name_at};
ghost use Rattle.ddc_model.specs.Extents.{is_free};
ghost use Rattle.ddc_model.specs.Limits.{most_bytes};

use super::Index;
use crate::ranges::is_ascending;
use ddc_model::{BlobName, Entry, Extent, MOST_BLOB_BYTES, NameBox, Stored};
use ddc_names::{IoHash, Namespace, RefName, RefSpot};
use ref_store::Slot;

const MOST_HOURS: u32 = 1_000_000;

const MOST_LINKS: usize = 4_194_304;

impl Index {
    // Whether an entry is legal as far as it isn't a matter of the room for events.
    pub(super) fn fits_state(&self, entry: &Entry) -> bool
        ensures { result ≡ fits_state self.now.state entry.now }
    {
        match entry {
            Entry::Space { ttl, pin, .. } => is_time_of(*ttl) && is_time_of(*pin),
            Entry::Upload { space, blob, .. } => self.spaces.has(space) && self.takes(space, blob),
            Entry::Repin { space, hash, .. } => self.spaces.has(space) && self.has(space, hash),
            Entry::Put {
                name,
                root,
                fresh,
                ..
            } => self.has_space_of(name) && self.takes_root(&name.get().space, root, fresh),
            Entry::Finalise { name, hash, .. } => {
                self.has_space_of(name) && self.waits_for(name.get(), hash)
            }
            Entry::Delete { name, .. } => { self.has_space_of(name) && self.has_slot(name.get()) }
            Entry::Touch { name, .. } => self.has_space_of(name) && self.serves(name.get()),
            Entry::Expire { space, spots, .. } => self.takes_expired(space, spots.as_slice()),
            Entry::Swept { space, hashes } => self.takes_swept(space, hashes.as_slice()),
            Entry::Cursor { space, .. } => self.spaces.has(space),
            Entry::BaseHour { .. } => true,
            Entry::BaseSlot {
                name,
                done,
                pending,
                ..
            } => self.has_space_of(name) && self.takes_slot(name.get(), done, pending),
            Entry::BaseEvent { name, number, .. } => {
                self.has_space_of(name) && self.takes_event(&name.get().space, *number)
            }
        }
    }

    fn has_space_of(&self, name: &NameBox) -> bool
        ensures { result ≡ has_space self.now.state name.now.space }
    {
        self.spaces.has(&name.get().space)
    }

    pub(super) fn has(&self, space: &Namespace, hash: &IoHash) -> bool
        ensures { result ≡ has_blob self.now.state space.now hash.now }
    {
        self.blobs.has(&BlobName {
            space: *space,
            hash: *hash,
        })
    }

    pub(super) fn takes(&self, space: &Namespace, blob: &Stored) -> bool
        ensures { result ≡ is_fresh self.now.state space.now blob.now }
    {
        !self.has(space, &blob.hash)
            && blob.len <= MOST_BLOB_BYTES
            && blob.links.len() <= MOST_LINKS
            && self.has_free(blob_extent(blob))
    }

    fn has_free(&self, extent: Extent) -> bool
        ensures { result ≡ is_free self.now.state extent }
    {
        self.area.is_free(extent)
    }

    pub(super) fn takes_root(
        &self,
        space: &Namespace,
        root: &IoHash,
        fresh: &Option<Stored>,
    ) -> bool
        ensures { result ≡ is_root self.now.state space.now root.now fresh.now }
    {
        match fresh {
            None => self.has(space, root),
            Some(blob) => blob.hash == *root && self.takes(space, blob),
        }
    }

    pub(super) fn waits_for(&self, name: &RefName, hash: &IoHash) -> bool
        ensures { result ≡ is_hash (pending_of (map.get self.now.state.slots name.now)) hash.now }
    {
        is_object(pending_in(self.slot(name)), hash)
    }

    pub(super) fn serves(&self, name: &RefName) -> bool
        ensures { result ≡ is_some (done_of (map.get self.now.state.slots name.now)) }
    {
        self.done(name).is_some()
    }

    // The object that a reference serves.
    pub(super) fn done(&self, name: &RefName) -> Option<IoHash>
        ensures { result ≡ done_of (map.get self.now.state.slots name.now) }
    {
        done_in(self.slot(name))
    }

    pub(super) fn slot(&self, name: &RefName) -> Option<Slot>
        ensures { result ≡ map.get self.now.state.slots name.now }
    {
        self.refs.get(name)
    }

    fn has_slot(&self, name: &RefName) -> bool
        ensures { result ≡ is_some (map.get self.now.state.slots name.now) }
    {
        self.slot(name).is_some()
    }

    fn takes_expired(&self, space: &Namespace, spots: &[RefSpot]) -> bool
        ensures { result ≡ (has_space self.now.state space.now && ascends spot_cmp spots.now && has_slots self.now.state space.now spots.now) }
    {
        self.spaces.has(space) && is_ascending(spots) && self.has_slots(space, spots)
    }

    fn takes_swept(&self, space: &Namespace, hashes: &[IoHash]) -> bool
        ensures { result ≡ (has_space self.now.state space.now && ascends io_hash_cmp hashes.now && has_blobs self.now.state space.now hashes.now) }
    {
        self.spaces.has(space) && is_ascending(hashes) && self.has_blobs(space, hashes)
    }

    fn has_slots(&self, space: &Namespace, spots: &[RefSpot]) -> bool
        ensures { result ≡ has_slots self.now.state space.now spots.now }
    {
        for spot in spots {
            if !self.has_slot(&name_of(space, spot)) {
                return false;
            }
        }
        true
    }

    fn has_blobs(&self, space: &Namespace, hashes: &[IoHash]) -> bool
        ensures { result ≡ has_blobs self.now.state space.now hashes.now }
    {
        for hash in hashes {
            if !self.has(space, hash) {
                return false;
            }
        }
        true
    }

    // A slot of a reference that isn't there, with an object.
    fn takes_slot(&self, name: &RefName, done: &Option<IoHash>, pending: &Option<IoHash>) -> bool
        ensures { result ≡ (not (is_some (map.get self.now.state.slots name.now)) && (is_some done.now || is_some pending.now)) }
    {
        !self.has_slot(name) && (done.is_some() || pending.is_some())
    }

    fn takes_event(&self, space: &Namespace, number: u64) -> bool
        ensures { result ≡ can_follow (log_of self.now.state space.now) number }
    {
        match self.logs.get(space) {
            Some(log) => log.can_follow(number),
            None => 1 <= number,
        }
    }
}

// Where the bytes of a blob stand.
pub(super) fn blob_extent(blob: &Stored) -> Extent
    requires { blob.now.len ≤ most_bytes }
    ensures { result ≡ extent_of blob.now }
{
    Extent {
        start: blob.start,
        units: blob.len.div_ceil(4096) as u32,
    }
}

pub(super) fn is_time_of(hours: u32) -> bool
    ensures { result ≡ is_time hours }
{
    1 <= hours && hours <= MOST_HOURS
}

pub(super) fn done_in(slot: Option<Slot>) -> Option<IoHash>
    ensures { result ≡ done_of slot }
{
    match slot {
        Some(slot) => slot.done,
        None => None,
    }
}

// Whether there is an object, and it is this one.
pub(super) fn is_object(object: Option<IoHash>, hash: &IoHash) -> bool
    ensures { result ≡ is_hash object hash.now }
{
    match object {
        Some(object) => object == *hash,
        None => false,
    }
}

// The reference at a spot of a namespace.
pub(super) fn name_of(space: &Namespace, spot: &RefSpot) -> RefName
    ensures { result ≡ name_at space.now spot.now }
{
    RefName {
        space: *space,
        spot: *spot,
    }
}

fn pending_in(slot: Option<Slot>) -> Option<IoHash>
    ensures { result ≡ pending_of slot }
{
    match slot {
        Some(slot) => slot.pending,
        None => None,
    }
}
