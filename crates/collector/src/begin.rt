//! The start of a collection.

ghost use Rattle.std.specs.Prelude.{◌≡◌, ◌↔◌, ◌+◌, ◌<◌, true, Some, IfOk, OnOk, [], length};
ghost use Rattle.ddc_model.specs.declared.rows.BlobRow.{BlobRow};
ghost use Rattle.collector.specs.Cover.{IsBegun, Covers, AllKnown};
ghost use Rattle.collector.specs.inside.Starts.{AreKnown, GreyRoots, IsObjectGrey, ArePinnedGrey, AreSlotsGrey, IsSlotGrey, AreLeasedGreyTo, PinnedHash};

use crate::Collection;
use cb_fields::LinkKind;
use ddc_model::BlobRow;
use ddc_names::{IoHash, Namespace, NoMemory, RefName};
use ddc_state::Index;
use ref_store::Slot;
use std::alloc::Global;
use std::cmp::Ordering;

impl Collection {
    /// Starts a collection of a namespace at an hour, in whole hours since 1970: the blobs that are there are known, and
    /// the roots that are there are grey. Room is taken for all of it.
    ///
    /// # Errors
    ///
    /// `NoMemory` where there is none for the known blobs, or where they are more than 2^32 - 1.
    pub fn begin(
        alloc: Global,
        index: &Index,
        space: &Namespace,
        leased: &[IoHash],
        hour: u32,
    ) -> Result<Collection, NoMemory>
        ensures begun { IfOk result (IsBegun index.now.state space.now leased.now hour) }
        ensures cover { IfOk result (Covers index.now.state leased.now) }
        ensures known { IfOk result (AllKnown index.now.state) }
    {
        let mut collection = Collection::new(alloc, *space, hour);
        collection.grow(index.blob_count() as usize)?;
        collection.know_all(index)?;
        collection.shade_pinned(index);
        collection.shade_slots(index)?;
        collection.shade_leased(leased);
        Ok(collection)
    }

    // Gives each blob of the namespace a number, in the order of the hashes.
    fn know_all(&mut self, index: &Index) -> Result<(), NoMemory>
        requires { self.old.hashes ≡ [] }
        ensures { OnOk result (AreKnown index.now.state self.old self.new) }
    {
        let space = self.space();
        let mut last = None;
        for _ in 0..u64::MAX {
            let Some(hash) = index.next_blob(&space, last) else {
                return Ok(());
            };
            self.reserve_one()?;
            self.know(hash);
            last = Some(hash);
        }
        Err(NoMemory)
    }

    // Makes the pinned blobs grey.
    fn shade_pinned(&mut self, index: &Index)
        ensures roots { GreyRoots index.now.state self.old self.new }
        ensures all { ArePinnedGrey index.now.state self.old self.new }
    {
        let space = self.space();
        let hour = self.hour();
        for number in 0..self.count() {
            let hash = self.hash(number);
            self.shade_object(pinned_hash(index, &space, hash, hour));
        }
    }

    // Makes the objects of the references grey.
    fn shade_slots(&mut self, index: &Index) -> Result<(), NoMemory>
        ensures roots { OnOk result (GreyRoots index.now.state self.old self.new) }
        ensures all { OnOk result (AreSlotsGrey index.now.state self.old self.new) }
    {
        let mut last: Option<RefName> = None;
        for _ in 0..u64::MAX {
            let Some((name, slot)) = index.refs().next(last.as_ref()) else {
                return Ok(());
            };
            self.shade_slot(&name, &slot);
            last = Some(name);
        }
        Err(NoMemory)
    }

    // Makes the objects of a reference grey, where it is of this namespace.
    fn shade_slot(&mut self, name: &RefName, slot: &Slot)
        ensures { IsSlotGrey self.old name.now slot.now self.new }
    {
        match name.space.cmp(&self.space()) {
            Ordering::Equal => {
                self.shade_object(slot.done);
                self.shade_object(slot.pending);
            }
            _ => {}
        }
    }

    // Makes an object grey, where there is one and it is known.
    fn shade_object(&mut self, hash: Option<IoHash>)
        ensures { IsObjectGrey self.old hash self.new }
    {
        if let Some(hash) = hash {
            self.shade_known(LinkKind::Object, &hash);
        }
    }

    // Makes the leased blobs grey, as binaries.
    fn shade_leased(&mut self, leased: &[IoHash])
        ensures { AreLeasedGreyTo leased.now (length leased.now) self.old self.new }
    {
        for hash in leased {
            self.shade_known(LinkKind::Binary, hash);
        }
    }
}

// A hash, where its blob is still pinned at an hour.
fn pinned_hash(index: &Index, space: &Namespace, hash: IoHash, hour: u32) -> Option<IoHash>
    ensures { PinnedHash index.now.state space.now hour hash result }
{
    let row = index.space(space)?;
    if is_pinned(index.blob(space, &hash), row.pin, hour) {
        Some(hash)
    } else {
        None
    }
}

// Whether a blob is there and still pinned at an hour.
fn is_pinned(blob: Option<BlobRow>, pin: u32, hour: u32) -> bool
    ensures { (result ≡ true) ↔ ((row : BlobRow) × (blob ≡ Some row) × (hour < row.at + pin)) }
{
    match blob {
        Some(row) => (hour as u64) < row.at as u64 + pin as u64,
        None => false,
    }
}
