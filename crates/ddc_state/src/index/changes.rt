//! The change that each kind of entry makes.

ghost use Rattle.std.specs.Prelude.{◌≡◌, ◌≤◌, None, true, is_some, OnOk, OnErr, IfOk};
ghost use Rattle.std.specs.FinMap as map;
ghost use Rattle.ddc_model.specs.State.{done_of, pending_of};
ghost use Rattle.ddc_model.specs.Entries.{after, at_hour, blob_of, count_added, count_deleted, has_numbers, is_fresh, is_hash, is_root, noted_put, slot_after, with_blob, with_pin, with_slot, without_blob};
ghost use Rattle.ddc_model.specs.Limits.{most_bytes};
ghost use Rattle.ddc_model.specs.declared.entry.Entry.TheVariants.{Space, Upload, Repin, Put, Finalise, Delete, Touch, Swept, BaseSlot};
ghost use Rattle.ddc_state.specs.Views.{in_state};
ghost use Rattle.ddc_state.specs.inside.Noted.{noted_where};

use super::Index;
use super::legal::{blob_extent, done_in};
use ddc_model::{Blob, BlobName, BlobRow, Cursor, SpaceRow, Stored};
use ddc_names::{IoHash, Namespace, NoMemory, RefName, Rows};
use ref_store::Slot;
use std::alloc::Global;

impl Index {
    pub(super) fn apply_space(
        &mut self,
        space: &Namespace,
        ttl: u32,
        pin: u32,
    ) -> Result<(), NoMemory>
        ensures ok { OnOk result (self.new ≡ in_state self.old (after self.old.state (Space space.now ttl pin))) }
        ensures err { OnErr result (self.new ≡ self.old) }
    {
        self.spaces.set(space, SpaceRow { ttl, pin })?;
        Ok(())
    }

    pub(super) fn apply_upload(
        &mut self,
        alloc: Global,
        space: &Namespace,
        blob: &Stored,
        hour: u32,
    ) -> Result<(), NoMemory>
        requires { is_fresh self.old.state space.now blob.now ≡ true }
        ensures ok { OnOk result (self.new ≡ in_state self.old (after self.old.state (Upload space.now hour blob.now))) }
        ensures err { OnErr result (self.new ≡ self.old) }
    {
        self.add_blob(alloc, space, blob, hour)?;
        self.raise(hour);
        Ok(())
    }

    pub(super) fn apply_repin(&mut self, space: &Namespace, hash: &IoHash, hour: u32)
        ensures { self.new ≡ in_state self.old (after self.old.state (Repin space.now hash.now hour)) }
    {
        self.pin_blob(space, hash, hour);
        self.raise(hour);
    }

    pub(super) fn apply_put(
        &mut self,
        alloc: Global,
        name: &RefName,
        root: &IoHash,
        fresh: &Option<Stored>,
        whole: bool,
        hour: u32,
    ) -> Result<(), NoMemory>
        requires root { is_root self.old.state name.now.space root.now fresh.now ≡ true }
        requires numbers { whole ≡ true → has_numbers self.old.state name.now.space (count_added (done_of (map.get self.old.state.slots name.now)) root.now) ≡ true }
        ensures ok { OnOk result (self.new ≡ in_state self.old (after self.old.state (Put name.now root.now fresh.now whole hour))) }
        ensures err { OnErr result (self.new ≡ self.old) }
    {
        match fresh {
            None => {
                self.put_slot(alloc, name, root, whole, hour)?;
                self.pin_blob(&name.space, root, hour);
            }
            Some(blob) => {
                self.add_blob(alloc, &name.space, blob, hour)?;
                if let Err(NoMemory) = self.put_slot(alloc, name, root, whole, hour) {
                    self.remove_blob(&name.space, &blob.hash);
                    return Err(NoMemory);
                }
            }
        }
        self.raise(hour);
        Ok(())
    }

    pub(super) fn apply_finalise(
        &mut self,
        alloc: Global,
        name: &RefName,
        hash: &IoHash,
        hour: u32,
    ) -> Result<(), NoMemory>
        requires pending { is_hash (pending_of (map.get self.old.state.slots name.now)) hash.now ≡ true }
        requires numbers { has_numbers self.old.state name.now.space (count_added (done_of (map.get self.old.state.slots name.now)) hash.now) ≡ true }
        ensures ok { OnOk result (self.new ≡ in_state self.old (after self.old.state (Finalise name.now hash.now hour))) }
        ensures err { OnErr result (self.new ≡ self.old) }
    {
        let old = self.done(name);
        self.note_added(alloc, name, old, hash)?;
        let slot = Slot {
            done: Some(*hash),
            pending: None,
            seen: hour,
        };
        self.replace_slot(name, slot);
        self.raise(hour);
        Ok(())
    }

    pub(super) fn apply_delete(
        &mut self,
        alloc: Global,
        name: &RefName,
        hour: u32,
    ) -> Result<(), NoMemory>
        requires { has_numbers self.old.state name.now.space (count_deleted (done_of (map.get self.old.state.slots name.now))) ≡ true }
        ensures ok { OnOk result (self.new ≡ in_state self.old (after self.old.state (Delete name.now hour))) }
        ensures err { OnErr result (self.new ≡ self.old) }
    {
        let old = self.done(name);
        self.note_deleted(alloc, name, old)?;
        self.drop_slot(name);
        self.raise(hour);
        Ok(())
    }

    pub(super) fn apply_touch(&mut self, name: &RefName, hour: u32) -> Result<(), NoMemory>
        ensures ok { OnOk result (self.new ≡ in_state self.old (after self.old.state (Touch name.now hour))) }
        ensures err { OnErr result (self.new ≡ self.old) }
    {
        if let Some(slot) = self.refs.get(name) {
            self.refs.set(name, Slot { seen: hour, ..slot })?;
        }
        self.raise(hour);
        Ok(())
    }

    pub(super) fn apply_swept(&mut self, space: &Namespace, hashes: &[IoHash])
        ensures { self.new ≡ in_state self.old (after self.old.state (Swept space.now hashes.now)) }
    {
        for hash in hashes {
            self.remove_blob(space, hash);
        }
    }

    pub(super) fn apply_cursor(
        &mut self,
        space: &Namespace,
        cursor: &Cursor,
    ) -> Result<(), NoMemory>
        ensures ok { OnOk result (self.new ≡ in_state self.old (record self.old.state { cursors = map.insert self.old.state.cursors space.now cursor.now })) }
        ensures err { OnErr result (self.new ≡ self.old) }
    {
        self.cursors.set_copy(space, cursor)?;
        Ok(())
    }

    pub(super) fn apply_base_slot(
        &mut self,
        name: &RefName,
        done: Option<IoHash>,
        pending: Option<IoHash>,
        seen: u32,
    ) -> Result<(), NoMemory>
        ensures ok { OnOk result (self.new ≡ in_state self.old (after self.old.state (BaseSlot name.now done pending seen))) }
        ensures err { OnErr result (self.new ≡ self.old) }
    {
        let slot = Slot {
            done,
            pending,
            seen,
        };
        self.set_slot(name, slot)?;
        Ok(())
    }

    pub(super) fn raise(&mut self, hour: u32)
        ensures { self.new ≡ in_state self.old (at_hour self.old.state hour) }
    {
        self.hour = self.hour.max(hour);
    }

    fn add_blob(
        &mut self,
        alloc: Global,
        space: &Namespace,
        blob: &Stored,
        hour: u32,
    ) -> Result<(), NoMemory>
        requires { is_fresh self.old.state space.now blob.now ≡ true }
        ensures ok { OnOk result (self.new ≡ in_state self.old (with_blob self.old.state space.now blob.now hour)) }
        ensures err { OnErr result (self.new ≡ self.old) }
    {
        let kept = stored_blob(alloc, blob, hour)?;
        let extent = kept.row.extent;
        let name = BlobName {
            space: *space,
            hash: blob.hash,
        };
        self.area.claim(extent)?;
        if let Err(NoMemory) = self.blobs.add(&name, kept) {
            self.area.release(extent);
            return Err(NoMemory);
        }
        Ok(())
    }

    fn pin_blob(&mut self, space: &Namespace, hash: &IoHash, hour: u32)
        ensures { self.new ≡ in_state self.old (with_pin self.old.state space.now hash.now hour) }
    {
        let name = BlobName {
            space: *space,
            hash: *hash,
        };
        self.blobs.pin(&name, hour);
    }

    fn remove_blob(&mut self, space: &Namespace, hash: &IoHash)
        ensures { self.new ≡ in_state self.old (without_blob self.old.state space.now hash.now) }
    {
        let name = BlobName {
            space: *space,
            hash: *hash,
        };
        if let Some(row) = self.blobs.remove(&name) {
            self.area.release(row.extent);
        }
    }

    // Gives a reference its slot after a put, and notes what the put finalises.
    fn put_slot(
        &mut self,
        alloc: Global,
        name: &RefName,
        root: &IoHash,
        whole: bool,
        hour: u32,
    ) -> Result<(), NoMemory>
        requires { whole ≡ true → has_numbers self.old.state name.now.space (count_added (done_of (map.get self.old.state.slots name.now)) root.now) ≡ true }
        ensures ok { OnOk result (self.new ≡ in_state self.old (with_slot (noted_put self.old.state name.now root.now whole) name.now (slot_after (map.get self.old.state.slots name.now) root.now whole hour))) }
        ensures err { OnErr result (self.new ≡ self.old) }
    {
        let Some(before) = self.slot(name) else {
            let slot = slot_after_put(None, *root, whole, hour);
            self.put_new_slot(alloc, name, root, whole, slot)?;
            return Ok(());
        };
        let slot = slot_after_put(Some(before), *root, whole, hour);
        self.note_put(alloc, name, before.done, root, whole)?;
        self.replace_slot(name, slot);
        Ok(())
    }

    // The same for a reference that isn't there. An event can't be taken back, so it is noted last.
    fn put_new_slot(
        &mut self,
        alloc: Global,
        name: &RefName,
        root: &IoHash,
        whole: bool,
        slot: Slot,
    ) -> Result<(), NoMemory>
        requires new { map.get self.old.state.slots name.now ≡ None }
        requires numbers { whole ≡ true → has_numbers self.old.state name.now.space 1 ≡ true }
        ensures ok { OnOk result (self.new ≡ in_state self.old (with_slot (noted_where whole self.old.state name.now None root.now) name.now slot)) }
        ensures err { OnErr result (self.new ≡ self.old) }
    {
        self.set_slot(name, slot)?;
        if let Err(NoMemory) = self.note_put(alloc, name, None, root, whole) {
            self.drop_slot(name);
            return Err(NoMemory);
        }
        Ok(())
    }

    // Gives a reference that is there another slot, which takes no memory.
    fn replace_slot(&mut self, name: &RefName, slot: Slot)
        requires { is_some (map.get self.old.state.slots name.now) ≡ true }
        ensures { self.new ≡ in_state self.old (with_slot self.old.state name.now slot) }
    {
        match self.set_slot(name, slot) {
            Ok(()) => {}
            Err(NoMemory) => unreachable!(),
        }
    }

    fn set_slot(&mut self, name: &RefName, slot: Slot) -> Result<(), NoMemory>
        ensures ok { OnOk result (self.new ≡ in_state self.old (with_slot self.old.state name.now slot)) }
        ensures err { OnErr result (self.new ≡ self.old) }
        ensures only_for_a_new_name { OnErr result (map.get self.old.state.slots name.now ≡ None) }
    {
        self.refs.set(name, slot)?;
        Ok(())
    }

    pub(super) fn drop_slot(&mut self, name: &RefName)
        ensures { self.new ≡ in_state self.old (record self.old.state { slots = map.remove self.old.state.slots name.now }) }
    {
        self.refs.remove(name);
    }
}

// A reference after a put of this object.
fn slot_after_put(slot: Option<Slot>, root: IoHash, whole: bool, hour: u32) -> Slot
    ensures { result ≡ slot_after slot root whole hour }
{
    let (done, pending) = if whole {
        (Some(root), None)
    } else {
        (done_in(slot), Some(root))
    };
    Slot {
        done,
        pending,
        seen: hour,
    }
}

// What is kept of a blob that is added at this hour.
fn stored_blob(alloc: Global, blob: &Stored, hour: u32) -> Result<Blob, NoMemory>
    requires { blob.now.len ≤ most_bytes }
    ensures { IfOk result (λ kept. kept ≡ blob_of blob.now hour) }
{
    let links = Vec::from_slice(alloc, blob.links.as_slice())?;
    Ok(Blob {
        row: BlobRow {
            len: blob.len,
            at: hour,
            extent: blob_extent(blob),
        },
        links: Rows::of_vec(links),
    })
}
