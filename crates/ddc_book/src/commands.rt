//! The commands that change a store.

ghost use Rattle.std.specs.Prelude.{◌≡◌, ◌≤◌, true, false, [], length, None, Some, Err, Ok, is_some, option_map, IfOk};
ghost use Rattle.ddc_names.specs.Causes.{Rose};
ghost use Rattle.ddc_model.specs.declared.entry.Entry.TheVariants.{Put};
ghost use Rattle.ddc_model.specs.Limits.{most_bytes};
ghost use Rattle.ddc_model.specs.State.{blob_at, has_space};
ghost use Rattle.ddc_model.specs.Entries.{is_time};
ghost use Rattle.ddc_model.specs.Content.{IsContent, content_hash};
ghost use Rattle.ddc_model.specs.Commands.{hour_of, is_done, needs_none, stored_content, SpaceAs, UploadAs, PutAs, FinaliseAs};
ghost use Rattle.ddc_model.specs.History.{past_of, WithRoom};
ghost use Rattle.ddc_model.specs.Reads.{DeleteAs, HeldAs};
ghost use Rattle.ddc_book.specs.Calls.{CommandGives, ReaderGives, GoesOn, got};
ghost use Rattle.ddc_book.specs.inside.Making.{touch_with_room, IsServing};
ghost use Rattle.ddc_book.specs.View.{book_faults};

use crate::{Book, Held};
use ddc_disk::Disk;
use ddc_model::{Entry, NameBox, StoreFault, Stored};
use ddc_names::{IoHash, Namespace, NoMemory, RefName, Rows};
use ddc_state::Checked;
use std::alloc::Global;

impl<D: Disk> Book<D> {
    /// Makes a namespace, or sets the times of one that is there, in hours: 1 to 1,000,000.
    ///
    /// # Errors
    ///
    /// `Broken`, `Full` of namespaces, `HistoryFull`, `NoMemory` or `DiskFailed`. The book is as before, but after
    /// `DiskFailed`.
    pub fn set_space(
        &mut self,
        alloc: Global,
        space: Namespace,
        ttl: u32,
        pin: u32,
    ) -> Result<(), StoreFault>
        requires ttl { is_time ttl ≡ true }
        requires pin { is_time pin ≡ true }
        ensures gives { CommandGives D.meaning self.old [] self.new (WithRoom self.old.cache.index (past_of self.old.steps) (SpaceAs self.old.cache.index space ttl pin)) result }
        ensures goes_on { GoesOn D.tells D.meaning self.old [] self.new }
        ensures cause { result ≡ Err StoreFault.DiskFailed → Rose (book_faults D.meaning self.old) (book_faults D.meaning self.new) }
    {
        if let Some(faults) = self.broken() {
            return Err(StoreFault::Broken { faults });
        }
        if let Some(fault) = self.full(self.added_spaces(&space), None, 0) {
            return Err(fault);
        }
        self.make(alloc, Entry::Space { space, ttl, pin }, None, ())
    }

    /// Stores a blob of at most 67,108,864 bytes in a namespace at this hour. A blob that is there is pinned from this
    /// hour on.
    ///
    /// # Errors
    ///
    /// `Broken`, `UnknownSpace`, `Full` of blobs, links or units, `HistoryFull`, `NoMemory` or `DiskFailed`. The book is as
    /// before, but after `DiskFailed`.
    pub fn upload(
        &mut self,
        alloc: Global,
        space: Namespace,
        blob: Checked,
        hour: u32,
    ) -> Result<(), StoreFault>
        requires { length blob.bytes ≤ most_bytes }
        ensures gives { CommandGives D.meaning self.old blob.bytes self.new (WithRoom self.old.cache.index (past_of self.old.steps) (UploadAs self.old.cache.index space blob hour)) result }
        ensures goes_on { GoesOn D.tells D.meaning self.old blob.bytes self.new }
        ensures cause { result ≡ Err StoreFault.DiskFailed → Rose (book_faults D.meaning self.old) (book_faults D.meaning self.new) }
    {
        if let Some(faults) = self.broken() {
            return Err(StoreFault::Broken { faults });
        }
        if !self.has_space(&space) {
            return Err(StoreFault::UnknownSpace);
        }
        match self.pinned_at(&space, &hash_of(&blob)) {
            None => self.upload_new(alloc, &space, blob, hour),
            Some(at) => self.upload_known(alloc, &space, &blob, at, hour),
        }
    }

    /// Puts an object of at most 67,108,864 bytes under a reference at this hour, and gives the hashes that are missing
    /// of what it reaches, ascending. Where there is none, the reference is finalised. Where there are some it keeps what
    /// was finalised before, and the object is pending.
    ///
    /// # Errors
    ///
    /// `Broken`, `UnknownSpace`, `Full` of blobs, references, links or units, `HistoryFull`, `NoMemory` or `DiskFailed`. The
    /// book is as before, but after `DiskFailed`.
    pub fn put(
        &mut self,
        alloc: Global,
        name: RefName,
        object: Checked,
        hour: u32,
    ) -> Result<Rows<IoHash>, StoreFault>
        requires is_object { object.is_object ≡ true }
        requires short { length object.bytes ≤ most_bytes }
        ensures gives { CommandGives D.meaning self.old object.bytes self.new (WithRoom self.old.cache.index (past_of self.old.steps) (PutAs self.old.cache.index name object hour)) result }
        ensures goes_on { GoesOn D.tells D.meaning self.old object.bytes self.new }
        ensures cause { result ≡ Err StoreFault.DiskFailed → Rose (book_faults D.meaning self.old) (book_faults D.meaning self.new) }
    {
        if let Some(faults) = self.broken() {
            return Err(StoreFault::Broken { faults });
        }
        if !self.has_space(&name.space) {
            return Err(StoreFault::UnknownSpace);
        }
        match self.pinned_at(&name.space, &hash_of(&object)) {
            None => self.put_new(alloc, &name, object, hour),
            Some(_) => self.put_known(alloc, &name, &object, hour),
        }
    }

    /// Finalises a reference at this hour, where its pending object has this hash, and gives the hashes that are
    /// missing of what that reaches, ascending. Where there are some it stays pending. Of an object that is finalised
    /// nothing is missing.
    ///
    /// # Errors
    ///
    /// `Broken`, `UnknownSpace`, `NotFound` of the reference, `NotPending` where it has another object, `HistoryFull`,
    /// `NoMemory` or `DiskFailed`. The book is as before, but after `DiskFailed`.
    pub fn finalise(
        &mut self,
        alloc: Global,
        name: &RefName,
        hash: IoHash,
        hour: u32,
    ) -> Result<Rows<IoHash>, StoreFault>
        ensures gives { CommandGives D.meaning self.old [] self.new (WithRoom self.old.cache.index (past_of self.old.steps) (FinaliseAs self.old.cache.index name.now hash hour)) result }
        ensures goes_on { GoesOn D.tells D.meaning self.old [] self.new }
        ensures cause { result ≡ Err StoreFault.DiskFailed → Rose (book_faults D.meaning self.old) (book_faults D.meaning self.new) }
    {
        if let Some(faults) = self.broken() {
            return Err(StoreFault::Broken { faults });
        }
        match self.is_done(name, &hash) {
            Err(fault) => Err(fault),
            Ok(true) => Ok(Rows::new(alloc)),
            Ok(false) => self.finalise_pending(alloc, name, hash, hour),
        }
    }

    /// The finalised object of a reference, which was read at this hour. Where the history has no room, the reference
    /// keeps the hour of its last reading.
    ///
    /// # Errors
    ///
    /// `Broken`, `UnknownSpace`, `NotFound` of the reference, `NotFinalised`, `NoMemory`, `DiskFailed`, or `Damaged`
    /// where the object's bytes have another hash. The book is as before, but after `DiskFailed`.
    pub fn get_ref(&mut self, alloc: Global, name: &RefName, hour: u32) -> Result<Held, StoreFault>
        ensures gives { ReaderGives D.meaning self.old self.new (λ answer made. HeldAs self.old.cache (past_of self.old.steps) name.now hour (got answer) made) result }
        ensures goes_on { GoesOn D.tells D.meaning self.old [] self.new }
        ensures cause { result ≡ Err StoreFault.DiskFailed → Rose (book_faults D.meaning self.old) (book_faults D.meaning self.new) }
    {
        if let Some(faults) = self.broken() {
            return Err(StoreFault::Broken { faults });
        }
        let hash = match self.object_of(name) {
            Ok(hash) => hash,
            Err(fault) => return Err(fault),
        };
        let bytes = match self.read_blob(alloc, &name.space, hash) {
            Ok(bytes) => bytes,
            Err(fault) => return Err(fault),
        };
        let held = Held { hash, bytes };
        let Ok(touch) = self.touch(alloc, name, hour) else {
            return Err(StoreFault::NoMemory);
        };
        match touch {
            None => Ok(held),
            Some(entry) => match self.commit(alloc, entry, None) {
                Ok(()) => Ok(held),
                Err(fault) => Err(fault),
            },
        }
    }

    /// Takes a reference away at this hour.
    ///
    /// # Errors
    ///
    /// `Broken`, `UnknownSpace`, `NotFound` of the reference, `HistoryFull`, `NoMemory` or `DiskFailed`. The book is as
    /// before, but after `DiskFailed`.
    pub fn delete(&mut self, alloc: Global, name: &RefName, hour: u32) -> Result<(), StoreFault>
        ensures gives { CommandGives D.meaning self.old [] self.new (WithRoom self.old.cache.index (past_of self.old.steps) (DeleteAs self.old.cache.index name.now hour)) result }
        ensures goes_on { GoesOn D.tells D.meaning self.old [] self.new }
        ensures cause { result ≡ Err StoreFault.DiskFailed → Rose (book_faults D.meaning self.old) (book_faults D.meaning self.new) }
    {
        if let Some(faults) = self.broken() {
            return Err(StoreFault::Broken { faults });
        }
        if !self.has_space(&name.space) {
            return Err(StoreFault::UnknownSpace);
        }
        if self.added_refs(name) == 1 {
            return Err(StoreFault::NotFound);
        }
        let Ok(name) = NameBox::new(alloc, *name) else {
            return Err(StoreFault::NoMemory);
        };
        let entry = Entry::Delete {
            name,
            hour: self.hour_of(hour),
        };
        self.make(alloc, entry, None, ())
    }
}

// The parts of the commands.
impl<D: Disk> Book<D> {
    // What an entry says of a blob that is added: it stands in the first run of free units.
    fn stored(&self, alloc: Global, blob: &Checked) -> Result<Stored, NoMemory>
        requires { length blob.now.bytes ≤ most_bytes }
        ensures stored { IfOk result (λ fresh. fresh ≡ stored_content self.now.cache.index blob.now) }
        ensures read { IsContent blob.now }
    {
        let links = Vec::from_slice(alloc, blob.links())?;
        let len = blob.whole().bytes().len() as u64;
        Ok(Stored {
            hash: hash_of(blob),
            len,
            start: self.index.free_run(len).unwrap_or(0),
            links: Rows::of_vec(links),
        })
    }

    // Stores a blob that isn't there.
    fn upload_new(
        &mut self,
        alloc: Global,
        space: &Namespace,
        blob: Checked,
        hour: u32,
    ) -> Result<(), StoreFault>
        requires serves { IsServing D.tells D.meaning self.old }
        requires known { has_space self.old.cache.index space.now ≡ true }
        requires absent { option_map (λ found. found.row.at) (blob_at self.old.cache.index space.now (content_hash blob.bytes)) ≡ None }
        requires short { length blob.bytes ≤ most_bytes }
        ensures gives { CommandGives D.meaning self.old blob.bytes self.new (WithRoom self.old.cache.index (past_of self.old.steps) (UploadAs self.old.cache.index space.now blob hour)) result }
        ensures goes_on { GoesOn D.tells D.meaning self.old blob.bytes self.new }
        ensures cause { result ≡ Err StoreFault.DiskFailed → Rose (book_faults D.meaning self.old) (book_faults D.meaning self.new) }
    {
        let Ok(fresh) = self.stored(alloc, &blob) else {
            return Err(StoreFault::NoMemory);
        };
        if let Some(fault) = self.full(0, Some(&fresh), 0) {
            return Err(fault);
        }
        let entry = Entry::Upload {
            space: *space,
            hour: self.hour_of(hour),
            blob: fresh,
        };
        self.make(alloc, entry, Some(blob.into_whole()), ())
    }

    // Pins a blob that is there, and was stored or named last at this hour.
    fn upload_known(
        &mut self,
        alloc: Global,
        space: &Namespace,
        blob: &Checked,
        at: u32,
        hour: u32,
    ) -> Result<(), StoreFault>
        requires serves { IsServing D.tells D.meaning self.old }
        requires known { has_space self.old.cache.index space.now ≡ true }
        requires there { option_map (λ found. found.row.at) (blob_at self.old.cache.index space.now (content_hash blob.now.bytes)) ≡ Some at }
        requires short { length blob.now.bytes ≤ most_bytes }
        ensures gives { CommandGives D.meaning self.old blob.now.bytes self.new (WithRoom self.old.cache.index (past_of self.old.steps) (UploadAs self.old.cache.index space.now blob.now hour)) result }
        ensures goes_on { GoesOn D.tells D.meaning self.old blob.now.bytes self.new }
        ensures cause { result ≡ Err StoreFault.DiskFailed → Rose (book_faults D.meaning self.old) (book_faults D.meaning self.new) }
    {
        let hour = self.hour_of(hour);
        if at < hour {
            let entry = Entry::Repin {
                space: *space,
                hash: hash_of(blob),
                hour,
            };
            self.make(alloc, entry, None, ())
        } else {
            Ok(())
        }
    }

    // An object is finalised at once where nothing is missing.
    fn put_entry(
        &self,
        alloc: Global,
        name: &RefName,
        root: IoHash,
        fresh: Option<Stored>,
        missing: &Rows<IoHash>,
        hour: u32,
    ) -> Result<Entry, NoMemory>
        ensures { IfOk result (λ entry. entry ≡ Put name.now root fresh (needs_none missing.now) (hour_of self.now.cache.index hour)) }
    {
        Ok(Entry::Put {
            name: NameBox::new(alloc, *name)?,
            root,
            fresh,
            whole: missing.len() == 0,
            hour: self.hour_of(hour),
        })
    }

    // Puts an object that isn't there.
    fn put_new(
        &mut self,
        alloc: Global,
        name: &RefName,
        object: Checked,
        hour: u32,
    ) -> Result<Rows<IoHash>, StoreFault>
        requires serves { IsServing D.tells D.meaning self.old }
        requires known { has_space self.old.cache.index name.now.space ≡ true }
        requires absent { option_map (λ found. found.row.at) (blob_at self.old.cache.index name.now.space (content_hash object.bytes)) ≡ None }
        requires short { length object.bytes ≤ most_bytes }
        ensures gives { CommandGives D.meaning self.old object.bytes self.new (WithRoom self.old.cache.index (past_of self.old.steps) (PutAs self.old.cache.index name.now object hour)) result }
        ensures goes_on { GoesOn D.tells D.meaning self.old object.bytes self.new }
        ensures cause { result ≡ Err StoreFault.DiskFailed → Rose (book_faults D.meaning self.old) (book_faults D.meaning self.new) }
    {
        let Ok(fresh) = self.stored(alloc, &object) else {
            return Err(StoreFault::NoMemory);
        };
        if let Some(fault) = self.full(0, Some(&fresh), self.added_refs(name)) {
            return Err(fault);
        }
        let root = hash_of(&object);
        let Ok(missing) = self.missing_with(alloc, &name.space, root, object.links()) else {
            return Err(StoreFault::NoMemory);
        };
        let Ok(entry) = self.put_entry(alloc, name, root, Some(fresh), &missing, hour) else {
            return Err(StoreFault::NoMemory);
        };
        self.make(alloc, entry, Some(object.into_whole()), missing)
    }

    // Puts an object that is there.
    fn put_known(
        &mut self,
        alloc: Global,
        name: &RefName,
        object: &Checked,
        hour: u32,
    ) -> Result<Rows<IoHash>, StoreFault>
        requires serves { IsServing D.tells D.meaning self.old }
        requires known { has_space self.old.cache.index name.now.space ≡ true }
        requires there { is_some (option_map (λ found. found.row.at) (blob_at self.old.cache.index name.now.space (content_hash object.now.bytes))) ≡ true }
        requires short { length object.now.bytes ≤ most_bytes }
        ensures gives { CommandGives D.meaning self.old object.now.bytes self.new (WithRoom self.old.cache.index (past_of self.old.steps) (PutAs self.old.cache.index name.now object.now hour)) result }
        ensures goes_on { GoesOn D.tells D.meaning self.old object.now.bytes self.new }
        ensures cause { result ≡ Err StoreFault.DiskFailed → Rose (book_faults D.meaning self.old) (book_faults D.meaning self.new) }
    {
        if let Some(fault) = self.full(0, None, self.added_refs(name)) {
            return Err(fault);
        }
        let root = hash_of(object);
        let Ok(missing) = self.missing(alloc, &name.space, root) else {
            return Err(StoreFault::NoMemory);
        };
        let Ok(entry) = self.put_entry(alloc, name, root, None, &missing, hour) else {
            return Err(StoreFault::NoMemory);
        };
        self.make(alloc, entry, None, missing)
    }

    // Finalises a reference whose pending object this is, where nothing is missing of what it reaches.
    fn finalise_pending(
        &mut self,
        alloc: Global,
        name: &RefName,
        hash: IoHash,
        hour: u32,
    ) -> Result<Rows<IoHash>, StoreFault>
        requires serves { IsServing D.tells D.meaning self.old }
        requires pending { is_done self.old.cache.index name.now hash ≡ Ok false }
        ensures gives { CommandGives D.meaning self.old [] self.new (WithRoom self.old.cache.index (past_of self.old.steps) (FinaliseAs self.old.cache.index name.now hash hour)) result }
        ensures goes_on { GoesOn D.tells D.meaning self.old [] self.new }
        ensures cause { result ≡ Err StoreFault.DiskFailed → Rose (book_faults D.meaning self.old) (book_faults D.meaning self.new) }
    {
        let Ok(missing) = self.missing(alloc, &name.space, hash) else {
            return Err(StoreFault::NoMemory);
        };
        if missing.len() == 0 {
            let Ok(name) = NameBox::new(alloc, *name) else {
                return Err(StoreFault::NoMemory);
            };
            let entry = Entry::Finalise {
                name,
                hash,
                hour: self.hour_of(hour),
            };
            self.make(alloc, entry, None, missing)
        } else {
            Ok(missing)
        }
    }

    // A reference that was read at an earlier hour is touched, where the history has room for it.
    fn touch(&self, alloc: Global, name: &RefName, hour: u32) -> Result<Option<Entry>, NoMemory>
        ensures { IfOk result (λ made. made ≡ touch_with_room self.now.cache.index (past_of self.now.steps) name.now hour) }
    {
        let Some(entry) = self.touch_entry(alloc, name, hour)? else {
            return Ok(None);
        };
        match self.no_room(&entry) {
            None => Ok(Some(entry)),
            Some(_) => Ok(None),
        }
    }
}

fn hash_of(blob: &Checked) -> IoHash
    ensures hash { result ≡ content_hash blob.now.bytes }
    ensures read { IsContent blob.now }
{
    blob.whole().hash()
}
