//! A book that is passed between threads.

ghost use Rattle.std.specs.Prelude.{◌≡◌, ◌⊎◌, ◌≤◌, true, IsTrue, [], None, Err, length};
ghost use Rattle.ddc_names.specs.Causes.{Rose};
ghost use Rattle.ddc_disk.specs.Disk.{EachImage, Timeline};
ghost use Rattle.ddc_disk.specs.Images.{devices_line, Images};
ghost use Rattle.ddc_model.specs.Limits.{most_bytes};
ghost use Rattle.ddc_model.specs.Entries.{is_time};
ghost use Rattle.ddc_model.specs.Commands.{SpaceAs, UploadAs, PutAs, FinaliseAs};
ghost use Rattle.ddc_model.specs.History.{broken_by, past_of, unless_broken, WithRoom};
ghost use Rattle.ddc_model.specs.Reads.{length_at, peek, ServesAs, VerifiesAs, DeleteAs, HeldAs};
ghost use Rattle.ddc_book.specs.Calls.{got, opened_bytes, CommandGives, ReaderGives, Only, GoesOn, IsExist};
ghost use Rattle.ddc_opening.specs.Opening.{OpensAs};
ghost use Rattle.ddc_book.specs.Tied.{GoesOnFrom};
ghost use Rattle.ddc_book.specs.View.{book_faults, limits_of, opened_count, sure_count, IsHonest, EachFrom, OpensFrom};

use crate::{Book, Held, Opened};
use ddc_disk::{Devices, Disk};
use ddc_model::{Step, StoreFault};
use ddc_names::{IoHash, Namespace, RefName, Rows};
use ddc_state::{Checked, Index};
use std::alloc::Global;
use std::marker::{Brand, Model, PhantomData};

/// What crashes left of the devices that were handed in, up to then. The call that hands them in picks it.
pub trait Opening {
    ghost start: { Timeline Images };
}

impl Opening for Brand {
    ghost start = { record { moment = 0; left = λ _ _. Unit {0} } };
}

/// A book that is passed between threads, and whose devices, when they come back, are known to be those that were handed
/// in. Contracts see the book. Each call is the book's own.
#[derive(Drop)]
pub struct Tied<D: Disk, K: Opening> {
    book: Book<D>,
    of: PhantomData<K>,
}

impl<D: Disk, K: Opening> Model for Tied<D, K> {
    ghost use Rattle.ddc_book.specs.Tied.{GoesOnFrom};
    ghost use Rattle.ddc_book.specs.View.{BookView, coded_book};

    ghost Value = { BookView D };

    ghost coded = { coded_book D.code };

    ghost view = { λ t. t.book };

    ghost invariant = { λ t. GoesOnFrom K.start D.meaning t.book.devices };
}

impl<D: Disk, K: Opening> Tied<D, K> {
    /// Ties a book to the devices that were handed in.
    pub fn new(book: Book<D>) -> Tied<D, K>
        requires { GoesOnFrom K.start D.meaning book.devices }
        ensures { result ≡ book }
    {
        Tied {
            book,
            of: PhantomData,
        }
    }

    /// Gives the devices back, which are those that were handed in.
    pub fn into_devices(self) -> Devices<D>
        ensures devices { result ≡ self.devices }
        ensures tied { GoesOnFrom K.start D.meaning result }
        ensures opened { IsTrue D.tells → broken_by self.steps ≡ None → EachImage (devices_line D.meaning result) (λ im. OpensAs (limits_of self) im self.cache) }
        ensures since { IsHonest D.tells (devices_line D.meaning result) (limits_of self) self.opened → EachFrom (devices_line D.meaning result) self.opened (OpensFrom (opened_count self.steps) (limits_of self) self.steps) }
        ensures last { IsHonest D.tells (devices_line D.meaning result) (limits_of self) self.opened → EachImage (devices_line D.meaning result) (OpensFrom (sure_count self.steps) (limits_of self) self.steps) }
    {
        let Tied { book, of: _ } = self;
        book.into_devices()
    }

    /// The index.
    pub fn index(&self) -> &Index
        ensures state { result.now.state ≡ self.now.cache.index }
        ensures reads { result.now.reads ≡ self.now.reads }
    {
        self.book.index()
    }

    /// The steps since before the opening.
    pub fn steps(&self) -> &[Step]
        ensures { result.now ≡ self.now.steps }
    {
        self.book.steps()
    }

    /// The number of steps.
    pub fn count(&self) -> u64
        ensures { result ≡ length self.now.steps }
    {
        self.book.count()
    }

    /// How often the devices have failed, up to 2^64 - 1.
    pub fn faults(&self) -> u64
        ensures { result ≡ book_faults D.meaning self.now }
    {
        self.book.faults()
    }
}

// The commands that change a store.
impl<D: Disk, K: Opening> Tied<D, K> {
    /// See [`Book::set_space`].
    pub fn set_space(
        &mut self,
        alloc: Global,
        space: Namespace,
        ttl: u32,
        pin: u32,
    ) -> Result<(), StoreFault>
        requires ttl { is_time ttl ≡ true }
        requires pin { is_time pin ≡ true }
        ensures gives { CommandGives D.meaning self.old [] self.new (WithRoom self.old.cache.index (past_of self.old.steps) (SpaceAs self.old.cache.index space ttl pin)) result }
        ensures goes_on { GoesOn D.tells D.meaning self.old [] self.new }
        ensures cause { result ≡ Err StoreFault.DiskFailed → Rose (book_faults D.meaning self.old) (book_faults D.meaning self.new) }
    {
        self.book.set_space(alloc, space, ttl, pin)
    }

    /// See [`Book::upload`].
    pub fn upload(
        &mut self,
        alloc: Global,
        space: Namespace,
        blob: Checked,
        hour: u32,
    ) -> Result<(), StoreFault>
        requires { length blob.bytes ≤ most_bytes }
        ensures gives { CommandGives D.meaning self.old blob.bytes self.new (WithRoom self.old.cache.index (past_of self.old.steps) (UploadAs self.old.cache.index space blob hour)) result }
        ensures goes_on { GoesOn D.tells D.meaning self.old blob.bytes self.new }
        ensures cause { result ≡ Err StoreFault.DiskFailed → Rose (book_faults D.meaning self.old) (book_faults D.meaning self.new) }
    {
        self.book.upload(alloc, space, blob, hour)
    }

    /// See [`Book::put`].
    pub fn put(
        &mut self,
        alloc: Global,
        name: RefName,
        object: Checked,
        hour: u32,
    ) -> Result<Rows<IoHash>, StoreFault>
        requires is_object { object.is_object ≡ true }
        requires short { length object.bytes ≤ most_bytes }
        ensures gives { CommandGives D.meaning self.old object.bytes self.new (WithRoom self.old.cache.index (past_of self.old.steps) (PutAs self.old.cache.index name object hour)) result }
        ensures goes_on { GoesOn D.tells D.meaning self.old object.bytes self.new }
        ensures cause { result ≡ Err StoreFault.DiskFailed → Rose (book_faults D.meaning self.old) (book_faults D.meaning self.new) }
    {
        self.book.put(alloc, name, object, hour)
    }

    /// See [`Book::finalise`].
    pub fn finalise(
        &mut self,
        alloc: Global,
        name: &RefName,
        hash: IoHash,
        hour: u32,
    ) -> Result<Rows<IoHash>, StoreFault>
        ensures gives { CommandGives D.meaning self.old [] self.new (WithRoom self.old.cache.index (past_of self.old.steps) (FinaliseAs self.old.cache.index name.now hash hour)) result }
        ensures goes_on { GoesOn D.tells D.meaning self.old [] self.new }
        ensures cause { result ≡ Err StoreFault.DiskFailed → Rose (book_faults D.meaning self.old) (book_faults D.meaning self.new) }
    {
        self.book.finalise(alloc, name, hash, hour)
    }

    /// See [`Book::get_ref`].
    pub fn get_ref(&mut self, alloc: Global, name: &RefName, hour: u32) -> Result<Held, StoreFault>
        ensures gives { ReaderGives D.meaning self.old self.new (λ answer made. HeldAs self.old.cache (past_of self.old.steps) name.now hour (got answer) made) result }
        ensures goes_on { GoesOn D.tells D.meaning self.old [] self.new }
        ensures cause { result ≡ Err StoreFault.DiskFailed → Rose (book_faults D.meaning self.old) (book_faults D.meaning self.new) }
    {
        self.book.get_ref(alloc, name, hour)
    }

    /// See [`Book::delete`].
    pub fn delete(&mut self, alloc: Global, name: &RefName, hour: u32) -> Result<(), StoreFault>
        ensures gives { CommandGives D.meaning self.old [] self.new (WithRoom self.old.cache.index (past_of self.old.steps) (DeleteAs self.old.cache.index name.now hour)) result }
        ensures goes_on { GoesOn D.tells D.meaning self.old [] self.new }
        ensures cause { result ≡ Err StoreFault.DiskFailed → Rose (book_faults D.meaning self.old) (book_faults D.meaning self.new) }
    {
        self.book.delete(alloc, name, hour)
    }
}

// The commands that read a store.
impl<D: Disk, K: Opening> Tied<D, K> {
    /// See [`Book::peek_ref`].
    pub fn peek_ref(&self, name: &RefName) -> Result<(IoHash, u64), StoreFault>
        ensures { result ≡ unless_broken self.now.steps (peek self.now.cache.index name.now) }
    {
        self.book.peek_ref(name)
    }

    /// See [`Book::has_blob`].
    pub fn has_blob(&self, space: &Namespace, hash: IoHash) -> Result<u64, StoreFault>
        ensures { result ≡ unless_broken self.now.steps (length_at self.now.cache.index space.now hash) }
    {
        self.book.has_blob(space, hash)
    }

    /// See [`Book::open_blob`].
    pub fn open_blob(
        &mut self,
        alloc: Global,
        space: &Namespace,
        hash: IoHash,
    ) -> Result<Opened, StoreFault>
        ensures gives { ReaderGives D.meaning self.old self.new (Only (λ answer. ServesAs self.old.cache space.now hash (opened_bytes answer))) result }
        ensures goes_on { GoesOn D.tells D.meaning self.old [] self.new }
        ensures cause { result ≡ Err StoreFault.DiskFailed → Rose (book_faults D.meaning self.old) (book_faults D.meaning self.new) }
    {
        self.book.open_blob(alloc, space, hash)
    }

    /// See [`Book::exist`].
    pub fn exist(
        &self,
        alloc: Global,
        space: &Namespace,
        hashes: &[IoHash],
    ) -> Result<Rows<IoHash>, StoreFault>
        ensures { ((broken_by self.now.steps ≡ None) × (result ≡ Err StoreFault.NoMemory)) ⊎ IsExist self.now space.now hashes.now result }
    {
        self.book.exist(alloc, space, hashes)
    }

    /// See [`Book::verify`].
    pub fn verify(
        &mut self,
        alloc: Global,
        space: &Namespace,
        hash: IoHash,
    ) -> Result<(), StoreFault>
        ensures gives { ReaderGives D.meaning self.old self.new (Only (VerifiesAs self.old.cache space.now hash)) result }
        ensures goes_on { GoesOn D.tells D.meaning self.old [] self.new }
        ensures cause { result ≡ Err StoreFault.DiskFailed → Rose (book_faults D.meaning self.old) (book_faults D.meaning self.new) }
    {
        self.book.verify(alloc, space, hash)
    }
}
