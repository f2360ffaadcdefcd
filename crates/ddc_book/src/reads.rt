//! The commands that read a store.

ghost use Rattle.std.specs.Prelude.{◌≡◌, ◌⊎◌, ◌≤◌, ◌^◌, [], ℕ, List, None, Some, Err, IfErr, IfOk, IfSome, OnOk, length, option_map};
ghost use Rattle.std.specs.List.Sorted.{IsStrictlySortedBy};
ghost use Rattle.ddc_names.specs.Causes.{Rose};
ghost use Rattle.ddc_names.specs.Orders.{io_hash_cmp};
ghost use Rattle.ddc_disk.specs.Disk.{IsSure};
ghost use Rattle.ddc_disk.specs.Images.{devices_faults};
ghost use Rattle.blob_store.specs.Bytes.{bytes_from, first_byte, LieIn};
ghost use Rattle.ddc_model.specs.State.{blob_at};
ghost use Rattle.ddc_model.specs.Extents.{IsPlaced};
ghost use Rattle.ddc_model.specs.Commands.{MayRead};
ghost use Rattle.ddc_model.specs.History.{broken_by, unless_broken};
ghost use Rattle.ddc_model.specs.Reads.{length_at, peek, undamaged, AreAbsent, ServesAs, VerifiesAs};
ghost use Rattle.ddc_opening.specs.Loading.{AsBefore};
ghost use Rattle.ddc_book.specs.Calls.{opened_bytes, BreaksReading, GoesOn, IsExist, Only, ReaderGives, Stays};
ghost use Rattle.ddc_book.specs.inside.Making.{IsServing};
ghost use Rattle.ddc_book.specs.View.{book_faults};

use crate::Book;
use blob_store::read_piece;
use ddc_disk::{Disk, HeldDevices};
use ddc_model::{BlobRow, Extent, StoreFault};
use ddc_names::{ByteList, Failed, IoHash, Namespace, NoMemory, RefName, Rows};
use ddc_state::Index;
use io_hash::io_hash_of;
use std::alloc::Global;
use std::collections::BTreeSet;

/// The finalised object of a reference.
#[derive(Debug, Drop)]
pub struct Held {
    pub hash: IoHash,
    pub bytes: ByteList,
}

/// A blob that was opened.
#[derive(Debug, Drop)]
pub enum Opened {
    /// All its bytes.
    Whole(ByteList),
}

impl<D: Disk> Book<D> {
    /// The hash of the finalised object of a reference, and its length in bytes. The reference isn't touched.
    ///
    /// # Errors
    ///
    /// `Broken`, `UnknownSpace`, `NotFound` of the reference, or `NotFinalised`.
    pub fn peek_ref(&self, name: &RefName) -> Result<(IoHash, u64), StoreFault>
        ensures { result ≡ unless_broken self.now.steps (peek self.now.cache.index name.now) }
    {
        if let Some(faults) = self.broken() {
            return Err(StoreFault::Broken { faults });
        }
        let hash = match self.object_of(name) {
            Ok(hash) => hash,
            Err(fault) => return Err(fault),
        };
        match self.index.blob(&name.space, &hash) {
            Some(row) => Ok((hash, row.len)),
            None => Err(StoreFault::NotFound),
        }
    }

    /// The length of a blob in bytes.
    ///
    /// # Errors
    ///
    /// `Broken`, `UnknownSpace`, or `NotFound` of the blob.
    pub fn has_blob(&self, space: &Namespace, hash: IoHash) -> Result<u64, StoreFault>
        ensures { result ≡ unless_broken self.now.steps (length_at self.now.cache.index space.now hash) }
    {
        if let Some(faults) = self.broken() {
            return Err(StoreFault::Broken { faults });
        }
        if !self.has_space(space) {
            return Err(StoreFault::UnknownSpace);
        }
        match self.index.blob(space, &hash) {
            Some(row) => Ok(row.len),
            None => Err(StoreFault::NotFound),
        }
    }

    /// The bytes of a blob.
    ///
    /// # Errors
    ///
    /// `Broken`, `UnknownSpace`, `NotFound` of the blob, `NoMemory`, `DiskFailed`, or `Damaged` where its bytes have
    /// another hash. The book is as before, but after `DiskFailed`.
    pub fn open_blob(
        &mut self,
        alloc: Global,
        space: &Namespace,
        hash: IoHash,
    ) -> Result<Opened, StoreFault>
        ensures gives { ReaderGives D.meaning self.old self.new (Only (λ answer. ServesAs self.old.cache space.now hash (opened_bytes answer))) result }
        ensures goes_on { GoesOn D.tells D.meaning self.old [] self.new }
        ensures cause { result ≡ Err StoreFault.DiskFailed → Rose (book_faults D.meaning self.old) (book_faults D.meaning self.new) }
    {
        match self.read_blob(alloc, space, hash) {
            Ok(bytes) => Ok(Opened::Whole(bytes)),
            Err(fault) => Err(fault),
        }
    }

    /// The named hashes of which no blob is there, ascending and each once.
    ///
    /// # Errors
    ///
    /// `Broken`, `UnknownSpace` or `NoMemory`.
    pub fn exist(
        &self,
        alloc: Global,
        space: &Namespace,
        hashes: &[IoHash],
    ) -> Result<Rows<IoHash>, StoreFault>
        ensures { ((broken_by self.now.steps ≡ None) × (result ≡ Err StoreFault.NoMemory)) ⊎ IsExist self.now space.now hashes.now result }
    {
        if let Some(faults) = self.broken() {
            return Err(StoreFault::Broken { faults });
        }
        if !self.has_space(space) {
            return Err(StoreFault::UnknownSpace);
        }
        match absent(alloc, &self.index, space, hashes) {
            Ok(list) => Ok(list),
            Err(NoMemory) => Err(StoreFault::NoMemory),
        }
    }

    /// Whether a blob's bytes have its hash.
    ///
    /// # Errors
    ///
    /// `Broken`, `UnknownSpace`, `NotFound` of the blob, `NoMemory`, `DiskFailed`, or `Damaged` where its bytes have
    /// another hash. The book is as before, but after `DiskFailed`.
    pub fn verify(
        &mut self,
        alloc: Global,
        space: &Namespace,
        hash: IoHash,
    ) -> Result<(), StoreFault>
        ensures gives { ReaderGives D.meaning self.old self.new (Only (VerifiesAs self.old.cache space.now hash)) result }
        ensures goes_on { GoesOn D.tells D.meaning self.old [] self.new }
        ensures cause { result ≡ Err StoreFault.DiskFailed → Rose (book_faults D.meaning self.old) (book_faults D.meaning self.new) }
    {
        match self.read_blob(alloc, space, hash) {
            Ok(_) => Ok(()),
            Err(fault) => Err(fault),
        }
    }
}

// The bytes that stand in an extent.
fn read_extent<D: Disk>(
    alloc: Global,
    devices: &mut HeldDevices<D>,
    extent: Extent,
    len: u64,
) -> Result<Vec<u8>, StoreFault>
    requires { LieIn extent 0 len }
    ensures length { IfOk result (λ bytes. length bytes.items ≡ len) }
    ensures bytes { IfOk result (λ bytes. IfSome (D.meaning devices.old.blobs).held (λ file. bytes.items ≡ bytes_from file (first_byte extent) len)) }
    ensures fault { IfErr result (λ fault. ((fault ≡ StoreFault.DiskFailed) × Rose (devices_faults D.meaning devices.old) (devices_faults D.meaning devices.new)) ⊎ (fault ≡ StoreFault.NoMemory)) }
    ensures first { devices.new.first ≡ devices.old.first }
    ensures second { devices.new.second ≡ devices.old.second }
    ensures sure { (file : List ℕ) → IsSure (D.meaning devices.old.blobs) file → IsSure (D.meaning devices.new.blobs) file }
    ensures as_before { AsBefore D.meaning devices.old devices.new }
    ensures same { OnOk result (devices_faults D.meaning devices.old ≡ devices_faults D.meaning devices.new) }
{
    let mut bytes = Vec::new(alloc);
    if bytes.resize(len as usize, 0).is_err() {
        return Err(StoreFault::NoMemory);
    }
    match read_piece(devices.blobs(), extent, 0, &mut bytes) {
        Ok(()) => Ok(bytes),
        Err(Failed) => Err(StoreFault::DiskFailed),
    }
}

// The bytes of blobs.
impl<D: Disk> Book<D> {
    // The bytes of a blob, where they have its hash.
    pub(crate) fn read_blob(
        &mut self,
        alloc: Global,
        space: &Namespace,
        hash: IoHash,
    ) -> Result<ByteList, StoreFault>
        ensures gives { ReaderGives D.meaning self.old self.new (Only (ServesAs self.old.cache space.now hash)) result }
        ensures goes_on { GoesOn D.tells D.meaning self.old [] self.new }
        ensures serves { IfOk result (λ _. IsServing D.tells D.meaning self.new) }
        ensures same { OnOk result (book_faults D.meaning self.old ≡ book_faults D.meaning self.new) }
        ensures cause { result ≡ Err StoreFault.DiskFailed → Rose (book_faults D.meaning self.old) (book_faults D.meaning self.new) }
    {
        if let Some(faults) = self.broken() {
            return Err(StoreFault::Broken { faults });
        }
        if !self.has_space(space) {
            return Err(StoreFault::UnknownSpace);
        }
        let Some(row) = self.index.blob(space, &hash) else {
            return Err(StoreFault::NotFound);
        };
        match self.read_row(alloc, space, hash, row) {
            Ok(bytes) => undamaged(hash, bytes),
            Err(fault) => Err(fault),
        }
    }

    // The bytes of a blob that is there, whatever their hash is.
    fn read_row(
        &mut self,
        alloc: Global,
        space: &Namespace,
        hash: IoHash,
        row: BlobRow,
    ) -> Result<Vec<u8>, StoreFault>
        requires serves { IsServing D.tells D.meaning self.old }
        requires placed { IsPlaced self.old.cache.index }
        requires low { self.old.cache.index.limits.units ≤ 2 ^ 51 }
        requires there { option_map (λ blob. blob.row) (blob_at self.old.cache.index space.now hash) ≡ Some row }
        ensures bytes { IfOk result (λ bytes. MayRead self.old.cache space.now hash bytes.items × Stays D.meaning self.old self.new × IsServing D.tells D.meaning self.new) }
        ensures fault { IfErr result (λ fault. ((fault ≡ StoreFault.DiskFailed) × BreaksReading D.meaning self.old self.new × Rose (book_faults D.meaning self.old) (book_faults D.meaning self.new)) ⊎ ((fault ≡ StoreFault.NoMemory) × Stays D.meaning self.old self.new)) }
        ensures same { OnOk result (book_faults D.meaning self.old ≡ book_faults D.meaning self.new) }
        ensures goes_on { GoesOn D.tells D.meaning self.old [] self.new }
    {
        let before = self.devices.faults();
        match read_extent(alloc, &mut self.devices, row.extent, row.len) {
            Ok(bytes) => Ok(bytes),
            Err(StoreFault::DiskFailed) => {
                self.history
                    .note_broken(false, before, self.devices.faults());
                Err(StoreFault::DiskFailed)
            }
            Err(_) => Err(StoreFault::NoMemory),
        }
    }
}

// These bytes, where they have this hash.
fn undamaged(hash: IoHash, bytes: Vec<u8>) -> Result<ByteList, StoreFault>
    ensures { result ≡ undamaged hash bytes.items }
{
    let found = io_hash_of(&bytes);
    if found == hash {
        Ok(ByteList::of_vec(bytes))
    } else {
        Err(StoreFault::Damaged { named: hash, found })
    }
}

// The named hashes of which no blob is there, in order.
fn absent(
    alloc: Global,
    index: &Index,
    space: &Namespace,
    hashes: &[IoHash],
) -> Result<Rows<IoHash>, NoMemory>
    ensures { IfOk result (λ list. AreAbsent index.now.state space.now hashes.now list) }
{
    let mut found = BTreeSet::new(alloc);
    for hash in hashes {
        if index.blob(space, hash).is_none() {
            found.insert(*hash)?;
        }
    }
    let list = listed(alloc, &found)?;
    Ok(list)
}

fn listed(alloc: Global, found: &BTreeSet<IoHash>) -> Result<Rows<IoHash>, NoMemory>
    ensures same { IfOk result (λ list. list ≡ found.now.keys) }
    ensures ordered { IfOk result (λ list. IsStrictlySortedBy io_hash_cmp list) }
{
    let list = found.iter().copied().collect(alloc)?;
    Ok(Rows::of_vec(list))
}
