//! A map by the names of blobs.

ghost use Rattle.std.specs.Prelude.{◌≡◌, IfOk, OnOk, OnErr, is_some, option_copied};
ghost use Rattle.std.specs.Option.{option_copied_mut};
ghost use Rattle.std.specs.Borrow.{sem};
ghost use Rattle.std.specs.FinMap as map;
ghost use Rattle.ddc_state.specs.Nested.{in_spaces};
ghost use Rattle.ddc_state.specs.NextKeys.{NextBlob};

use crate::ranges::{first_from, start_after};
use ddc_model::BlobName;
use ddc_names::{IoHash, Namespace, NoMemory};
use std::alloc::Global;
use std::collections::BTreeMap;
use std::marker::Model;

/// A map by the names of blobs, in which each namespace stands once. Contracts see the finite map.
#[derive(Drop)]
pub struct BlobMap<V> {
    alloc: Global,
    spaces: BTreeMap<Namespace, BTreeMap<IoHash, V>>,
    len: u64,
}

impl<V> Model for BlobMap<V> {
    ghost use Rattle.std.specs.Prelude.{◌≡◌};
    ghost use Rattle.std.specs.FinMap as map;
    ghost use Rattle.ddc_model.specs.Keys.{blob_cmp, coded_blob_name};
    ghost use Rattle.ddc_state.specs.Nested.{in_spaces};

    ghost Value = { map.FinMap blob_cmp V };

    ghost coded = { map.code coded_blob_name V.code };

    ghost view = { λ blobs. in_spaces blobs.spaces.entries };

    ghost invariant = { λ blobs. map.len (in_spaces blobs.spaces.entries) ≡ blobs.len };
}

impl<V> BlobMap<V> {
    ghost use Rattle.ddc_state.specs.MapLends.{lends_value};

    /// A map of nothing, which holds no memory yet.
    pub fn new(alloc: Global) -> BlobMap<V>
        ensures { result ≡ map.empty }
    {
        BlobMap {
            alloc,
            spaces: BTreeMap::new(alloc),
            len: 0,
        }
    }

    /// The value of a blob, where the map has one.
    pub fn get(&self, name: &BlobName) -> Option<&V>
        ensures { option_copied result ≡ map.get self.now name.now }
    {
        match self.spaces.get(&name.space) {
            Some(blobs) => blobs.get(&name.hash),
            None => None,
        }
    }

    /// Whether the map has a value of a blob.
    pub fn has(&self, name: &BlobName) -> bool
        ensures { result ≡ is_some (map.get self.now name.now) }
    {
        self.get(name).is_some()
    }

    /// The value of a blob, to write to, where the map has one.
    pub fn get_mut(&mut self, name: &BlobName) -> Option<&mut V>
        ensures* writes_back { sem 𝓛 (lends_value V.row self.entry name.now result) }
        ensures value { option_copied_mut result ≡ map.get self.old name.now }
    {
        match self.spaces.get_mut(&name.space) {
            Some(blobs) => blobs.get_mut(&name.hash),
            None => None,
        }
    }

    /// The first blob of a namespace after another hash, or the first of all.
    pub fn next(&self, space: &Namespace, after: Option<IoHash>) -> Option<IoHash>
        ensures { NextBlob self.now space.now after result }
    {
        match self.spaces.get(space) {
            Some(blobs) => first_from(blobs, start_after(after)),
            None => None,
        }
    }

    /// How many values the map has.
    pub fn len(&self) -> u64
        ensures { result ≡ map.len self.now }
    {
        self.len
    }
}

impl<V: Drop> BlobMap<V> {
    /// Gives a blob its value, in place of the one before.
    ///
    /// # Errors
    ///
    /// `NoMemory` where there is none for a blob that has no value yet, or where the map counts 2^64 - 1 values. The
    /// map is then as before.
    pub fn insert(&mut self, name: &BlobName, value: V) -> Result<(), NoMemory>
        ensures ok { OnOk result (self.new ≡ map.insert self.old name.now value) }
        ensures err { OnErr result (self.new ≡ self.old) }
    {
        let Some(more) = self.len.checked_add(1) else {
            return Err(NoMemory);
        };
        if !put(self.alloc, &mut self.spaces, name, value)? {
            self.len = more;
        }
        Ok(())
    }

    /// Takes a blob out, and gives its value.
    pub fn remove(&mut self, name: &BlobName) -> Option<V>
        ensures value { result ≡ map.get self.old name.now }
        ensures gone { self.new ≡ map.remove self.old name.now }
    {
        let value = self.spaces.get_mut(&name.space)?.remove(&name.hash)?;
        self.len -= 1;
        Some(value)
    }
}

// Gives a blob its value, and tells whether it had one.
fn put<V: Drop>(
    alloc: Global,
    spaces: &mut BTreeMap<Namespace, BTreeMap<IoHash, V>>,
    name: &BlobName,
    value: V,
) -> Result<bool, NoMemory>
    ensures ok { OnOk result (in_spaces spaces.new.entries ≡ map.insert (in_spaces spaces.old.entries) name.now value) }
    ensures had { IfOk result (λ had. had ≡ is_some (map.get (in_spaces spaces.old.entries) name.now)) }
    ensures err { OnErr result (in_spaces spaces.new.entries ≡ in_spaces spaces.old.entries) }
{
    if let Some(blobs) = spaces.get_mut(&name.space) {
        let before = blobs.insert(name.hash, value)?;
        return Ok(before.is_some());
    }
    let mut blobs = BTreeMap::new(alloc);
    blobs.insert(name.hash, value)?;
    spaces.insert(name.space, blobs)?;
    Ok(false)
}
