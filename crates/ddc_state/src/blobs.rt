//! The table of blobs.

ghost use Rattle.std.specs.Prelude.{◌≡◌, OnOk, OnErr, None, is_some, option_copied, option_map};
ghost use Rattle.std.specs.FinMap as map;
ghost use Rattle.ddc_model.specs.Entries.{pinned};
ghost use Rattle.ddc_model.specs.Counts.{links_of_all};
ghost use Rattle.ddc_state.specs.NextKeys.{NextBlob};

use crate::blob_map::BlobMap;
use crate::packed::PackedBlob;
use ddc_model::{Blob, BlobName, BlobRow};
use ddc_names::{IoHash, Namespace, NoMemory};
use std::alloc::Global;
use std::marker::Model;

// Contracts see the finite map. How many links the blobs have in all is kept beside it.
#[derive(Drop)]
pub(crate) struct BlobTable {
    blobs: BlobMap<PackedBlob>,
    links: u64,
}

impl Model for BlobTable {
    ghost use Rattle.std.specs.Prelude.{◌≡◌};
    ghost use Rattle.std.specs.FinMap as map;
    ghost use Rattle.ddc_model.specs.declared.rows.Blob.{Blob};
    ghost use Rattle.ddc_model.specs.Counts.{links_of_all};
    ghost use Rattle.ddc_model.specs.Keys.{blob_cmp, coded_blob_name, coded_blob};

    ghost Value = { map.FinMap blob_cmp Blob };

    ghost coded = { map.code coded_blob_name coded_blob };

    ghost view = { λ table. table.blobs };

    ghost invariant = { λ table. links_of_all (map.entries table.blobs) ≡ table.links };
}

impl BlobTable {
    pub(crate) fn new(alloc: Global) -> BlobTable
        ensures { result ≡ map.empty }
    {
        BlobTable {
            blobs: BlobMap::new(alloc),
            links: 0,
        }
    }

    pub(crate) fn get(&self, name: &BlobName) -> Option<&PackedBlob>
        ensures { option_copied result ≡ map.get self.now name.now }
    {
        self.blobs.get(name)
    }

    pub(crate) fn has(&self, name: &BlobName) -> bool
        ensures { result ≡ is_some (map.get self.now name.now) }
    {
        self.blobs.has(name)
    }

    pub(crate) fn next(&self, space: &Namespace, after: Option<IoHash>) -> Option<IoHash>
        ensures { NextBlob self.now space.now after result }
    {
        self.blobs.next(space, after)
    }

    // Adds a blob that isn't there.
    pub(crate) fn add(&mut self, name: &BlobName, blob: Blob) -> Result<(), NoMemory>
        requires { map.get self.old name.now ≡ None }
        ensures ok { OnOk result (self.new ≡ map.insert self.old name.now blob) }
        ensures err { OnErr result (self.new ≡ self.old) }
    {
        let Some(links) = self.links.checked_add(blob.links.len() as u64) else {
            return Err(NoMemory);
        };
        self.blobs.insert(name, PackedBlob::of(blob))?;
        self.links = links;
        Ok(())
    }

    // Pins a blob from this hour on, where it is there.
    pub(crate) fn pin(&mut self, name: &BlobName, hour: u32)
        ensures { self.new ≡ pinned self.old name.now hour (map.get self.old name.now) }
    {
        if let Some(blob) = self.blobs.get_mut(name) {
            blob.pin(hour);
        }
    }

    // Takes a blob out, and gives what was kept of it beside its links.
    pub(crate) fn remove(&mut self, name: &BlobName) -> Option<BlobRow>
        ensures row { result ≡ option_map (λ blob. blob.row) (map.get self.old name.now) }
        ensures gone { self.new ≡ map.remove self.old name.now }
    {
        match self.blobs.remove(name) {
            Some(blob) => {
                self.links -= blob.links().len() as u64;
                Some(blob.row())
            }
            None => None,
        }
    }

    pub(crate) fn len(&self) -> u64
        ensures { result ≡ map.len self.now }
    {
        self.blobs.len()
    }

    pub(crate) fn link_count(&self) -> u64
        ensures { result ≡ links_of_all (map.entries self.now) }
    {
        self.links
    }
}
