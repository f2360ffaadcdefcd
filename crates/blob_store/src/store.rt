//! Which units of the blob file are claimed.

ghost use Rattle.std.specs.Prelude.{◌≡◌, ◌≤◌, ◌<◌, ◌^◌, ◌↔◌, IsTrue, OnOk, OnErr, IfSome, IfNone};
ghost use Rattle.ddc_model.specs.Extents.{units_of};
ghost use Rattle.ddc_model.specs.Limits.{most_bytes};
ghost use Rattle.blob_store.specs.Claims.{no_claims, IsFree, IsClaimed, IsFirstRun, HasNoRun, AreApart, with_extent, without_extent};

use crate::area::Area;
use ddc_model::Extent;
use ddc_names::NoMemory;
use std::alloc::Global;
use std::marker::Model;

/// The claimed extents of a blob file. Contracts see the number of the file's units and the claimed extents.
///
/// No call walks through the claimed extents: each takes at most about as many steps as the number of units has binary
/// digits. A claim takes 40 to 60 bytes where the claimed extents lie close together, and its release gives them back.
#[derive(Drop)]
pub struct BlobStore {
    alloc: Global,
    units: u64,
    area: Area,
}

impl Model for BlobStore {
    ghost use Rattle.std.specs.Prelude.{◌≤◌, ◌^◌};
    ghost use Rattle.blob_store.specs.Claims.{Claims, coded_claims};
    ghost use Rattle.std.specs.FinMap.{from_entries};
    ghost use Rattle.blob_store.specs.inside.Areas.{extents_in, IsPlaced, AreSpanned};

    ghost Value = { Claims };

    ghost coded = { coded_claims };

    ghost view = { λ store. record { units = store.units; extents = from_entries (extents_in store.area) } };

    ghost invariant = { λ store. (store.units ≤ 2 ^ 51) × IsPlaced 0 store.units store.area × AreSpanned store.area };
}

impl BlobStore {
    /// A file of so many units, of which all are free. It holds no memory yet.
    pub fn new(alloc: Global, units: u64) -> BlobStore
        requires { units ≤ 2 ^ 51 }
        ensures { result ≡ no_claims units }
    {
        BlobStore {
            alloc,
            units,
            area: Area::Empty,
        }
    }

    /// The first run of free units that holds `len` bytes, and `None` exactly where there is none. No bytes take no
    /// units.
    pub fn find_free(&self, len: u64) -> Option<Extent>
        requires { len ≤ most_bytes }
        ensures first { IfSome result (λ extent. IsFirstRun self.now (units_of len) extent) }
        ensures none { IfNone result (HasNoRun self.now (units_of len)) }
    {
        if len == 0 {
            return Some(Extent { start: 0, units: 0 });
        }
        let units = len.div_ceil(4096);
        let end = self.area.end_after(0);
        let start = self.area.first_gap(0, units).unwrap_or(end);
        if self.units - start < units {
            return None;
        }
        Some(Extent {
            start,
            units: units as u32,
        })
    }

    /// Whether an extent lies in the file and no unit of it is claimed.
    pub fn is_free(&self, extent: Extent) -> bool
        ensures free { IsTrue result ↔ IsFree self.now extent }
        ensures apart { AreApart self.now }
    {
        let units = extent.units as u64;
        if extent.start > self.units || self.units - extent.start < units {
            return false;
        }
        match self.area.next_after(extent.start) {
            Some(next) => units == 0 || extent.start + units <= next.start,
            None => true,
        }
    }

    /// Whether an extent is one of those that are claimed. One of no units always is: there is nothing of it.
    pub fn is_claimed(&self, extent: Extent) -> bool
        ensures { IsTrue result ↔ IsClaimed self.now extent }
    {
        if extent.units == 0 {
            return true;
        }
        match self.area.next_after(extent.start) {
            Some(next) => next == extent,
            None => false,
        }
    }

    /// Claims a free extent. One of no units claims nothing.
    ///
    /// # Errors
    ///
    /// `NoMemory` where there is none for it. The claims are then as before.
    pub fn claim(&mut self, extent: Extent) -> Result<(), NoMemory>
        requires { IsFree self.old extent }
        ensures ok { OnOk result (self.new ≡ with_extent self.old extent) }
        ensures err { OnErr result (self.new ≡ self.old) }
        ensures apart { AreApart self.new }
    {
        if extent.units > 0 {
            self.area.insert(self.alloc, 0, self.units, extent)?;
        }
        Ok(())
    }

    /// Releases a claimed extent, and takes no memory. One of no units releases nothing.
    pub fn release(&mut self, extent: Extent)
        requires { IsClaimed self.old extent }
        ensures released { self.new ≡ without_extent self.old extent }
        ensures apart { AreApart self.new }
    {
        if extent.units > 0 {
            self.area.remove(0, self.units, extent);
        }
    }
}
