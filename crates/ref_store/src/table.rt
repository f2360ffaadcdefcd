//! The table.

ghost use Rattle.std.specs.Prelude.{◌≡◌, ◌≤◌, ◌+◌, List, None, OnOk, OnErr, IfOk, take, option_copied};
ghost use Rattle.std.specs.FinMap as map;
ghost use Rattle.ref_store.specs.declared.slot.RefRow.{RefRow};
ghost use Rattle.ref_store.specs.Pages.{cut_page, page_of, expired_of};
ghost use Rattle.ref_store.specs.Nexts.{Next};

use crate::place::Place;
use crate::ranges::{first_expired, first_from, first_rows};
use crate::{RefRow, Slot, SlotPage};
use ddc_names::{Namespace, NoMemory, RefName, RefSpot, Rows};
use std::alloc::Global;
use std::collections::BTreeMap;
use std::marker::Model;
use std::ops::Bound;

/// The slots of references, by their names. Contracts see the finite map.
#[derive(Drop)]
pub struct RefTable {
    slots: BTreeMap<Place, Slot>,
}

impl Model for RefTable {
    ghost use Rattle.std.specs.Prelude.{◌≡◌, length};
    ghost use Rattle.std.specs.FinMap as map;
    ghost use Rattle.ref_store.specs.Slots.{Slots, coded_slots};
    ghost use Rattle.ref_store.specs.inside.Places.{slots_of};

    ghost Value = { Slots };

    ghost coded = { coded_slots };

    ghost view = { λ table. slots_of table.slots.entries };

    ghost invariant = { λ table. map.len (slots_of table.slots.entries) ≡ length table.slots.entries };
}

impl RefTable {
    /// A table of no references, which holds no memory yet.
    pub fn new(alloc: Global) -> RefTable
        ensures { result ≡ map.empty }
    {
        RefTable {
            slots: BTreeMap::new(alloc),
        }
    }

    /// The slot of a reference, where the table has one.
    pub fn get(&self, name: &RefName) -> Option<Slot>
        ensures { result ≡ map.get self.now name.now }
    {
        self.slots.get(&Place::of(name)).copied()
    }

    /// Gives a reference its slot, in place of the one before.
    ///
    /// # Errors
    ///
    /// `NoMemory` where there is none for a reference that the table doesn't have. The table is then as before.
    pub fn set(&mut self, name: &RefName, slot: Slot) -> Result<(), NoMemory>
        ensures ok { OnOk result (self.new ≡ map.insert self.old name.now slot) }
        ensures err { OnErr result (self.new ≡ self.old) }
        ensures only_for_a_new_name { OnErr result (map.get self.old name.now ≡ None) }
    {
        let RefName { space, spot } = *name;
        let place = Place {
            space,
            spot: Some(spot),
        };
        self.slots.insert(place, slot)?;
        Ok(())
    }

    /// Takes a reference out, and gives its slot.
    pub fn remove(&mut self, name: &RefName) -> Option<Slot>
        ensures slot { result ≡ map.get self.old name.now }
        ensures gone { self.new ≡ map.remove self.old name.now }
    {
        self.slots.remove(&Place::of(name))
    }

    /// How many references the table has.
    pub fn len(&self) -> u64
        ensures { result ≡ map.len self.now }
    {
        self.slots.len() as u64
    }

    /// The first reference after another one by name, or the first of all, with its slot.
    pub fn next(&self, after: Option<&RefName>) -> Option<(RefName, Slot)>
        ensures { Next self.now (option_copied after.entry) result }
    {
        let start = match after {
            Some(name) => Bound::Excluded(Place::of(name)),
            None => Bound::Unbounded,
        };
        first_from(&self.slots, start)
    }

    /// The first `count` finalised references of a namespace whose spots are after `from`, in order.
    ///
    /// # Errors
    ///
    /// `NoMemory` where there is none for the rows.
    pub fn page(
        &self,
        alloc: Global,
        space: &Namespace,
        from: Option<RefSpot>,
        count: u32,
    ) -> Result<SlotPage, NoMemory>
        requires { 1 ≤ count }
        ensures { IfOk result (λ page. page ≡ page_of self.now space.now from count) }
    {
        // One row more than asked for tells whether another follows.
        let rows = first_rows(alloc, &self.slots, space, from, count as usize + 1)?;
        Ok(cut_page(rows, count as usize))
    }

    /// The spots of the first `count` references of a namespace whose time to live is over: those last seen at least
    /// `ttl` hours before `hour`.
    ///
    /// # Errors
    ///
    /// `NoMemory` where there is none for the spots.
    pub fn expired(
        &self,
        alloc: Global,
        space: &Namespace,
        hour: u32,
        ttl: u32,
        count: u32,
    ) -> Result<Rows<RefSpot>, NoMemory>
        requires { 1 ≤ count }
        ensures { IfOk result (λ spots. spots ≡ take count (expired_of self.now space.now hour ttl)) }
    {
        first_expired(alloc, &self.slots, space, hour, ttl, count as usize)
    }
}

// The page of the first `count` of some rows, of which one more than those is at hand.
fn cut_page(mut rows: Rows<RefRow>, count: usize) -> SlotPage
    requires { 1 ≤ count }
    ensures { (all : List RefRow) → rows ≡ take (count + 1) all → result ≡ cut_page all count }
{
    if rows.len() <= count {
        return SlotPage { rows, next: None };
    }
    rows.pop();
    let next = Some(rows.as_slice()[count - 1].spot);
    SlotPage { rows, next }
}
