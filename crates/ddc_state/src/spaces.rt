//! A table by namespaces.

ghost use Rattle.std.specs.Prelude.{◌≡◌, OnOk, OnErr, is_some, option_copied};
ghost use Rattle.std.specs.Option.{option_copied_mut};
ghost use Rattle.std.specs.Borrow.{sem};
ghost use Rattle.std.specs.FinMap as map;
ghost use Rattle.ddc_state.specs.NextKeys.{NextSpace};

use crate::ranges::{first_from, start_after};
use ddc_names::{Namespace, NoMemory};
use std::alloc::Global;
use std::collections::BTreeMap;
use std::marker::Model;

// A table with a row for some of the namespaces. Contracts see the finite map.
#[derive(Drop)]
pub(crate) struct SpaceTable<V> {
    rows: BTreeMap<Namespace, V>,
}

impl<V> Model for SpaceTable<V> {
    ghost use Rattle.std.specs.Prelude.{◌≡◌, length};
    ghost use Rattle.std.specs.FinMap as map;
    ghost use Rattle.ddc_names.specs.Orders.{name_cmp, coded_name};

    ghost Value = { map.FinMap name_cmp V };

    ghost coded = { map.code coded_name V.code };

    ghost view = { λ table. map.from_entries table.rows.entries };

    ghost invariant = { λ table. map.len (map.from_entries {R = name_cmp} table.rows.entries) ≡ length table.rows.entries };
}

impl<V> SpaceTable<V> {
    ghost use Rattle.ddc_state.specs.MapLends.{lends_row};

    pub(crate) fn new(alloc: Global) -> SpaceTable<V>
        ensures { result ≡ map.empty }
    {
        SpaceTable {
            rows: BTreeMap::new(alloc),
        }
    }

    pub(crate) fn get(&self, space: &Namespace) -> Option<&V>
        ensures { option_copied result ≡ map.get self.now space.now }
    {
        self.rows.get(space)
    }

    pub(crate) fn has(&self, space: &Namespace) -> bool
        ensures { result ≡ is_some (map.get self.now space.now) }
    {
        self.get(space).is_some()
    }

    // The row of a namespace, to write to, where the table has one.
    pub(crate) fn get_mut(&mut self, space: &Namespace) -> Option<&mut V>
        ensures* writes_back { sem 𝓛 (lends_row V.row self.entry space.now result) }
        ensures value { option_copied_mut result ≡ map.get self.old space.now }
    {
        self.rows.get_mut(space)
    }

    // The first namespace after another one that has a row, or the first of all.
    pub(crate) fn next(&self, after: Option<Namespace>) -> Option<Namespace>
        ensures { NextSpace self.now after result }
    {
        first_from(&self.rows, start_after(after))
    }

    pub(crate) fn len(&self) -> u64
        ensures { result ≡ map.len self.now }
    {
        self.rows.len() as u64
    }
}

impl<V: Drop> SpaceTable<V> {
    pub(crate) fn set(&mut self, space: &Namespace, row: V) -> Result<(), NoMemory>
        ensures ok { OnOk result (self.new ≡ map.insert self.old space.now row) }
        ensures err { OnErr result (self.new ≡ self.old) }
    {
        self.rows.insert(*space, row)?;
        Ok(())
    }
}

impl<V: Copy + Drop> SpaceTable<V> {
    pub(crate) fn set_copy(&mut self, space: &Namespace, row: &V) -> Result<(), NoMemory>
        ensures ok { OnOk result (self.new ≡ map.insert self.old space.now row.now) }
        ensures err { OnErr result (self.new ≡ self.old) }
    {
        self.set(space, *row)?;
        Ok(())
    }
}
