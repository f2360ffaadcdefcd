//! Walks over the slots.

ghost use Rattle.std.specs.Prelude.{◌≡◌, ◌≤◌, ◌+◌, ◌++◌, None, Some, IfOk, OnOk, length, take, option_to_list};
ghost use Rattle.std.specs.Map.{keys_of};
ghost use Rattle.std.specs.List.Sorted.{IsStrictlySortedBy};
ghost use Rattle.std.specs.List.{filter_map};
ghost use Rattle.ref_store.specs.Pages.{row_of, expired_spot};
ghost use Rattle.std.specs.List.{slice_get};
ghost use Rattle.std.specs.declared.ops.Bound.TheVariants.{Unbounded};
ghost use Rattle.std.specs.BTreeMap.Range.{entries_between};
ghost use Rattle.ref_store.specs.inside.Places.{place_cmp, by_names, run_after, at_place};

use crate::place::Place;
use crate::{RefRow, Slot};
use ddc_names::{Namespace, NoMemory, RefName, RefSpot, Rows};
use std::alloc::Global;
use std::cmp::Ordering;
use std::collections::BTreeMap;
use std::ops::Bound;

/// The first `count` finalised references of a namespace after a spot.
pub(crate) fn first_rows(
    alloc: Global,
    slots: &BTreeMap<Place, Slot>,
    space: &Namespace,
    from: Option<RefSpot>,
    count: usize,
) -> Result<Rows<RefRow>, NoMemory>
    ensures rows { IfOk result (λ rows. rows ≡ take count (filter_map row_of (run_after space.now from slots.now.entries))) }
    ensures ordered { OnOk result (IsStrictlySortedBy place_cmp (keys_of slots.now.entries)) }
{
    let mut rows = Rows::new(alloc);
    let before = Place {
        space: *space,
        spot: from,
    };
    for (place, slot) in slots.range((Bound::Excluded(before), Bound::Unbounded)) {
        if rows.len() >= count {
            return Ok(rows);
        }
        match place.space.cmp(space) {
            Ordering::Equal => push_if_some(&mut rows, finalised(place, slot))?,
            _ => return Ok(rows),
        }
    }
    Ok(rows)
}

/// The first `count` spots of a namespace whose slots were seen at least `ttl` hours before `hour`.
pub(crate) fn first_expired(
    alloc: Global,
    slots: &BTreeMap<Place, Slot>,
    space: &Namespace,
    hour: u32,
    ttl: u32,
    count: usize,
) -> Result<Rows<RefSpot>, NoMemory>
    ensures spots { IfOk result (λ spots. spots ≡ take count (filter_map (expired_spot hour ttl) (run_after space.now None slots.now.entries))) }
    ensures ordered { OnOk result (IsStrictlySortedBy place_cmp (keys_of slots.now.entries)) }
{
    let mut spots = Rows::new(alloc);
    let start = Place {
        space: *space,
        spot: None,
    };
    for (place, slot) in slots.range((Bound::Excluded(start), Bound::Unbounded)) {
        if spots.len() >= count {
            return Ok(spots);
        }
        match place.space.cmp(space) {
            Ordering::Equal => push_if_some(&mut spots, expired(place, slot, hour, ttl))?,
            _ => return Ok(spots),
        }
    }
    Ok(spots)
}

/// The first reference in the range that begins so.
pub(crate) fn first_from(
    slots: &BTreeMap<Place, Slot>,
    start: Bound<Place>,
) -> Option<(RefName, Slot)>
    ensures first { result ≡ slice_get (by_names (entries_between place_cmp start Unbounded slots.now.entries)) 0 }
    ensures ordered { IsStrictlySortedBy place_cmp (keys_of slots.now.entries) }
{
    for (place, slot) in slots.range((start, Bound::Unbounded)) {
        if let Some(spot) = place.spot {
            let name = RefName {
                space: place.space,
                spot,
            };
            return Some((name, *slot));
        }
    }
    None
}

fn push_if_some<T: Drop>(rows: &mut Rows<T>, row: Option<T>) -> Result<(), NoMemory>
    ensures { OnOk result (rows.new ≡ rows.old ++ option_to_list row) }
{
    if let Some(row) = row {
        rows.push(row)?;
    }
    Ok(())
}

fn finalised(place: &Place, slot: &Slot) -> Option<RefRow>
    ensures { result ≡ at_place row_of place.now.space place.now.spot slot.now }
{
    match (place.spot, slot.done) {
        (Some(spot), Some(object)) => Some(RefRow { spot, object }),
        _ => None,
    }
}

fn expired(place: &Place, slot: &Slot, hour: u32, ttl: u32) -> Option<RefSpot>
    ensures { result ≡ at_place (expired_spot hour ttl) place.now.space place.now.spot slot.now }
{
    if slot.seen as u64 + ttl as u64 <= hour as u64 {
        place.spot
    } else {
        None
    }
}
