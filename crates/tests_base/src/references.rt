//! A small table whose answers a reader can work out by eye.

use ddc_names::{BadName, Bucket, IoHash, Namespace, RefKey, RefName, RefSpot};
use ref_store::{RefRow, RefTable, Slot};
use std::alloc::Global;
use std::test::Fail;

// A namespace, a bucket and a key, whether it is finalised, and the hour at which it was seen.
type Row = (&'static str, &'static str, u8, bool, u32);

// Three finalised references of `ue5` with pending ones before, between and after them, and one finalised reference of
// a namespace before it and of one after it, in the order of their names.
const ROWS: [Row; 8] = [
    ("ue4", "c", 9, true, 90),
    ("ue5", "a", 1, false, 100),
    ("ue5", "a", 2, true, 100),
    ("ue5", "b", 1, false, 99),
    ("ue5", "b", 2, true, 101),
    ("ue5", "b", 3, true, 102),
    ("ue5", "c", 1, false, 101),
    ("ue50", "a", 9, true, 90),
];

// The row at a place, and the last one past the end.
fn row_at(place: usize) -> Row {
    ROWS[place.min(7)]
}

fn spot_of((_, bucket, key, _, _): Row) -> Result<RefSpot, BadName> {
    Ok(RefSpot {
        bucket: Bucket::parse(bucket)?,
        key: RefKey([key; 20]),
    })
}

fn name_of(row: Row) -> Result<RefName, BadName> {
    Ok(RefName {
        space: Namespace::parse(row.0)?,
        spot: spot_of(row)?,
    })
}

fn object_of((_, _, key, _, _): Row) -> IoHash {
    IoHash([key; 20])
}

// A finalised slot names the hash of the key's bytes; any other waits for it.
fn slot_of(row: Row) -> Slot {
    let (_, _, _, finalised, seen) = row;
    let object = Some(object_of(row));
    Slot {
        done: if finalised { object } else { None },
        pending: if finalised { None } else { object },
        seen,
    }
}

// The table of the rows, which come in no order.
fn table_of(alloc: Global) -> Result<RefTable, Fail> {
    let mut table = RefTable::new(alloc);
    for place in [4, 7, 1, 3, 2, 0, 6, 5] {
        let row = row_at(place);
        table.set(&name_of(row)?, slot_of(row))?;
    }
    Ok(table)
}

#[test]
fn a_table_is_a_map_from_names_to_slots(rt: HostRuntime) -> Result<(), Fail> {
    let mut table = RefTable::new(rt.alloc());
    let name = name_of(row_at(3))?;
    let (early, late) = (slot_of(row_at(3)), slot_of(row_at(4)));
    assert!(rt; table.set(&name, early).is_ok());
    assert!(rt; table.set(&name, late).is_ok());
    assert!(rt; table.len() == 1 && table.get(&name) == Some(late));
    assert!(rt; table.remove(&name) == Some(late));
    assert!(rt; table.get(&name).is_none());
    Ok(())
}

#[test]
fn the_references_come_one_after_another(rt: HostRuntime) -> Result<(), Fail> {
    let table = table_of(rt.alloc())?;
    let mut after = None;
    for place in 0..8 {
        let wanted = (name_of(row_at(place))?, slot_of(row_at(place)));
        assert!(rt; table.next(after.as_ref()) == Some(wanted));
        after = Some(wanted.0);
    }
    assert!(rt; table.next(after.as_ref()).is_none());
    Ok(())
}

// Pages of `ue5`: after which row, how many references are asked for, which rows come, and whether there are more.
const PAGES: [(Option<usize>, u32, &[usize], bool); 7] = [
    (None, 1, &[2], true),
    (Some(2), 1, &[4], true),
    (Some(4), 1, &[5], false),
    (None, 3, &[2, 4, 5], false),
    (None, u32::MAX, &[2, 4, 5], false),
    (Some(3), 3, &[4, 5], false),
    (Some(6), 3, &[], false),
];

fn spot_at(place: Option<usize>) -> Option<RefSpot> {
    spot_of(row_at(place?)).ok()
}

// Whether the rows of a page are these.
fn are(found: &[RefRow], places: &[usize]) -> bool {
    found.len() == places.len()
        && found.iter().zip(places.iter()).all(|(row, place)| {
            Some(row.spot) == spot_at(Some(*place)) && row.object == object_of(row_at(*place))
        })
}

#[test]
fn a_page_has_the_finalised_references_of_its_namespace(rt: HostRuntime) -> Result<(), Fail> {
    let table = table_of(rt.alloc())?;
    let space = Namespace::parse("ue5")?;
    for (after, count, rows, goes_on) in PAGES {
        let page = table.page(rt.alloc(), &space, spot_at(after), count.max(1))?;
        let last = rows.last().copied().filter(|_| goes_on);
        assert!(rt; are(page.rows.as_slice(), rows), "{count} after {after:?}");
        assert!(rt; page.next == spot_at(last), "{count} after {after:?}");
    }
    Ok(())
}

// References of `ue5`: the hour, the time to live, how many at most, how many expired, and the last row of them.
const EXPIRED: [(u32, u32, u32, usize, usize); 5] = [
    (123, 24, 9, 1, 3),
    (124, 24, 9, 3, 3),
    (124, 24, 2, 2, 2),
    (126, 24, 6, 6, 6),
    (u32::MAX, u32::MAX - 99, 9, 1, 3),
];

#[test]
fn a_reference_expires_when_its_whole_time_to_live_is_over(rt: HostRuntime) -> Result<(), Fail> {
    let table = table_of(rt.alloc())?;
    let space = Namespace::parse("ue5")?;
    for (hour, ttl, most, count, last) in EXPIRED {
        let spots = table.expired(rt.alloc(), &space, hour, ttl, most.max(1))?;
        assert_eq!(rt; spots.len(), count);
        assert!(rt; spots.as_slice().last().copied() == spot_at(Some(last)));
    }
    Ok(())
}
