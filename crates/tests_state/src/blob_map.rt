//! What a map by the names of blobs has after each of some changes.

use ddc_model::BlobName;
use ddc_names::{IoHash, Namespace};
use ddc_state::BlobMap;
use std::test::Fail;

#[derive(Clone, Copy)]
enum Deed {
    /// Gives the value.
    Insert(u8),
    /// Writes the value, where there is one.
    Write(u8),
    /// Takes this out.
    Remove(Option<u8>),
    /// Has this.
    Has(Option<u8>),
}

// What is done to a blob of a namespace, and how many values the map has then.
#[derive(Clone, Copy)]
struct Row {
    space: &'static str,
    hash: u8,
    deed: Deed,
    len: u64,
}

const fn row_of(space: &'static str, hash: u8, deed: Deed, len: u64) -> Row {
    Row {
        space,
        hash,
        deed,
        len,
    }
}

// Does what a row says, and tells whether the map is then as it says.
fn step(map: &mut BlobMap<u8>, row: Row) -> Result<bool, Fail> {
    let name = BlobName {
        space: Namespace::parse(row.space)?,
        hash: IoHash([row.hash; 20]),
    };
    let holds = match row.deed {
        Deed::Insert(value) => {
            map.insert(&name, value)?;
            map.get(&name).copied() == Some(value)
        }
        Deed::Write(value) => {
            if let Some(now) = map.get_mut(&name) {
                *now = value;
            }
            true
        }
        Deed::Remove(was) => map.remove(&name) == was && !map.has(&name),
        Deed::Has(value) => map.get(&name).copied() == value,
    };
    Ok(holds && map.len() == row.len)
}

#[test]
fn one_hash_in_two_namespaces_is_two_blobs(rt: HostRuntime) -> Result<(), Fail> {
    let rows = [
        row_of("game", 1, Deed::Has(None), 0),
        row_of("game", 1, Deed::Insert(5), 1),
        row_of("tool", 1, Deed::Has(None), 1),
        row_of("tool", 1, Deed::Insert(6), 2),
        row_of("game", 1, Deed::Insert(7), 2),
        row_of("tool", 1, Deed::Has(Some(6)), 2),
        row_of("tool", 1, Deed::Write(8), 2),
        row_of("game", 1, Deed::Has(Some(7)), 2),
        row_of("game", 2, Deed::Write(9), 2),
        row_of("game", 2, Deed::Has(None), 2),
        row_of("game", 1, Deed::Remove(Some(7)), 1),
        row_of("tool", 1, Deed::Has(Some(8)), 1),
    ];
    let mut map = BlobMap::new(rt.alloc());
    for row in rows {
        assert!(rt; step(&mut map, row)?);
    }
    Ok(())
}

#[test]
fn a_namespace_is_filled_again_after_its_last_blob(rt: HostRuntime) -> Result<(), Fail> {
    let rows = [
        row_of("game", 1, Deed::Insert(5), 1),
        row_of("game", 2, Deed::Insert(6), 2),
        row_of("game", 1, Deed::Remove(Some(5)), 1),
        row_of("game", 1, Deed::Remove(None), 1),
        row_of("game", 2, Deed::Remove(Some(6)), 0),
        row_of("game", 2, Deed::Remove(None), 0),
        row_of("tool", 2, Deed::Remove(None), 0),
        row_of("game", 2, Deed::Write(7), 0),
        row_of("game", 2, Deed::Has(None), 0),
        row_of("game", 2, Deed::Insert(8), 1),
        row_of("game", 2, Deed::Has(Some(8)), 1),
    ];
    let mut map = BlobMap::new(rt.alloc());
    for row in rows {
        assert!(rt; step(&mut map, row)?);
    }
    Ok(())
}
