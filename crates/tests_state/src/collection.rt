//! Collections whose marks a reader can work out by eye.

use crate::needs::{Node, applies, are, hash_of, puts, space_entry, stores};
use cb_fields::LinkKind;
use collector::{Collection, Phase, loose_is_unreached};
use ddc_model::Limits;
use ddc_names::{IoHash, Namespace, Rows};
use ddc_state::Index;
use std::alloc::Global;
use std::test::Fail;

// The namespace `game`, whose blobs are pinned for 4 hours from the hour 100 on: the object 1 of a reference leads to the
// object 2, and that to the binary 3; to 4 leads none, and 5 leads to 6.
fn fill(alloc: Global, index: &mut Index, space: Namespace) -> Result<bool, Fail> {
    Ok(
        applies(alloc, index, &space_entry(space))?
            && stores(alloc, index, "game", 1, &[Node::Object(2)])?
            && stores(alloc, index, "game", 2, &[Node::Binary(3)])?
            && stores(alloc, index, "game", 3, &[])?
            && stores(alloc, index, "game", 4, &[])?
            && stores(alloc, index, "game", 5, &[Node::Object(6)])?
            && stores(alloc, index, "game", 6, &[])?
            && puts(alloc, index, "game", "maps", 1)?,
    )
}

// What a sweep may remove at an hour, after one turn of this limit; `None` where more is to be marked.
fn swept(
    alloc: Global,
    index: &mut Index,
    leased: &[IoHash],
    hour: u32,
    limit: u32,
) -> Result<Option<Rows<IoHash>>, Fail> {
    let space = Namespace::parse("game")?;
    let mut collection = Collection::begin(alloc, index, &space, leased, hour)?;
    let _taken = collection.mark_turn(index, limit);
    match collection.phase() {
        Phase::Sweeping => Ok(Some(collection.sweep_list(alloc, index, 64)?)),
        _ => Ok(None),
    }
}

fn sweeps(
    alloc: Global,
    index: &mut Index,
    leased: &[IoHash],
    hour: u32,
    numbers: &[u64],
) -> Result<bool, Fail> {
    match swept(alloc, index, leased, hour, 256)? {
        Some(hashes) => Ok(are(hashes.as_slice(), numbers)),
        None => Ok(false),
    }
}

#[test]
fn what_no_root_reaches_is_swept(rt: HostRuntime) -> Result<(), Fail> {
    let alloc = rt.alloc();
    let mut index = Index::new(alloc, Limits::standard());
    assert!(rt; fill(alloc, &mut index, Namespace::parse("game")?)?);
    // a leased blob leads nowhere
    assert!(rt; sweeps(alloc, &mut index, &[hash_of(5)], 104, &[4, 6])?);
    assert!(rt; sweeps(alloc, &mut index, &[], 104, &[4, 5, 6])?);
    assert!(rt; sweeps(alloc, &mut index, &[], 103, &[])?);
    assert!(rt; swept(alloc, &mut index, &[], 104, 2)?.is_none());
    loose_is_unreached();
    Ok(())
}

// How a collection of an empty namespace stands at its start, and once a blob was stored meanwhile.
fn phases(alloc: Global, index: &Index) -> Result<(bool, bool), Fail> {
    let space = Namespace::parse("game")?;
    let mut collection = Collection::begin(alloc, index, &space, &[], 110)?;
    let starts = collection.phase() == Phase::Sweeping;
    collection.reserve_one()?;
    collection.shade(LinkKind::Binary, hash_of(1));
    Ok((starts, collection.phase() == Phase::Marking))
}

#[test]
fn what_is_stored_meanwhile_is_marked(rt: HostRuntime) -> Result<(), Fail> {
    let index = Index::new(rt.alloc(), Limits::standard());
    assert_eq!(rt; phases(rt.alloc(), &index)?, (true, true));
    Ok(())
}
