//! Stores whose closures a reader can work out by eye, and a deep one.

use cb_fields::{Link, LinkKind};
use ddc_model::{Entry, Limits, NameBox, Stored};
use ddc_names::{Bucket, IoHash, Namespace, NoMemory, RefKey, RefName, RefSpot, Rows};
use ddc_state::Index;
use needs_resolver::{first_unsound, needs, needs_with};
use std::alloc::Global;
use std::test::Fail;

#[derive(Clone, Copy)]
pub(crate) enum Node {
    Object(u64),
    Binary(u64),
}

// What is done to an index, or what it has to answer.
#[derive(Clone, Copy)]
enum Deed {
    Space(&'static str),
    /// A blob of this number is stored, with these links.
    Store(&'static str, u64, &'static [Node]),
    /// An object is put under the name of this bucket, and taken for whole.
    Put(&'static str, &'static str, u64),
    Needs(&'static str, u64, &'static [u64]),
    NeedsWith(&'static str, u64, &'static [Node], &'static [u64]),
    /// The namespace and the bucket of the first unsound reference.
    Unsound(Option<(&'static str, &'static str)>),
    Reads(u64),
}

// Hashes in the order of their numbers.
pub(crate) fn hash_of(number: u64) -> IoHash {
    let mut bytes = [0; 20];
    bytes[..8].copy_from_slice(&number.to_be_bytes());
    IoHash(bytes)
}

fn link_of(node: Node) -> Link {
    match node {
        Node::Object(number) => Link {
            kind: LinkKind::Object,
            hash: hash_of(number),
        },
        Node::Binary(number) => Link {
            kind: LinkKind::Binary,
            hash: hash_of(number),
        },
    }
}

fn links_of(alloc: Global, nodes: &[Node]) -> Result<Vec<Link>, NoMemory> {
    let mut links = Vec::new(alloc);
    for node in nodes {
        links.push(link_of(*node))?;
    }
    Ok(links)
}

fn name_of(space: &str, bucket: &str) -> Result<RefName, Fail> {
    Ok(RefName {
        space: Namespace::parse(space)?,
        spot: RefSpot {
            bucket: Bucket::parse(bucket)?,
            key: RefKey([0; 20]),
        },
    })
}

// A blob of one byte, which stands at this unit.
fn blob_entry(
    alloc: Global,
    space: Namespace,
    number: u64,
    start: u64,
    nodes: &[Node],
) -> Result<Entry, NoMemory> {
    let blob = Stored {
        hash: hash_of(number),
        len: 1,
        start,
        links: Rows::of_vec(links_of(alloc, nodes)?),
    };
    Ok(Entry::Upload {
        space,
        hour: 100,
        blob,
    })
}

fn put_entry(alloc: Global, name: RefName, root: u64) -> Result<Entry, NoMemory> {
    Ok(Entry::Put {
        name: NameBox::new(alloc, name)?,
        root: hash_of(root),
        fresh: None,
        whole: true,
        hour: 100,
    })
}

pub(crate) fn space_entry(space: Namespace) -> Entry {
    Entry::Space {
        space,
        ttl: 24,
        pin: 4,
    }
}

// Whether the entry fits; then its change is made.
pub(crate) fn applies(alloc: Global, index: &mut Index, entry: &Entry) -> Result<bool, NoMemory> {
    if !index.fits(entry) {
        return Ok(false);
    }
    index.apply(alloc, entry)?;
    Ok(true)
}

pub(crate) fn are(hashes: &[IoHash], numbers: &[u64]) -> bool {
    hashes.len() == numbers.len()
        && numbers
            .iter()
            .enumerate()
            .all(|(place, number)| hashes[place] == hash_of(*number))
}

pub(crate) fn stores(
    alloc: Global,
    index: &mut Index,
    space: &str,
    number: u64,
    nodes: &[Node],
) -> Result<bool, Fail> {
    let entry = blob_entry(
        alloc,
        Namespace::parse(space)?,
        number,
        index.blob_count(),
        nodes,
    )?;
    Ok(applies(alloc, index, &entry)?)
}

pub(crate) fn puts(
    alloc: Global,
    index: &mut Index,
    space: &str,
    bucket: &str,
    root: u64,
) -> Result<bool, Fail> {
    let entry = put_entry(alloc, name_of(space, bucket)?, root)?;
    Ok(applies(alloc, index, &entry)?)
}

fn lacks(
    alloc: Global,
    index: &mut Index,
    space: &str,
    root: u64,
    numbers: &[u64],
) -> Result<bool, Fail> {
    let list = needs(alloc, index, &Namespace::parse(space)?, hash_of(root))?;
    Ok(are(list.as_slice(), numbers))
}

fn will_lack(
    alloc: Global,
    index: &mut Index,
    space: &str,
    root: u64,
    nodes: &[Node],
    numbers: &[u64],
) -> Result<bool, Fail> {
    let fresh = links_of(alloc, nodes)?;
    let list = needs_with(
        alloc,
        index,
        &Namespace::parse(space)?,
        hash_of(root),
        &fresh,
    )?;
    Ok(are(list.as_slice(), numbers))
}

fn is_unsound(alloc: Global, index: &mut Index, place: Option<(&str, &str)>) -> Result<bool, Fail> {
    let found = first_unsound(alloc, index)?;
    match place {
        None => Ok(found.is_none()),
        Some((space, bucket)) => Ok(found == Some(name_of(space, bucket)?)),
    }
}

// Does what a row says, or asks, and tells whether the index is as the row says.
fn holds(alloc: Global, index: &mut Index, deed: Deed) -> Result<bool, Fail> {
    match deed {
        Deed::Space(space) => Ok(applies(alloc, index, &space_entry(Namespace::parse(space)?))?),
        Deed::Store(space, number, nodes) => stores(alloc, index, space, number, nodes),
        Deed::Put(space, bucket, root) => puts(alloc, index, space, bucket, root),
        Deed::Needs(space, root, numbers) => lacks(alloc, index, space, root, numbers),
        Deed::NeedsWith(space, root, nodes, numbers) => will_lack(
            alloc, index, space, root, nodes, numbers,
        ),
        Deed::Unsound(place) => is_unsound(alloc, index, place),
        Deed::Reads(count) => Ok(index.reads() == count),
    }
}

// The place of the first row that doesn't hold.
fn first_wrong(alloc: Global, deeds: &[Deed]) -> Result<Option<usize>, Fail> {
    let mut index = Index::new(alloc, Limits::standard());
    for (place, deed) in deeds.iter().enumerate() {
        if !holds(alloc, &mut index, *deed)? {
            return Ok(Some(place));
        }
    }
    Ok(None)
}

#[test]
fn what_closures_lack_and_the_first_unsound_reference(rt: HostRuntime) -> Result<(), Fail> {
    const ROWS: [Deed; 32] = [
        Deed::Space("game"),
        Deed::Needs("game", 1, &[1]),
        Deed::Reads(0),
        // 2 and 6 are there; the links of 6, which is met as a binary, aren't looked at
        Deed::Store(
            "game",
            1,
            &[Node::Object(2), Node::Binary(3), Node::Binary(6)],
        ),
        Deed::Store(
            "game",
            2,
            &[Node::Object(5), Node::Binary(4), Node::Object(5)],
        ),
        Deed::Store("game", 6, &[Node::Binary(7)]),
        Deed::Needs("game", 1, &[3, 4, 5]),
        Deed::Reads(2),
        Deed::Needs("other", 1, &[1]),
        Deed::NeedsWith(
            "game",
            8,
            &[Node::Object(8), Node::Object(6), Node::Binary(1)],
            &[7],
        ),
        Deed::NeedsWith("game", 8, &[], &[]),
        Deed::Reads(3),
        // a cycle
        Deed::Store("game", 11, &[Node::Object(12)]),
        Deed::Store("game", 12, &[Node::Object(11), Node::Object(12)]),
        Deed::Needs("game", 11, &[]),
        Deed::Reads(5),
        // references that share a closure: each object is read once
        Deed::Put("game", "m", 11),
        Deed::Put("game", "n", 12),
        Deed::Put("game", "o", 11),
        Deed::Unsound(None),
        Deed::Reads(7),
        // the same hashes in another namespace
        Deed::Space("other"),
        Deed::Store("other", 12, &[Node::Binary(13)]),
        Deed::Put("other", "a", 12),
        Deed::Unsound(Some(("other", "a"))),
        Deed::Reads(10),
        // a nested object lacks a blob
        Deed::Store("game", 14, &[Node::Object(2)]),
        Deed::Put("game", "p", 14),
        Deed::Unsound(Some(("game", "p"))),
        Deed::Put("game", "b", 14),
        Deed::Put("game", "a", 6),
        Deed::Unsound(Some(("game", "a"))),
    ];
    assert_eq!(rt; first_wrong(rt.alloc(), &ROWS)?, None);
    Ok(())
}

// Each of 10,000 objects leads to the next one and to the object 50,000, which has the binary 60,000.
fn stores_many(alloc: Global, index: &mut Index) -> Result<bool, Fail> {
    for number in 1..10_001 {
        let nodes = [Node::Object(number + 1), Node::Object(50_000)];
        if !stores(alloc, index, "game", number, &nodes)? {
            return Ok(false);
        }
    }
    stores(alloc, index, "game", 50_000, &[Node::Binary(60_000)])
}

#[test]
fn a_closure_is_walked_10000_deep_and_its_shared_parts_once(rt: HostRuntime) -> Result<(), Fail> {
    let mut index = Index::new(rt.alloc(), Limits::standard());
    assert!(rt; holds(rt.alloc(), &mut index, Deed::Space("game"))?);
    assert!(rt; stores_many(rt.alloc(), &mut index)?);
    assert!(rt; lacks(rt.alloc(), &mut index, "game", 1, &[10_001, 60_000])?);
    assert_eq!(rt; index.reads(), 10_001);
    Ok(())
}
