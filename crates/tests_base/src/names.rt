//! Values from outside: texts that a reader can check by eye, and the BLAKE3 hash of no bytes.

use ddc_names::{
    BadName, Bucket, Failed, IoHash, Namespace, NoMemory, RefKey, RefName, RefSpot, Rows,
    order_of_buckets, order_of_hashes, order_of_keys, order_of_namespaces, order_of_references,
    order_of_spots,
};
use std::alloc::{AllocError, Global};
use std::cmp::Ordering;
use std::test::Fail;

// The first 20 bytes of the BLAKE3 hash of no bytes.
const EMPTY: [u8; 20] = [
    0xaf, 0x13, 0x49, 0xb9, 0xf5, 0xf9, 0xa1, 0xa6, 0xa0, 0x40, 0x4d, 0xea, 0x36, 0xdc, 0xc9, 0x49,
    0x9b, 0xcb, 0x25, 0xc9,
];

#[test]
fn a_hash_is_read_in_either_case_and_written_in_lower_case(rt: HostRuntime) {
    let lower = IoHash::parse("af1349b9f5f9a1a6a0404dea36dcc9499bcb25c9");
    let upper = IoHash::parse("AF1349B9F5F9A1A6A0404DEA36DCC9499BCB25C9");
    assert_eq!(rt; lower, Some(IoHash(EMPTY)));
    assert_eq!(rt; upper, Some(IoHash(EMPTY)));
    assert!(rt; IoHash(EMPTY).text() == *b"af1349b9f5f9a1a6a0404dea36dcc9499bcb25c9");
    for text in [
        "",
        "af1349b9f5f9a1a6a0404dea36dcc9499bcb25c",
        "af1349b9f5f9a1a6a0404dea36dcc9499bcb25c9a",
        "gf1349b9f5f9a1a6a0404dea36dcc9499bcb25c9",
    ] {
        assert_eq!(rt; IoHash::parse(text), None);
    }
}

// The least bad place of a name, as a namespace and as a bucket.
fn faults_of(text: &str) -> (Option<u32>, Option<u32>) {
    let space = Namespace::parse(text).err();
    let bucket = Bucket::parse(text).err();
    (space.map(|fault| fault.at), bucket.map(|fault| fault.at))
}

#[test]
fn a_name_is_refused_at_its_least_bad_place(rt: HostRuntime) {
    let cases = [
        ("", 0),
        ("-ue", 0),
        ("ue5 ddc", 3),
        ("ue5/d d", 3),
        ("käse", 1),
        (
            "aaaaaaaaaaaaaaaabbbbbbbbbbbbbbbbccccccccccccccccdddddddddddddddde",
            64,
        ),
    ];
    for (text, at) in cases {
        assert_eq!(rt; faults_of(text), (Some(at), Some(at)), "at {text}");
    }
}

#[test]
fn a_name_gives_its_text_back(rt: HostRuntime) -> Result<(), Fail> {
    for text in [
        "5",
        "5.Ue_ddc-",
        "aaaaaaaaaaaaaaaabbbbbbbbbbbbbbbbccccccccccccccccdddddddddddddddd",
    ] {
        assert_eq!(rt; Namespace::parse(text)?.as_str(), text);
        assert_eq!(rt; Bucket::parse(text)?.as_str(), text);
    }
    Ok(())
}

#[test]
fn a_key_is_refused_at_its_least_bad_place(rt: HostRuntime) {
    let cases = [
        ("", Err(BadName { at: 0 })),
        (
            "af1349b9x5f9a1a6a0404dea36dcc9499bcb25c9",
            Err(BadName { at: 8 }),
        ),
        (
            "af1349b9f5f9a1a6a0404dea36dcc9499bcb25c",
            Err(BadName { at: 39 }),
        ),
        (
            "af1349b9f5f9a1a6a0404dea36dcc9499bcb25c9a",
            Err(BadName { at: 40 }),
        ),
        (
            "Af1349b9f5f9a1a6a0404dea36dcc9499bcb25C9",
            Ok(RefKey(EMPTY)),
        ),
    ];
    for (text, wanted) in cases {
        assert!(rt; RefKey::parse(text) == wanted, "at {text}");
    }
    assert!(rt; RefKey(EMPTY).text() == *b"af1349b9f5f9a1a6a0404dea36dcc9499bcb25c9");
}

fn name_of(space: &str, bucket: &str, key: u8) -> Result<RefName, BadName> {
    Ok(RefName {
        space: Namespace::parse(space)?,
        spot: RefSpot {
            bucket: Bucket::parse(bucket)?,
            key: RefKey([key; 20]),
        },
    })
}

#[test]
fn references_are_ordered_by_namespace_bucket_and_key(rt: HostRuntime) -> Result<(), Fail> {
    let mut before = None;
    for (space, bucket, key) in [
        ("ab", "z", 9),
        ("abc", "a", 1),
        ("abc", "b-", 1),
        ("abc", "b.", 0),
        ("abc", "b.", 1),
    ] {
        let name = Some(name_of(space, bucket, key)?);
        assert!(rt; before < name);
        before = name;
    }
    Ok(())
}

#[test]
fn orders_compare_the_first_field_first(rt: HostRuntime) -> Result<(), Fail> {
    let (one, other) = (name_of("a", "b", 1)?, name_of("b", "a", 2)?);
    let (low, high) = (&other.spot, &one.spot);
    let orders = [
        order_of_references(&one, &other),
        order_of_namespaces(&one.space, &other.space),
        order_of_spots(low, high),
        order_of_buckets(&low.bucket, &high.bucket),
        order_of_keys(&high.key, &low.key),
        order_of_hashes(&IoHash([1; 20]), &IoHash([2; 20])),
    ];
    assert!(rt; orders == [Ordering::Less; 6]);
    Ok(())
}

fn pushed(alloc: Global) -> Result<Rows<u32>, NoMemory> {
    let mut rows = Rows::new(alloc);
    rows.push(7)?;
    rows.push(9)?;
    Ok(rows)
}

#[test]
fn a_list_gives_back_what_was_pushed(rt: HostRuntime) -> Result<(), Fail> {
    let mut rows = pushed(rt.alloc())?;
    assert!(rt; rows.len() == 2 && rows.as_slice() == [7, 9].as_slice());
    assert_eq!(rt; rows.pop(), Some(9));
    let again = Rows::of_vec(rows.into_vec());
    assert!(rt; again.as_slice() == [7].as_slice());
    Ok(())
}

fn of_allocation(alloc: Global) -> Result<Vec<u8>, NoMemory> {
    let mut bytes = Vec::from_slice(alloc, b"ab")?;
    bytes.push(b'c')?;
    Ok(bytes)
}

#[test]
fn want_of_memory_has_one_name(rt: HostRuntime) {
    assert!(rt; of_allocation(rt.alloc()).is_ok());
    assert_eq!(rt; NoMemory::from(AllocError), NoMemory);
    assert_eq!(rt; Failed, Failed);
}
