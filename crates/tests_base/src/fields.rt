//! Each public call once against a value from outside. Cases by the hundred are the files of `case_fields`.

use cb_fields::{
    CbFault, Link, LinkKind, check_object, fault_is_no_object, fault_lies_within, links_of,
    needs_is_object, needs_tells_hashes, object_or_fault, one_fault, one_object, read_object,
    read_varuint, write_needs,
};
use ddc_names::IoHash;
use std::test::Fail;

const HASH: IoHash = IoHash(*b"abcdefghijklmnopqrst");

#[test]
fn a_number_and_its_length(rt: HostRuntime) {
    assert_eq!(rt; read_varuint(b"\xe1\x02\x03\x04"), Some((0x0102_0304, 4)));
    assert_eq!(rt; read_varuint(b"\xe1\x02\x03"), None);
}

#[test]
fn a_fault_has_its_place(rt: HostRuntime) {
    let fault = check_object(rt.alloc(), b"\x02\x02\x01\x15");
    assert_eq!(rt; fault, Err(CbFault::NotObject { at: 3 }));
}

#[test]
fn an_object_has_its_links(rt: HostRuntime) -> Result<(), Fail> {
    let object = b"\x02\x15\x0eabcdefghijklmnopqrst";
    assert!(rt; check_object(rt.alloc(), object).is_ok());
    let links = links_of(rt.alloc(), object)?;
    let link = Link {
        kind: LinkKind::Object,
        hash: HASH,
    };
    assert_eq!(rt; links.as_slice(), [link].as_slice());
    Ok(())
}

#[test]
fn a_reading_tells_the_links_or_the_fault(rt: HostRuntime) {
    let object = b"\x02\x15\x0fabcdefghijklmnopqrst";
    let Ok(links) = read_object(rt.alloc(), object) else {
        panic!(rt; "no object");
    };
    let link = Link {
        kind: LinkKind::Binary,
        hash: HASH,
    };
    assert_eq!(rt; links.as_slice(), [link].as_slice());
    let fault = read_object(rt.alloc(), b"\x02\x02\x01\x15").err();
    assert_eq!(rt; fault, Some(CbFault::NotObject { at: 3 }));
}

#[test]
fn needs_are_written(rt: HostRuntime) -> Result<(), Fail> {
    let needs = write_needs(rt.alloc(), &[HASH])?;
    assert_eq!(rt;
        needs.as_slice(),
        b"\x02\x1e\x85\x05needs\x16\x01\x10abcdefghijklmnopqrst".as_slice()
    );
    Ok(())
}

#[test]
fn laws(_rt: HostRuntime) {
    object_or_fault();
    fault_is_no_object();
    one_object();
    one_fault();
    fault_lies_within();
    needs_is_object();
    needs_tells_hashes();
}
