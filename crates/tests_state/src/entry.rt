//! Each public call once against bytes written by hand. Cases by the hundred are the files of `case_fields`.

use ddc_entry::{one_entry, read_entry, write_entry, written_then_read};
use ddc_model::Entry;
use ddc_names::Namespace;
use std::test::Fail;

const SPELLED: [u8; 14] = *b"\x01\x04game\x18\0\0\0\x04\0\0\0";

#[test]
fn an_entry_is_its_bytes(rt: HostRuntime) -> Result<(), Fail> {
    let entry = Entry::Space {
        space: Namespace::parse("game")?,
        ttl: 24,
        pin: 4,
    };
    let written = write_entry(rt.alloc(), &entry)?;
    assert_eq!(rt; written.as_slice(), SPELLED.as_slice());
    let again = written_then_read(rt.alloc(), &entry)?;
    assert!(rt;
        matches!(
            again,
            Some(Entry::Space {
                ttl: 24,
                pin: 4,
                ..
            })
        )
    );
    Ok(())
}

#[test]
fn bytes_are_an_entry_or_none(rt: HostRuntime) -> Result<(), Fail> {
    let read = read_entry(rt.alloc(), &SPELLED)?;
    assert!(rt;
        matches!(
            read,
            Some(Entry::Space {
                ttl: 24,
                pin: 4,
                ..
            })
        )
    );
    assert!(rt; read_entry(rt.alloc(), &SPELLED[..13])?.is_none());
    assert!(rt; read_entry(rt.alloc(), b"\x01\x04game\x18\0\0\0\x04\0\0\0\x07")?.is_none());
    Ok(())
}

#[test]
fn laws(_rt: HostRuntime) {
    one_entry();
}
