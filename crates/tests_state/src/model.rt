//! Names and cursors on the heap, and the memory of a step.

use ddc_model::{Cursor, CursorBox, NameBox, Step};
use ddc_names::{Bucket, Namespace, RefKey, RefName, RefSpot};
use std::mem::size_of;
use std::test::Fail;

#[test]
fn a_boxed_name_is_the_name(rt: HostRuntime) -> Result<(), Fail> {
    let name = RefName {
        space: Namespace::parse("game")?,
        spot: RefSpot {
            bucket: Bucket::parse("ddc")?,
            key: RefKey([7; 20]),
        },
    };
    let boxed = NameBox::new(rt.alloc(), name)?;
    assert!(rt; *boxed.get() == name);
    Ok(())
}

#[test]
fn a_boxed_cursor_is_the_cursor(rt: HostRuntime) -> Result<(), Fail> {
    let cursor = Cursor {
        walking: true,
        after: 3,
        top: 9,
        from: Some(RefSpot {
            bucket: Bucket::parse("ddc")?,
            key: RefKey([7; 20]),
        }),
    };
    let boxed = CursorBox::new(rt.alloc(), cursor)?;
    assert!(rt; *boxed.get() == cursor);
    Ok(())
}

// A million steps take 144 MB. The greatest is that of an upload.
#[test]
fn a_step_takes_144_bytes_at_most(rt: HostRuntime) {
    assert!(rt; size_of::<Step>() <= 144);
}
