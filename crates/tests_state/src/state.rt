//! The effect of a few entries. Entries by the hundred, legal ones and others, are compared from outside, through the program.

use cb_fields::{CbFault, Link, LinkKind};
use ddc_model::{BlobRow, Cursor, CursorBox, Entry, Extent, Limits, NameBox, SpaceRow, Stored};
use ddc_names::{Bucket, IoHash, Namespace, NoMemory, RefKey, RefName, RefSpot, Rows};
use ddc_state::{Checked, Index};
use io_hash::{Intake, Whole};
use std::alloc::Global;
use std::test::Fail;

fn link_of(kind: LinkKind) -> Link {
    Link {
        kind,
        hash: IoHash([2; 20]),
    }
}

// An upload of a blob that has a link to an object and one to a binary.
fn upload_to(alloc: Global, space: Namespace) -> Result<Entry, NoMemory> {
    let links = [link_of(LinkKind::Object), link_of(LinkKind::Binary)];
    let blob = Stored {
        hash: IoHash([1; 20]),
        len: 4097,
        start: 10,
        links: Rows::of_vec(Vec::from_slice(alloc, &links)?),
    };
    Ok(Entry::Upload {
        space,
        hour: 100,
        blob,
    })
}

// Makes an entry, where it fits.
fn makes(alloc: Global, index: &mut Index, entry: &Entry) -> bool {
    index.fits(entry) && index.apply(alloc, entry).is_ok()
}

// An index with one namespace, and the upload that was made in it; `None` for want of memory.
fn index_of(alloc: Global, space: Namespace) -> Option<(Index, Entry)> {
    let mut index = Index::new(alloc, Limits::standard());
    let upload = upload_to(alloc, space).ok()?;
    let refused = !makes(alloc, &mut index, &upload);
    let times = Entry::Space {
        space,
        ttl: 24,
        pin: 4,
    };
    let made = makes(alloc, &mut index, &times) && makes(alloc, &mut index, &upload);
    if refused && made {
        Some((index, upload))
    } else {
        None
    }
}

#[test]
fn entries_that_fit_are_made_and_others_refused(rt: HostRuntime) -> Result<(), Fail> {
    let space = Namespace::parse("game")?;
    let Some((index, upload)) = index_of(rt.alloc(), space) else {
        panic!(rt; "no index");
    };
    assert!(rt; !index.fits(&upload));
    assert_eq!(rt; index.space(&space), Some(SpaceRow { ttl: 24, pin: 4 }));
    assert_eq!(rt; (index.hour(), index.space_count()), (100, 1));
    assert_eq!(rt; (index.blob_count(), index.link_count()), (1, 2));
    assert_eq!(rt; (index.refs().len(), index.limits().blobs), (0, 2_097_152));
    let row = BlobRow {
        len: 4097,
        at: 100,
        extent: Extent {
            start: 10,
            units: 2,
        },
    };
    assert_eq!(rt; index.blob(&space, &IoHash([1; 20])), Some(row));
    Ok(())
}

fn put_at(alloc: Global, name: RefName) -> Result<Entry, NoMemory> {
    Ok(Entry::Put {
        name: NameBox::new(alloc, name)?,
        root: IoHash([1; 20]),
        fresh: None,
        whole: true,
        hour: 101,
    })
}

fn expiry_of(alloc: Global, name: RefName) -> Result<Entry, NoMemory> {
    Ok(Entry::Expire {
        space: name.space,
        spots: Rows::of_vec(Vec::from_slice(alloc, &[name.spot])?),
        hour: 200,
    })
}

fn sweep_of(alloc: Global, space: Namespace) -> Result<Entry, NoMemory> {
    Ok(Entry::Swept {
        space,
        hashes: Rows::of_vec(Vec::from_slice(alloc, &[IoHash([1; 20])])?),
    })
}

fn cursor_at(alloc: Global, space: Namespace, cursor: Cursor) -> Result<Entry, NoMemory> {
    Ok(Entry::Cursor {
        space,
        cursor: CursorBox::new(alloc, cursor)?,
    })
}

// Lets a reference expire, where it may; and not a second time.
fn expires(alloc: Global, index: &mut Index, name: RefName) -> bool {
    match expiry_of(alloc, name) {
        Ok(expiry) => makes(alloc, index, &expiry) && !index.fits(&expiry),
        Err(_) => false,
    }
}

// Puts a reference, where it may.
fn puts(alloc: Global, index: &mut Index, name: RefName) -> bool {
    match put_at(alloc, name) {
        Ok(put) => index.has_room_for_events(&put) && makes(alloc, index, &put),
        Err(_) => false,
    }
}

// Sweeps the blob, where it may; and not a second time.
fn is_swept(alloc: Global, index: &mut Index, space: Namespace) -> bool {
    match sweep_of(alloc, space) {
        Ok(sweep) => makes(alloc, index, &sweep) && !index.fits(&sweep),
        Err(_) => false,
    }
}

#[test]
fn what_expires_and_is_swept_goes(rt: HostRuntime) -> Result<(), Fail> {
    let space = Namespace::parse("game")?;
    let spot = RefSpot {
        bucket: Bucket::parse("maps")?,
        key: RefKey([7; 20]),
    };
    let name = RefName { space, spot };
    let Some((mut index, _)) = index_of(rt.alloc(), space) else {
        panic!(rt; "no index");
    };
    assert!(rt; !expires(rt.alloc(), &mut index, name));
    assert!(rt; index.log(&space).is_none());
    assert!(rt; puts(rt.alloc(), &mut index, name));
    assert!(rt; expires(rt.alloc(), &mut index, name));
    assert!(rt; is_swept(rt.alloc(), &mut index, space));
    assert_eq!(rt; index.log(&space).map(|log| log.last()), Some(2));
    assert_eq!(rt; (index.refs().len(), index.blob_count()), (0, 0));
    assert_eq!(rt; (index.free_run(67_108_864), index.hour()), (Some(0), 200));
    Ok(())
}

fn has_cursor(index: &Index, space: &Namespace, cursor: &Cursor) -> bool {
    match index.cursor(space) {
        Some(noted) => noted == *cursor,
        None => false,
    }
}

#[test]
fn a_cursor_is_noted(rt: HostRuntime) -> Result<(), Fail> {
    let space = Namespace::parse("game")?;
    let Some((mut index, _)) = index_of(rt.alloc(), space) else {
        panic!(rt; "no index");
    };
    let cursor = Cursor {
        walking: true,
        after: 3,
        top: 5,
        from: None,
    };
    let entry = cursor_at(rt.alloc(), space, cursor)?;
    assert!(rt; index.cursor(&space).is_none());
    assert!(rt; makes(rt.alloc(), &mut index, &entry));
    assert!(rt; has_cursor(&index, &space, &cursor));
    assert!(rt; index.next_space(None) == Some(space));
    assert!(rt; index.next_space(Some(space)).is_none());
    Ok(())
}

#[test]
fn reads_of_links_are_counted(rt: HostRuntime) -> Result<(), Fail> {
    let space = Namespace::parse("game")?;
    let Some((mut index, _)) = index_of(rt.alloc(), space) else {
        panic!(rt; "no index");
    };
    let (_, links) = index.links(&space, &IoHash([1; 20]));
    assert_eq!(rt; links.len(), 2);
    assert!(rt; links[0] == link_of(LinkKind::Object));
    assert!(rt; links[1] == link_of(LinkKind::Binary));
    let (_, links) = index.links(&space, &IoHash([2; 20]));
    assert_eq!(rt; links.len(), 0);
    assert_eq!(rt; index.reads(), 2);
    Ok(())
}

fn whole_of(alloc: Global, bytes: &[u8]) -> Result<Whole, Fail> {
    let mut intake = Intake::new(alloc, bytes.len() as u64);
    intake.take(bytes)?;
    Ok(intake.finish())
}

#[test]
fn a_check_tells_an_object_and_its_links(rt: HostRuntime) -> Result<(), Fail> {
    let bytes = b"\x02\x17\x8f\x01aabcdefghijklmnopqrst";
    let object = Checked::new(rt.alloc(), whole_of(rt.alloc(), bytes)?)?;
    assert!(rt; object.is_object());
    assert_eq!(rt; object.links().len(), 1);
    assert!(rt; object.links()[0].kind == LinkKind::Binary);
    assert_eq!(rt; object.links()[0].hash, IoHash(*b"abcdefghijklmnopqrst"));
    let letter = Checked::new(rt.alloc(), whole_of(rt.alloc(), b"a")?)?;
    assert!(rt; !letter.is_object());
    assert_eq!(rt; letter.whole().bytes(), b"a".as_slice());
    assert!(rt; letter.whole().hash().text() == *b"17762fddd969a453925d65717ac3eea21320b66b");
    Ok(())
}

#[test]
fn what_has_to_be_an_object_is_one_or_has_a_fault(rt: HostRuntime) -> Result<(), Fail> {
    let bytes = b"\x02\x15\x0eabcdefghijklmnopqrst";
    let Ok(object) = Checked::object(rt.alloc(), whole_of(rt.alloc(), bytes)?) else {
        panic!(rt; "no object");
    };
    assert!(rt; object.is_object());
    assert_eq!(rt; object.links().len(), 1);
    assert_eq!(rt; object.whole().bytes(), bytes.as_slice());
    let fault = Checked::object(rt.alloc(), whole_of(rt.alloc(), b"\x02\x02\x01\x15")?).err();
    assert_eq!(rt; fault, Some(CbFault::NotObject { at: 3 }));
    Ok(())
}
