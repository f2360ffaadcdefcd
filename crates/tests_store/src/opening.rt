//! An empty store, and one with a namespace.

use ddc_disk::{Devices, Disk, HeldDevices, MemDisk};
use ddc_model::{Entry, Limits, SpaceRow};
use ddc_names::{Namespace, Rows};
use ddc_opening::{OpenFault, OpenedStore, create_store, fresh_of, load_store};
use std::alloc::Global;

// A store with the namespace `game`, of 24 and 4 hours.
const GAME: [u8; 41] = [
    0x44, 0x44, 0x43, 0x4a, 0x4c, 0x4f, 0x47, 0x0a, 1, 0, 0, 0, 1, 0, 0, 0, 0, 0, 0, 0, 1, 1, 0x0e,
    0, 0, 0, 1, 4, 0x67, 0x61, 0x6d, 0x65, 0x18, 0, 0, 0, 4, 0, 0, 0, 0,
];

const TIMES: SpaceRow = SpaceRow { ttl: 24, pin: 4 };

fn devices(alloc: Global) -> HeldDevices<MemDisk> {
    HeldDevices::new(Devices {
        first: MemDisk::new(alloc, Rows::new(alloc)),
        second: MemDisk::new(alloc, Rows::new(alloc)),
        blobs: MemDisk::new(alloc, Rows::new(alloc)),
    })
}

// How many changes a store was opened with, and the times of the namespace `game`.
fn found(opened: Result<OpenedStore, OpenFault>) -> Result<(usize, Option<SpaceRow>), OpenFault> {
    let store = opened?;
    let times = match Namespace::parse("game") {
        Ok(game) => store.index.space(&game),
        Err(_) => None,
    };
    Ok((store.steps.len(), times))
}

#[test]
fn an_empty_store_is_made_and_opened(rt: HostRuntime) {
    let alloc = rt.alloc();
    let mut held = devices(alloc);
    let made = create_store(alloc, &mut held, Limits::standard());
    assert!(rt; found(made) == Ok((0, None)));
    let opened = load_store(alloc, &mut held, Limits::standard());
    assert!(rt; found(opened) == Ok((0, None)));
    assert_eq!(rt; held.first().len(), Ok(22));
}

#[test]
fn the_file_of_a_namespace_opens(rt: HostRuntime) {
    let alloc = rt.alloc();
    let mut held = devices(alloc);
    assert_eq!(rt; held.first().write_at(0, &GAME), Ok(()));
    let opened = load_store(alloc, &mut held, Limits::standard());
    assert!(rt; found(opened) == Ok((1, Some(TIMES))));
}

#[test]
fn a_namespace_adds_no_blob(rt: HostRuntime) {
    let Ok(space) = Namespace::parse("game") else {
        panic!(rt; "no namespace");
    };
    let entry = Entry::Space {
        space,
        ttl: 24,
        pin: 4,
    };
    assert!(rt; fresh_of(&entry).is_none());
}
