//! A tied store, whose devices come back, and stores that go from thread to thread. The hashes are from b3sum.

ghost use Rattle.ddc_disk.specs.Images.{devices_line};
ghost use Rattle.ddc_disk.specs.MemDisks.{told_by};
ghost use Rattle.ddc_book.specs.Tied.{GoesOnFrom};

use ddc_book::{Book, Held, Opened, Opening, StoreFault, Tied};
use ddc_disk::{Devices, Disk, MemDisk};
use ddc_model::{Limits, MOST_BLOB_BYTES};
use ddc_names::{Bucket, IoHash, Namespace, RefKey, RefName, RefSpot, Rows};
use ddc_state::Checked;
use io_hash::Intake;
use std::alloc::Global;
use std::marker::Brand;
use std::thread::join;

// Of the byte `a`.
const LEAF: IoHash = IoHash([
    0x17, 0x76, 0x2f, 0xdd, 0xd9, 0x69, 0xa4, 0x53, 0x92, 0x5d, 0x65, 0x71, 0x7a, 0xc3, 0xee, 0xa2,
    0x13, 0x20, 0xb6, 0x6b,
]);

// Of the byte `b`.
const OTHER_LEAF: IoHash = IoHash([
    0x10, 0xe5, 0xcf, 0x3d, 0x3c, 0x8a, 0x4f, 0x9f, 0x34, 0x68, 0xc8, 0xcc, 0x58, 0xee, 0xa8, 0x48,
    0x92, 0xa2, 0x2f, 0xda,
]);

// Of the object that links to the leaf, as bytes.
const INNER: IoHash = IoHash([
    0x8d, 0xe1, 0xd1, 0xf7, 0xa0, 0x2e, 0x96, 0x5d, 0x9f, 0x4c, 0xfa, 0xdd, 0x9e, 0x2a, 0x6e, 0xe6,
    0x66, 0x90, 0x72, 0x2d,
]);

const INNER_OBJECT: &[u8] = b"\x02\x15\x0f\x17v/\xdd\xd9i\xa4S\x92]eqz\xc3\xee\xa2\x13 \xb6k";

// A command at the hour 7.
#[derive(Clone, Copy)]
enum Call {
    SetSpace,
    Put,
    Upload,
    Finalise,
    Get,
    Peek,
    Has,
    Open,
    Exist,
    Verify,
    Delete,
    Blobs,
    Steps,
    Faults,
}

// The commands of a session, and how many hashes or bytes each answers.
const SESSION: [(Call, u64); 14] = [
    (Call::SetSpace, 0),
    (Call::Put, 1),
    (Call::Upload, 0),
    (Call::Finalise, 0),
    (Call::Get, 23),
    (Call::Peek, 23),
    (Call::Has, 1),
    (Call::Open, 1),
    (Call::Exist, 1),
    (Call::Verify, 0),
    (Call::Delete, 0),
    (Call::Blobs, 2),
    (Call::Steps, 6),
    (Call::Faults, 0),
];

fn checked(alloc: Global, bytes: &[u8]) -> Option<Checked> {
    let mut intake = Intake::new(alloc, bytes.len() as u64);
    intake.take(bytes).ok()?;
    Checked::new(alloc, intake.finish()).ok()
}

fn done(answer: Result<(), StoreFault>) -> Option<u64> {
    match answer {
        Ok(()) => Some(0),
        Err(_) => None,
    }
}

fn listed(answer: Result<Rows<IoHash>, StoreFault>) -> Option<u64> {
    match answer {
        Ok(rows) => Some(rows.len() as u64),
        Err(_) => None,
    }
}

fn served_length(answer: Result<Held, StoreFault>) -> Option<u64> {
    match answer {
        Ok(held) => Some(held.bytes.len() as u64),
        Err(_) => None,
    }
}

fn opened_length(answer: Result<Opened, StoreFault>) -> Option<u64> {
    match answer {
        Ok(Opened::Whole(bytes)) => Some(bytes.len() as u64),
        Err(_) => None,
    }
}

fn peeked_length(answer: Result<(IoHash, u64), StoreFault>) -> Option<u64> {
    match answer {
        Ok((_, len)) => Some(len),
        Err(_) => None,
    }
}

fn upload<K: Opening>(
    alloc: Global,
    tied: &mut Tied<MemDisk, K>,
    space: Namespace,
    blob: Checked,
) -> Option<u64> {
    if blob.whole().bytes().len() as u64 > MOST_BLOB_BYTES {
        return None;
    }
    done(tied.upload(alloc, space, blob, 7))
}

fn put<K: Opening>(
    alloc: Global,
    tied: &mut Tied<MemDisk, K>,
    name: RefName,
    object: Checked,
) -> Option<u64> {
    if !object.is_object() || object.whole().bytes().len() as u64 > MOST_BLOB_BYTES {
        return None;
    }
    listed(tied.put(alloc, name, object, 7))
}

// The number of steps, where that many are listed.
fn counted<K: Opening>(tied: &Tied<MemDisk, K>) -> Option<u64> {
    let count = tied.count();
    if tied.steps().len() as u64 == count {
        Some(count)
    } else {
        None
    }
}

fn name_in(space: Namespace) -> Option<RefName> {
    let bucket = Bucket::parse("maps").ok()?;
    let key = RefKey([1; 20]);
    Some(RefName {
        space,
        spot: RefSpot { bucket, key },
    })
}

// What a command of the reference answers, where it is done.
fn of_reference<K: Opening>(
    alloc: Global,
    tied: &mut Tied<MemDisk, K>,
    name: RefName,
    call: Call,
) -> Option<u64> {
    match call {
        Call::Put => match checked(alloc, INNER_OBJECT) {
            Some(object) => put(alloc, tied, name, object),
            None => None,
        },
        Call::Finalise => listed(tied.finalise(alloc, &name, INNER, 7)),
        Call::Get => served_length(tied.get_ref(alloc, &name, 7)),
        Call::Peek => peeked_length(tied.peek_ref(&name)),
        Call::Delete => done(tied.delete(alloc, &name, 7)),
        _ => None,
    }
}

// What a command answers, where it is done.
fn answer<K: Opening>(
    alloc: Global,
    tied: &mut Tied<MemDisk, K>,
    space: Namespace,
    call: Call,
) -> Option<u64> {
    match call {
        Call::SetSpace => done(tied.set_space(alloc, space, 24, 4)),
        Call::Upload => match checked(alloc, b"a") {
            Some(blob) => upload(alloc, tied, space, blob),
            None => None,
        },
        Call::Put | Call::Finalise | Call::Get | Call::Peek | Call::Delete => {
            of_reference(alloc, tied, name_in(space)?, call)
        }
        Call::Has => tied.has_blob(&space, LEAF).ok(),
        Call::Open => opened_length(tied.open_blob(alloc, &space, LEAF)),
        Call::Exist => listed(tied.exist(alloc, &space, &[LEAF, OTHER_LEAF])),
        Call::Verify => done(tied.verify(alloc, &space, LEAF)),
        Call::Blobs => Some(tied.index().blob_count()),
        Call::Steps => counted(tied),
        Call::Faults => Some(tied.faults()),
    }
}

// The place of the first command that is answered otherwise.
fn first_wrong<K: Opening>(
    alloc: Global,
    tied: &mut Tied<MemDisk, K>,
    space: Namespace,
) -> Option<usize> {
    for (place, (call, told)) in SESSION.iter().copied().enumerate() {
        if answer(alloc, tied, space, call) != Some(told) {
            return Some(place);
        }
    }
    None
}

// The store is a new one. A blob is stored after the session.
fn run<K: Opening>(
    alloc: Global,
    devices: Devices<MemDisk>,
    space: Namespace,
) -> (Devices<MemDisk>, Option<usize>)
    requires { GoesOnFrom K.start told_by devices }
    ensures { GoesOnFrom K.start told_by result.0 }
{
    match Book::create(alloc, devices, Limits::standard()) {
        Ok(book) => {
            let mut tied: Tied<MemDisk, K> = Tied::new(book);
            let wrong = first_wrong(alloc, &mut tied, space);
            if let Some(blob) = checked(alloc, b"b") {
                let _ = upload(alloc, &mut tied, space, blob);
            }
            (tied.into_devices(), wrong)
        }
        Err((back, _)) => (back, Some(0)),
    }
}

// What comes back are the devices that were handed in.
fn served(
    alloc: Global,
    devices: Devices<MemDisk>,
    space: Namespace,
) -> (Devices<MemDisk>, Option<usize>)
    ensures { GoesOnFrom (devices_line told_by devices) told_by result.0 }
{
    run::<Brand>(alloc, devices, space)
}

// The number of steps of a store that these devices open to, and the length of the other leaf there.
fn opened(
    alloc: Global,
    devices: Devices<MemDisk>,
    space: Namespace,
) -> Option<(u64, Result<u64, StoreFault>)> {
    match Book::load(alloc, devices, Limits::standard()) {
        Ok(book) => Some((book.count(), book.has_blob(&space, OTHER_LEAF))),
        Err(_back) => None,
    }
}

#[test]
fn a_tied_store_is_served(rt: HostRuntime) {
    let alloc = rt.alloc();
    let Ok(space) = Namespace::parse("game") else {
        panic!(rt; "no namespace");
    };
    let (back, wrong) = served(alloc, new_devices(alloc), space);
    assert_eq!(rt; wrong, None);
    assert_eq!(rt; back.first.calls(), 35);
    assert_eq!(rt; opened(alloc, back, space), Some((7, Ok(1))));
}

fn new_devices(alloc: Global) -> Devices<MemDisk> {
    Devices {
        first: MemDisk::new(alloc, Rows::new(alloc)),
        second: MemDisk::new(alloc, Rows::new(alloc)),
        blobs: MemDisk::new(alloc, Rows::new(alloc)),
    }
}

// How many steps a new store has.
fn steps_of(made: Option<Book<MemDisk>>) -> Option<usize> {
    Some(made?.into_parts().1.len())
}

#[test]
fn a_store_goes_from_thread_to_thread(rt: HostRuntime) {
    let alloc = rt.alloc();
    let one = Book::create(alloc, new_devices(alloc), Limits::standard()).ok();
    let other = Book::create(alloc, new_devices(alloc), Limits::standard()).ok();
    let steps = join(&rt, move || steps_of(one), move || steps_of(other));
    assert_eq!(rt; steps, (Some(1), Some(1)));
}
