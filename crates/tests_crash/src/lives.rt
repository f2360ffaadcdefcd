//! A store is made and closed, and opened again: what a crash leaves at any moment, with nothing assumed.

ghost use Rattle.std.specs.Prelude.{◌≡◌, ◌⊎◌, IfSome};
ghost use Rattle.ddc_disk.specs.Disk.{EachImage, EachSince, IsImage};
ghost use Rattle.ddc_disk.specs.Images.{devices_line};
ghost use Rattle.ddc_disk.specs.MemDisks.{history_of, told_by};
ghost use Rattle.ddc_model.specs.Limits.{standard};
ghost use Rattle.ddc_book.specs.Tied.{GoesOnFrom};
ghost use Rattle.ddc_book.specs.View.{book_line, opened_count, sure_count, EachFrom, OpensFrom};
ghost use Rattle.tests_crash.specs.Honest.{new_history, AreNew, HoldSound, NoneOrEmpty, NoneOrFrom, WasHonest};

use ddc_book::{Book, Step, StoreFault};
use ddc_disk::{Devices, MemDisk};
use ddc_model::{Limits, MOST_BLOB_BYTES};
use ddc_names::{IoHash, Namespace, Rows};
use ddc_state::Checked;
use io_hash::Intake;
use std::alloc::Global;

// Of the byte `b`, by b3sum.
const LEAF: IoHash = IoHash([
    0x10, 0xe5, 0xcf, 0x3d, 0x3c, 0x8a, 0x4f, 0x9f, 0x34, 0x68, 0xc8, 0xcc, 0x58, 0xee, 0xa8, 0x48,
    0x92, 0xa2, 0x2f, 0xda,
]);

fn new_disk(alloc: Global) -> MemDisk
    ensures { history_of result ≡ new_history }
{
    MemDisk::new(alloc, Rows::new(alloc))
}

fn new_devices(alloc: Global) -> Devices<MemDisk>
    ensures { AreNew result }
{
    Devices {
        first: new_disk(alloc),
        second: new_disk(alloc),
        blobs: new_disk(alloc),
    }
}

// A new store. A crash until now left no store, or the empty one.
fn created(alloc: Global) -> Option<Book<MemDisk>>
    ensures honest { IfSome result (λ book. WasHonest standard book.opened book) }
    ensures before { IfSome result (λ book. EachFrom (book_line told_by book) 0 (NoneOrEmpty standard)) }
{
    match Book::create(alloc, new_devices(alloc), Limits::standard()) {
        Ok(book) => Some(book),
        Err(_) => None,
    }
}

// The store of devices of which a crash leaves a sound state. Meanwhile it left what it could leave before.
fn loaded(alloc: Global, devices: Devices<MemDisk>) -> Option<Book<MemDisk>>
    requires { HoldSound standard devices }
    ensures honest { IfSome result (λ book. WasHonest standard book.opened book) }
    ensures before { IfSome result (λ book. EachSince (devices_line told_by devices) (book_line told_by book) (IsImage (devices_line told_by devices))) }
{
    match Book::load(alloc, devices, Limits::standard()) {
        Ok(book) => Some(book),
        Err(_) => None,
    }
}

fn add_space(alloc: Global, book: &mut Book<MemDisk>, space: Namespace) -> bool
    requires { WasHonest standard book.old.opened book.old }
    ensures honest { WasHonest standard book.old.opened book.new }
    ensures goes_on { GoesOnFrom (book_line told_by book.old) told_by book.new.devices }
{
    book.set_space(alloc, space, 24, 4).is_ok()
}

fn add_blob(alloc: Global, book: &mut Book<MemDisk>, space: Namespace, blob: Checked) -> bool
    requires { WasHonest standard book.old.opened book.old }
    ensures honest { WasHonest standard book.old.opened book.new }
    ensures goes_on { GoesOnFrom (book_line told_by book.old) told_by book.new.devices }
{
    if blob.whole().bytes().len() as u64 > MOST_BLOB_BYTES {
        return false;
    }
    book.upload(alloc, space, blob, 7).is_ok()
}

// What the store's own clauses say of crashes, with no premise.
fn closed(book: Book<MemDisk>) -> (Devices<MemDisk>, Rows<Step>)
    requires { WasHonest standard book.opened book }
    ensures devices { result.0 ≡ book.devices }
    ensures since { EachFrom (devices_line told_by result.0) book.opened (OpensFrom (opened_count result.1) standard result.1) }
    ensures last { EachImage (devices_line told_by result.0) (OpensFrom (sure_count result.1) standard result.1) }
{
    book.into_parts()
}

// A store is made, gets a namespace and is closed. A crash at any moment leaves no store, or a sound state that some of
// its first steps leave; and one now leaves what all steps leave, or all but the change of a call that failed.
fn first_life(alloc: Global, space: Namespace) -> Option<(Devices<MemDisk>, Rows<Step>)>
    ensures each { IfSome result (λ r. EachFrom (devices_line told_by r.0) 0 (NoneOrFrom standard r.1)) }
    ensures last { IfSome result (λ r. EachImage (devices_line told_by r.0) (OpensFrom (sure_count r.1) standard r.1)) }
{
    let mut book = created(alloc)?;
    add_space(alloc, &mut book, space);
    Some(closed(book))
}

// A store is opened, gets a blob and is closed. A crash meanwhile leaves what it could leave before, or a sound state that
// the steps up to the opening and some of the first ones after it leave; and one now leaves what all steps leave, or all
// but the change of a call that failed.
fn later_life(
    alloc: Global,
    devices: Devices<MemDisk>,
    space: Namespace,
    blob: Checked,
) -> Option<(Devices<MemDisk>, Rows<Step>)>
    requires { HoldSound standard devices }
    ensures each { IfSome result (λ r. EachSince (devices_line told_by devices) (devices_line told_by r.0) (λ im. IsImage (devices_line told_by devices) im ⊎ OpensFrom (opened_count r.1) standard r.1 im)) }
    ensures last { IfSome result (λ r. EachImage (devices_line told_by r.0) (OpensFrom (sure_count r.1) standard r.1)) }
{
    let mut book = loaded(alloc, devices)?;
    add_blob(alloc, &mut book, space, blob);
    Some(closed(book))
}

// Both lives of a store, with the steps of each. From its making on a crash at any moment leaves no store, or a sound
// state that some of the first steps of one of the lives leave; and one now leaves what all steps of the later one leave,
// or all but the change of a call that failed. Nothing is assumed.
fn both_lives(
    alloc: Global,
    space: Namespace,
    blob: Checked,
) -> Option<(Rows<Step>, Rows<Step>, Devices<MemDisk>)>
    ensures each { IfSome result (λ r. EachFrom (devices_line told_by r.2) 0 (λ im. NoneOrFrom standard r.0 im ⊎ OpensFrom (opened_count r.1) standard r.1 im)) }
    ensures last { IfSome result (λ r. EachImage (devices_line told_by r.2) (OpensFrom (sure_count r.1) standard r.1)) }
{
    let (devices, first) = first_life(alloc, space)?;
    let (devices, later) = later_life(alloc, devices, space, blob)?;
    Some((first, later, devices))
}

fn checked(alloc: Global, bytes: &[u8]) -> Option<Checked> {
    let mut intake = Intake::new(alloc, bytes.len() as u64);
    intake.take(bytes).ok()?;
    Checked::new(alloc, intake.finish()).ok()
}

// The number of steps of a store that these devices open to, and the length of the leaf there.
fn opened(
    alloc: Global,
    devices: Devices<MemDisk>,
    space: Namespace,
) -> Option<(u64, Result<u64, StoreFault>)> {
    match Book::load(alloc, devices, Limits::standard()) {
        Ok(book) => Some((book.count(), book.has_blob(&space, LEAF))),
        Err(_back) => None,
    }
}

#[test]
fn a_store_is_sound_from_its_making_on(rt: HostRuntime) {
    let alloc = rt.alloc();
    let Ok(space) = Namespace::parse("game") else {
        panic!(rt; "no namespace");
    };
    let Some(blob) = checked(alloc, b"b") else {
        panic!(rt; "no blob");
    };
    let Some((first, later, devices)) = both_lives(alloc, space, blob) else {
        panic!(rt; "no store");
    };
    assert_eq!(rt; (first.len(), later.len()), (2, 3));
    assert_eq!(rt; opened(alloc, devices, space), Some((3, Ok(1))));
}
