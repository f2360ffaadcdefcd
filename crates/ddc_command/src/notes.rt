// What is told of how a command ended.
ghost use Rattle.std.specs.Prelude.{◌≡◌, ◌++◌, codes};
ghost use Rattle.ddc_service.specs.Effects.{effect};
ghost use Rattle.ddc_command.specs.Notes.{bad_note, note_of, open_cause, open_note, open_status, reference_text, refused_note, refused_status, session_note, session_status, status_of};
ghost use Rattle.ddc_command.specs.Ends.{Noted};
ghost use Rattle.ddc_command.specs.inside.Noting.{NotesAs};

use crate::end::CommandEnd;
use ddc_book::{OpenFault, StoreFault};
use ddc_link::{Sink, put_all};
use ddc_names::{Failed, RefName};
use ddc_service::SessionEnd;
use itoa::Buffer;

fn write_note<N: Sink>(notes: &mut N, text: &[u8]) -> Result<(), Failed>
    ensures gives { NotesAs (effect N.written N.faults notes.old notes.new) text.now result }
{
    put_all(notes, text)
}

// Writes two texts, one after the other.
fn write_two<N: Sink>(notes: &mut N, first: &[u8], second: &[u8]) -> Result<(), Failed>
    ensures gives { NotesAs (effect N.written N.faults notes.old notes.new) (first.now ++ second.now) result }
{
    match write_note(notes, first) {
        Ok(()) => write_note(notes, second),
        Err(failed) => Err(failed),
    }
}

fn write_four<N: Sink>(
    notes: &mut N,
    first: &[u8],
    second: &[u8],
    third: &[u8],
    fourth: &[u8],
) -> Result<(), Failed>
    ensures gives { NotesAs (effect N.written N.faults notes.old notes.new) ((first.now ++ second.now) ++ (third.now ++ fourth.now)) result }
{
    match write_two(notes, first, second) {
        Ok(()) => write_two(notes, third, fourth),
        Err(failed) => Err(failed),
    }
}

// Writes the note on an end inside the input, after so many bytes.
fn write_bad<N: Sink>(notes: &mut N, at: u64, code: &str) -> Result<(), Failed>
    ensures gives { NotesAs (effect N.written N.faults notes.old notes.new) (bad_note at code.now) result }
{
    let mut digits = Buffer::new();
    let place = digits.format(at).as_bytes();
    match write_four(notes, b"ddc: bad input at ", place, b": ", code.as_bytes()) {
        Ok(()) => write_note(notes, b"\n"),
        Err(failed) => Err(failed),
    }
}

// Writes the note on how a session ended.
fn write_session<N: Sink>(notes: &mut N, end: SessionEnd) -> Result<(), Failed>
    ensures gives { NotesAs (effect N.written N.faults notes.old notes.new) (session_note end) result }
{
    match end {
        SessionEnd::Closed => write_note(notes, b""),
        SessionEnd::Unread(at) => write_bad(notes, at, "unread"),
        SessionEnd::Cut(at) => write_bad(notes, at, "cut"),
        SessionEnd::Spent(at) => write_bad(notes, at, "too_many_requests"),
        SessionEnd::ReadFailed => write_note(notes, b"ddc: read failed\n"),
        SessionEnd::WriteFailed => write_note(notes, b"ddc: write failed\n"),
        SessionEnd::DiskFailed => write_note(notes, b"ddc: disk failed\n"),
        SessionEnd::Damaged => write_note(notes, b"ddc: damaged blobs 1\n"),
        SessionEnd::NoMemory => write_note(notes, b"ddc: no memory\n"),
    }
}

// Writes a reference: the namespace, the bucket and the key's digits.
fn write_reference<N: Sink>(notes: &mut N, name: RefName) -> Result<(), Failed>
    ensures gives { NotesAs (effect N.written N.faults notes.old notes.new) (reference_text name) result }
{
    let RefName { space, spot } = name;
    match write_four(
        notes,
        space.as_str().as_bytes(),
        b"/",
        spot.bucket.as_str().as_bytes(),
        b"/",
    ) {
        Ok(()) => write_note(notes, &spot.key.text()),
        Err(failed) => Err(failed),
    }
}

fn write_unsound<N: Sink>(notes: &mut N, name: RefName) -> Result<(), Failed>
    ensures gives { NotesAs (effect N.written N.faults notes.old notes.new) (open_cause (OpenFault.Unsound name)) result }
{
    match write_note(notes, b"unsound ") {
        Ok(()) => write_reference(notes, name),
        Err(failed) => Err(failed),
    }
}

fn write_corrupt<N: Sink>(notes: &mut N, file: u8, at: u64) -> Result<(), Failed>
    ensures gives { NotesAs (effect N.written N.faults notes.old notes.new) (open_cause (OpenFault.Corrupt file at)) result }
{
    let mut number = Buffer::new();
    let mut place = Buffer::new();
    let number = number.format(file).as_bytes();
    let place = place.format(at).as_bytes();
    write_four(notes, b"corrupt file ", number, b" at ", place)
}

fn write_version<N: Sink>(notes: &mut N, found: u32) -> Result<(), Failed>
    ensures gives { NotesAs (effect N.written N.faults notes.old notes.new) (open_cause (OpenFault.BadVersion found)) result }
{
    let mut digits = Buffer::new();
    write_two(notes, b"version ", digits.format(found).as_bytes())
}

// Writes why a store's bytes don't open.
fn write_cause<N: Sink>(notes: &mut N, fault: OpenFault) -> Result<(), Failed>
    ensures gives { NotesAs (effect N.written N.faults notes.old notes.new) (open_cause fault) result }
{
    match fault {
        OpenFault::NotMade => write_note(notes, b"not made"),
        OpenFault::Corrupt { file, at } => write_corrupt(notes, file, at),
        OpenFault::BadVersion { found } => write_version(notes, found),
        OpenFault::Unsound { name } => write_unsound(notes, name),
        OpenFault::DiskFailed => write_note(notes, b""),
        OpenFault::NoMemory => write_note(notes, b""),
    }
}

// Writes the note on a store whose bytes don't open.
fn write_unopened<N: Sink>(notes: &mut N, fault: OpenFault) -> Result<(), Failed>
    ensures gives { NotesAs (effect N.written N.faults notes.old notes.new) (codes "ddc: cannot open store: " ++ open_cause fault ++ codes "\n") result }
{
    match write_note(notes, b"ddc: cannot open store: ") {
        Ok(()) => match write_cause(notes, fault) {
            Ok(()) => write_note(notes, b"\n"),
            Err(failed) => Err(failed),
        },
        Err(failed) => Err(failed),
    }
}

// Writes the note on a store that can't be opened or made.
fn write_open_fault<N: Sink>(notes: &mut N, fault: OpenFault) -> Result<(), Failed>
    ensures gives { NotesAs (effect N.written N.faults notes.old notes.new) (open_note fault) result }
{
    match fault {
        OpenFault::NotMade => write_unopened(notes, fault),
        OpenFault::Corrupt { .. } => write_unopened(notes, fault),
        OpenFault::BadVersion { .. } => write_unopened(notes, fault),
        OpenFault::Unsound { .. } => write_unopened(notes, fault),
        OpenFault::DiskFailed => write_note(notes, b"ddc: disk failed\n"),
        OpenFault::NoMemory => write_note(notes, b"ddc: no memory\n"),
    }
}

fn write_refused<N: Sink>(notes: &mut N, code: &[u8]) -> Result<(), Failed>
    ensures gives { NotesAs (effect N.written N.faults notes.old notes.new) (codes "ddc: refused: " ++ code.now ++ codes "\n") result }
{
    match write_two(notes, b"ddc: refused: ", code) {
        Ok(()) => write_note(notes, b"\n"),
        Err(failed) => Err(failed),
    }
}

// Writes the note on a command that the store refused.
fn note_refusal<N: Sink>(notes: &mut N, fault: StoreFault) -> Result<(), Failed>
    ensures gives { NotesAs (effect N.written N.faults notes.old notes.new) (refused_note fault) result }
{
    match fault {
        StoreFault::Broken { .. } => write_refused(notes, b"broken"),
        StoreFault::UnknownSpace => write_refused(notes, b"unknown_namespace"),
        StoreFault::NotFound => write_refused(notes, b"not_found"),
        StoreFault::NotFinalised => write_refused(notes, b"not_finalised"),
        StoreFault::NotPending => write_refused(notes, b"not_pending"),
        StoreFault::Full { .. } => write_refused(notes, b"full"),
        StoreFault::HistoryFull { .. } => write_refused(notes, b"history_full"),
        StoreFault::NoMemory => write_note(notes, b"ddc: no memory\n"),
        StoreFault::DiskFailed => write_note(notes, b"ddc: disk failed\n"),
        StoreFault::Damaged { .. } => write_refused(notes, b"damaged"),
    }
}

// Writes the note on how a command ended.
fn write_end<N: Sink>(notes: &mut N, end: &CommandEnd) -> Result<(), Failed>
    ensures gives { NotesAs (effect N.written N.faults notes.old notes.new) (note_of end.now) result }
{
    match end {
        CommandEnd::Usage => write_note(
            notes,
            b"usage: ddc init DIR NS TTL PIN | ddc replay DIR\n",
        ),
        CommandEnd::Unopened(fault) => write_open_fault(notes, *fault),
        CommandEnd::Replayed(end) => write_session(notes, *end),
        CommandEnd::Uncreated(fault) => write_open_fault(notes, *fault),
        CommandEnd::Unmade(fault) => note_refusal(notes, *fault),
        CommandEnd::Made => write_note(notes, b""),
        CommandEnd::Untold => write_note(notes, b"ddc: write failed\n"),
    }
}

fn session_status(end: SessionEnd) -> u8
    ensures { result ≡ session_status end }
{
    match end {
        SessionEnd::Closed => 0,
        SessionEnd::Unread(_) | SessionEnd::Cut(_) | SessionEnd::Spent(_) => 3,
        SessionEnd::ReadFailed | SessionEnd::WriteFailed => 4,
        SessionEnd::DiskFailed => 5,
        SessionEnd::NoMemory => 6,
        SessionEnd::Damaged => 7,
    }
}

fn open_status(fault: OpenFault) -> u8
    ensures { result ≡ open_status fault }
{
    match fault {
        OpenFault::DiskFailed => 5,
        OpenFault::NoMemory => 6,
        _ => 2,
    }
}

fn refused_status(fault: StoreFault) -> u8
    ensures { result ≡ refused_status fault }
{
    match fault {
        StoreFault::DiskFailed => 5,
        StoreFault::NoMemory => 6,
        _ => 8,
    }
}

fn status_of(end: &CommandEnd) -> u8
    ensures { result ≡ status_of end.now }
{
    match end {
        CommandEnd::Usage => 1,
        CommandEnd::Unopened(fault) => open_status(*fault),
        CommandEnd::Replayed(end) => session_status(*end),
        CommandEnd::Uncreated(fault) => open_status(*fault),
        CommandEnd::Unmade(fault) => refused_status(*fault),
        CommandEnd::Made => 0,
        CommandEnd::Untold => 4,
    }
}

/// Notes how a command ended, and gives its status. A note that can't be written changes nothing else.
pub fn report<N: Sink>(notes: &mut N, end: CommandEnd) -> u8
    ensures status { result ≡ status_of end }
    ensures noted { Noted (effect N.written N.faults notes.old notes.new) (note_of end) }
{
    let _ = write_end(notes, &end);
    status_of(&end)
}
