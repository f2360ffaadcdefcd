// The top call.
ghost use Rattle.std.specs.Prelude.{◌≡◌, ◌≢◌, ◌⊎◌, ◌↔◌, None, IfOk, IfErr, string_bytes, true};
ghost use Rattle.ddc_disk.specs.declared.devices.Devices.{Devices};
ghost use Rattle.ddc_model.specs.Entries.{is_time};
ghost use Rattle.ddc_model.specs.Laws.{SoundServes};
ghost use Rattle.ddc_service.specs.Effects.{effect};
ghost use Rattle.ddc_command.specs.declared.end.CommandEnd.{CommandEnd};
ghost use Rattle.ddc_command.specs.declared.command.Command.TheVariants.{Replay};
ghost use Rattle.ddc_command.specs.Words.{command_of};
ghost use Rattle.ddc_command.specs.Notes.{note_of, status_of};
ghost use Rattle.ddc_command.specs.Ends.{Ends, Noted, made_line, scene};
ghost use Rattle.ddc_command.specs.inside.Times.{AreTimes};
ghost use Rattle.ddc_command.specs.inside.Parts.{EndsFor, EndsInit, FailsToOpen, OpensOrMakes, is_unmade};

use crate::command::Command;
use crate::end::CommandEnd;
use crate::notes::report;
use crate::words::command_of;
use ddc_book::{Book, OpenFault, StoreFault, one_opening};
use ddc_disk::{Devices, Disk};
use ddc_journal::one_pair_reading;
use ddc_link::{Clock, Sink, Source, put_all};
use ddc_model::{Limits, sound_caches_serve};
use ddc_names::{Namespace, NoMemory};
use ddc_service::replay_session;
use std::alloc::Global;

// Answers a stream from the store that the devices hold.
fn replay<D: Disk, S: Source, W: Sink, C: Clock>(
    alloc: Global,
    devices: Devices<D>,
    source: &mut S,
    sink: &mut W,
    clock: &C,
) -> (CommandEnd, Devices<D>)
    ensures ends { EndsFor (scene D.tells D.meaning devices result.1 (C.tells clock.now) (effect S.left S.faults source.old source.new) (effect W.written W.faults sink.old sink.new)) Replay result.0 }
    ensures untouched { status_of result.0 ≡ 2 → (source.new ≡ source.old) × (sink.new ≡ sink.old) }
    ensures not_usage { status_of result.0 ≢ 1 }
{
    one_opening();
    one_pair_reading();
    match Book::load(alloc, devices, Limits::standard()) {
        Ok(book) => {
            let mut book = book;
            let end = replay_session(alloc, &mut book, source, sink, clock);
            (CommandEnd::Replayed(end), book.into_devices())
        }
        Err((devices, fault)) => (CommandEnd::Unopened(fault), devices),
    }
}

// Whether the fault is that no store was made.
fn is_unmade(fault: &OpenFault) -> bool
    ensures { result ≡ is_unmade fault.now }
{
    match fault {
        OpenFault::NotMade => true,
        _ => false,
    }
}

// The store that the devices hold, or an empty one where none was made.
fn found_store<D: Disk>(
    alloc: Global,
    devices: Devices<D>,
) -> Result<Book<D>, (Devices<D>, CommandEnd)>
    ensures found { IfOk result (λ book. OpensOrMakes D.tells D.meaning devices book) }
    ensures fails { IfErr result (λ r. FailsToOpen D.tells D.meaning devices r.0 r.1) }
{
    one_pair_reading();
    match Book::load(alloc, devices, Limits::standard()) {
        Ok(found) => Ok(found),
        Err((devices, fault)) => {
            if !is_unmade(&fault) {
                return Err((devices, CommandEnd::Unopened(fault)));
            }
            match Book::create(alloc, devices, Limits::standard()) {
                Ok(book) => Ok(book),
                Err((devices, fault)) => Err((devices, CommandEnd::Uncreated(fault))),
            }
        }
    }
}

// The line on a namespace that was made.
fn made_line(alloc: Global, space: &str, ttl: u32, pin: u32) -> Result<String, NoMemory>
    ensures { IfOk result (λ line. string_bytes line ≡ made_line space.now ttl pin) }
{
    Ok(format!(in alloc; "namespace {space} ttl {ttl} pin {pin}\n")?)
}

// Makes a namespace in a store, and says so. The line's memory is taken before anything is made.
fn make_space<D: Disk, W: Sink>(
    alloc: Global,
    book: Book<D>,
    space: &Namespace,
    ttl: u32,
    pin: u32,
    sink: &mut W,
) -> (CommandEnd, Devices<D>)
    requires ttl { is_time ttl ≡ true }
    requires pin { is_time pin ≡ true }
    ensures ends { (old : Devices D) → OpensOrMakes D.tells D.meaning old book → EndsInit D.tells D.meaning old result.1 (effect W.written W.faults sink.old sink.new) space.now ttl pin result.0 }
    ensures opened { status_of result.0 ≢ 2 }
    ensures not_usage { status_of result.0 ≢ 1 }
{
    one_opening();
    one_pair_reading();
    let mut book = book;
    let Ok(line) = made_line(alloc, space.as_str(), ttl, pin) else {
        return (
            CommandEnd::Unmade(StoreFault::NoMemory),
            book.into_devices(),
        );
    };
    if let Err(fault) = book.set_space(alloc, *space, ttl, pin) {
        return (CommandEnd::Unmade(fault), book.into_devices());
    }
    match put_all(sink, line.as_bytes()) {
        Ok(()) => (CommandEnd::Made, book.into_devices()),
        Err(_) => (CommandEnd::Untold, book.into_devices()),
    }
}

// Makes a namespace in the store of the devices, and the store where none is made.
fn init<D: Disk, W: Sink>(
    alloc: Global,
    devices: Devices<D>,
    space: &Namespace,
    ttl: u32,
    pin: u32,
    sink: &mut W,
) -> (CommandEnd, Devices<D>)
    requires ttl { is_time ttl ≡ true }
    requires pin { is_time pin ≡ true }
    ensures ends { EndsInit D.tells D.meaning devices result.1 (effect W.written W.faults sink.old sink.new) space.now ttl pin result.0 }
    ensures untouched { status_of result.0 ≡ 2 → sink.new ≡ sink.old }
    ensures not_usage { status_of result.0 ≢ 1 }
{
    match found_store(alloc, devices) {
        Ok(book) => make_space(alloc, book, space, ttl, pin, sink),
        Err((devices, end)) => (end, devices),
    }
}

// Does what was asked for.
fn run_command<D: Disk, S: Source, W: Sink, C: Clock>(
    alloc: Global,
    command: Command,
    devices: Devices<D>,
    source: &mut S,
    sink: &mut W,
    clock: &C,
) -> (CommandEnd, Devices<D>)
    requires { AreTimes command }
    ensures ends { EndsFor (scene D.tells D.meaning devices result.1 (C.tells clock.now) (effect S.left S.faults source.old source.new) (effect W.written W.faults sink.old sink.new)) command result.0 }
    ensures untouched { status_of result.0 ≡ 2 → (source.new ≡ source.old) × (sink.new ≡ sink.old) }
    ensures not_usage { status_of result.0 ≢ 1 }
{
    match command {
        Command::Replay => replay(alloc, devices, source, sink, clock),
        Command::Init { space, ttl, pin } => init(alloc, devices, &space, ttl, pin, sink),
    }
}

// Does what the words ask for.
fn run_words<D: Disk, S: Source, W: Sink, C: Clock>(
    alloc: Global,
    words: &[String],
    devices: Devices<D>,
    source: &mut S,
    sink: &mut W,
    clock: &C,
) -> (CommandEnd, Devices<D>)
    ensures ends { Ends (scene D.tells D.meaning devices result.1 (C.tells clock.now) (effect S.left S.faults source.old source.new) (effect W.written W.faults sink.old sink.new)) words.now result.0 }
    ensures usage { (status_of result.0 ≡ 1) ↔ (command_of words.now ≡ None) }
    ensures untouched { (status_of result.0 ≡ 1) ⊎ (status_of result.0 ≡ 2) → (source.new ≡ source.old) × (sink.new ≡ sink.old) }
{
    match command_of(words) {
        Some(command) => run_command(alloc, command, devices, source, sink, clock),
        None => (CommandEnd::Usage, devices),
    }
}

/// Does what the words ask for, and gives the exit status and the devices back. `words` are those after the program's
/// name, and `devices` are those of the folder DIR, which the words only name.
///
/// `init DIR NS TTL PIN` makes the namespace NS, which keeps references for TTL hours and blobs for PIN, in the store of
/// the devices, and makes the store where none is made. It writes the line `namespace NS ttl TTL pin PIN` to `sink`.
///
/// `replay DIR` opens the store, reads requests from `source` and writes the replies to `sink`.
///
/// What is told of the end goes to `notes`.
///
/// | status | comes |
/// |---|---|
/// | 0 | the namespace is made; or the input was read to its end between two requests, and all are answered |
/// | 1 | the words are of no form; nothing was read or written, to any device either |
/// | 2 | the devices hold no store that opens; nothing was read or written |
/// | 3 | the input ended inside a request, or at one of no form, or after 10,000 requests |
/// | 4 | the source or the sink failed |
/// | 5 | a device failed |
/// | 6 | there was no memory |
/// | 7 | a blob's bytes have another hash than its name |
/// | 8 | the store has no room for the namespace |
pub fn run_local<D: Disk, S: Source, W: Sink, N: Sink, C: Clock>(
    alloc: Global,
    words: &[String],
    devices: Devices<D>,
    source: &mut S,
    sink: &mut W,
    notes: &mut N,
    clock: &C,
) -> (u8, Devices<D>)
    ensures ends { (end : CommandEnd) × Ends (scene D.tells D.meaning devices result.1 (C.tells clock.now) (effect S.left S.faults source.old source.new) (effect W.written W.faults sink.old sink.new)) words.now end
        × (result.0 ≡ status_of end) × Noted (effect N.written N.faults notes.old notes.new) (note_of end) }
    ensures usage { (result.0 ≡ 1) ↔ (command_of words.now ≡ None) }
    ensures untouched { (result.0 ≡ 1) ⊎ (result.0 ≡ 2) → (source.new ≡ source.old) × (sink.new ≡ sink.old) }
    ensures sound_serves { SoundServes }
{
    sound_caches_serve();
    let (end, devices) = run_words(alloc, words, devices, source, sink, clock);
    (report(notes, end), devices)
}
