// One stream of requests.
ghost use Rattle.std.specs.Prelude.{◌≡◌, ◌≢◌, ◌≤◌, false, [], None};
ghost use Rattle.ddc_disk.specs.Disk.{EachSince};
ghost use Rattle.ddc_model.specs.History.{broken_by};
ghost use Rattle.ddc_book.specs.View.{book_faults, limits_of, book_line};
ghost use Rattle.ddc_http.specs.Stream.{source_of, held_of, place_of, has_ended};
ghost use Rattle.ddc_service.specs.Effects.{effect, Rises};
ghost use Rattle.ddc_service.specs.Session.{store_of, session, OpensNow, OpensWithin, IsSession, CountsAs, Stops};
ghost use Rattle.ddc_service.specs.inside.Turns.{TurnAs, TurnCounts, TurnGoes, reading};

use crate::reply::{answer_fault, answer_request, written_turn};
use ddc_book::Book;
use ddc_disk::Disk;
use ddc_http::{HttpFault, RequestReader, WriteFault};
use ddc_link::{Clock, Sink, Source};
use std::alloc::Global;

/// The most requests of one stream.
const MOST_ITEMS: u32 = 10_000;

/// How a session ended.
#[derive(Clone, Copy, Debug, PartialEq, Eq)]
pub enum SessionEnd {
    /// The input ended between two requests.
    Closed,
    /// The request after so many bytes is of no form that is answered.
    Unread(u64),
    /// The input ended inside the request after so many bytes.
    Cut(u64),
    /// The most requests of a stream, of so many bytes, were answered.
    Spent(u64),
    /// The source failed.
    ReadFailed,
    /// The sink failed.
    WriteFailed,
    /// A disk failed.
    DiskFailed,
    /// A blob's bytes have another hash than its name.
    Damaged,
    /// There was no memory.
    NoMemory,
}

/// What came of one turn.
#[derive(Clone, Copy, Debug, PartialEq, Eq)]
pub enum Turn {
    Answered,
    Over(SessionEnd),
}

// Reads a request and answers it, at the clock's hour.
fn take_turn<D: Disk, S: Source, W: Sink, C: Clock>(
    alloc: Global,
    reader: &mut RequestReader<'_, S>,
    book: &mut Book<D>,
    clock: &C,
    close: bool,
    sink: &mut W,
) -> Turn
    requires not_ended { has_ended reader.old ≡ false }
    requires unbroken { broken_by book.old.steps ≡ None }
    ensures same_reference { reader.new.source.ghost_name ≡ reader.old.source.ghost_name }
    ensures gives { TurnAs (C.tells clock.now) (reading S.left reader.old reader.new) close (effect W.written W.faults sink.old sink.new) (store_of book.old) (store_of book.new) result }
    ensures goes_on { result ≡ Turn.Answered → has_ended reader.new ≡ false }
    ensures devices { TurnGoes D.tells D.meaning (C.tells clock.now) (reading S.left reader.old reader.new) book.old book.new result }
    ensures later_disk { book_faults D.meaning book.old ≤ book_faults D.meaning book.new }
    ensures limits { limits_of book.new ≡ limits_of book.old }
    ensures unbroken { result ≢ Turn.Over SessionEnd.DiskFailed → broken_by book.new.steps ≡ None }
    ensures counts { TurnCounts (effect S.left S.faults (source_of reader.old) (source_of reader.new)) (effect W.written W.faults sink.old sink.new) result }
    ensures cause { result ≡ Turn.Over SessionEnd.DiskFailed → Rises (effect store_of (book_faults D.meaning) book.old book.new) }
{
    match reader.next() {
        Ok(Some(request)) => answer_request(alloc, book, request, clock.hour(), close, sink),
        Ok(None) => Turn::Over(SessionEnd::Closed),
        Err(HttpFault::Unread) => match answer_fault(alloc, &HttpFault::Unread, true, sink) {
            Ok(()) => Turn::Over(SessionEnd::Unread(reader.place())),
            Err(WriteFault::Failed) => Turn::Over(SessionEnd::WriteFailed),
            Err(WriteFault::NoMemory) => Turn::Over(SessionEnd::NoMemory),
        },
        Err(HttpFault::Cut) => Turn::Over(SessionEnd::Cut(reader.place())),
        Err(HttpFault::ReadFailed) => Turn::Over(SessionEnd::ReadFailed),
        Err(HttpFault::NoMemory) => Turn::Over(SessionEnd::NoMemory),
        Err(HttpFault::HashMismatch { named, found }) => {
            let fault = HttpFault::HashMismatch { named, found };
            written_turn(answer_fault(alloc, &fault, close, sink))
        }
        Err(HttpFault::NotAnObject { at }) => {
            let fault = HttpFault::NotAnObject { at };
            written_turn(answer_fault(alloc, &fault, close, sink))
        }
    }
}

// Answers the requests of a reader that stands at the front of its source.
fn serve_requests<D: Disk, S: Source, W: Sink, C: Clock>(
    alloc: Global,
    reader: &mut RequestReader<'_, S>,
    book: &mut Book<D>,
    clock: &C,
    sink: &mut W,
) -> SessionEnd
    requires not_ended { has_ended reader.old ≡ false }
    requires bare { held_of reader.old ≡ [] }
    requires place { place_of reader.old ≡ 0 }
    requires unbroken { broken_by book.old.steps ≡ None }
    ensures same_reference { reader.new.source.ghost_name ≡ reader.old.source.ghost_name }
    ensures gives { IsSession (session (C.tells clock.now) (effect S.left S.faults (source_of reader.old) (source_of reader.new)) (effect W.written W.faults sink.old sink.new) (effect store_of (book_faults D.meaning) book.old book.new)) result }
    ensures any_moment { OpensNow D.tells D.meaning book.old
        → EachSince (book_line D.meaning book.old) (book_line D.meaning book.new) (OpensWithin (C.tells clock.now) (S.left (source_of reader.old)) (store_of book.old) (limits_of book.old)) }
    ensures stops { OpensNow D.tells D.meaning book.old → Stops (session (C.tells clock.now) (effect S.left S.faults (source_of reader.old) (source_of reader.new)) (effect W.written W.faults sink.old sink.new) (effect store_of (book_faults D.meaning) book.old book.new)) (book_line D.meaning book.new) (limits_of book.old) result }
    ensures limits { limits_of book.new ≡ limits_of book.old }
    ensures unbroken { result ≢ SessionEnd.DiskFailed → broken_by book.new.steps ≡ None }
    ensures later_disk { book_faults D.meaning book.old ≤ book_faults D.meaning book.new }
    ensures counts { CountsAs (session (C.tells clock.now) (effect S.left S.faults (source_of reader.old) (source_of reader.new)) (effect W.written W.faults sink.old sink.new) (effect store_of (book_faults D.meaning) book.old book.new)) result }
{
    'requests: for count in 0..MOST_ITEMS {
        match take_turn(alloc, reader, book, clock, count + 1 == MOST_ITEMS, sink) {
            Turn::Answered => {}
            Turn::Over(end) => return end,
        }
    }
    SessionEnd::Spent(reader.place())
}

/// Answers the requests of one stream, from a book's state on. It waits for nobody.
pub fn replay_session<D: Disk, S: Source, W: Sink, C: Clock>(
    alloc: Global,
    book: &mut Book<D>,
    source: &mut S,
    sink: &mut W,
    clock: &C,
) -> SessionEnd
    requires { broken_by book.old.steps ≡ None }
    ensures gives { IsSession (session (C.tells clock.now) (effect S.left S.faults source.old source.new) (effect W.written W.faults sink.old sink.new) (effect store_of (book_faults D.meaning) book.old book.new)) result }
    ensures any_moment { OpensNow D.tells D.meaning book.old
        → EachSince (book_line D.meaning book.old) (book_line D.meaning book.new) (OpensWithin (C.tells clock.now) (S.left source.old) (store_of book.old) (limits_of book.old)) }
    ensures stops { OpensNow D.tells D.meaning book.old → Stops (session (C.tells clock.now) (effect S.left S.faults source.old source.new) (effect W.written W.faults sink.old sink.new) (effect store_of (book_faults D.meaning) book.old book.new)) (book_line D.meaning book.new) (limits_of book.old) result }
    ensures limits { limits_of book.new ≡ limits_of book.old }
    ensures unbroken { result ≢ SessionEnd.DiskFailed → broken_by book.new.steps ≡ None }
    ensures later_disk { book_faults D.meaning book.old ≤ book_faults D.meaning book.new }
    ensures counts { CountsAs (session (C.tells clock.now) (effect S.left S.faults source.old source.new) (effect W.written W.faults sink.old sink.new) (effect store_of (book_faults D.meaning) book.old book.new)) result }
{
    match RequestReader::new(alloc, source) {
        Err(_) => SessionEnd::NoMemory,
        Ok(mut reader) => {
            let end = serve_requests(alloc, &mut reader, book, clock, sink);
            let _source = reader.finish();
            end
        }
    }
}
