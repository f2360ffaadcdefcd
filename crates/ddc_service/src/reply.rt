// The replies to requests.
ghost use Rattle.std.specs.Prelude.{◌≡◌, ◌++◌, ℕ, IsSome, None, false, true};
ghost use Rattle.http.specs.StatusCode.{reason_phrase};
ghost use Rattle.ddc_model.specs.declared.fault.StoreFault.{StoreFault};
ghost use Rattle.ddc_model.specs.History.{broken_by};
ghost use Rattle.ddc_book.specs.Calls.{got, opened_bytes};
ghost use Rattle.ddc_protocol.specs.Replies.{json_reply, blob_reply, object_reply, identifier_body, needs_body, error_body, damaged_body, fault_reply};
ghost use Rattle.ddc_http.specs.Heads.{text_of, code_text, IsAnswered, fault_text};
ghost use Rattle.ddc_http.specs.Reader.{asked_item};
ghost use Rattle.ddc_protocol.specs.Requests.{put_blob, get_blob, put_ref, get_ref, finalise};
ghost use Rattle.ddc_service.specs.Effects.{effect};
ghost use Rattle.ddc_service.specs.Replies.{upload_reply, needs_reply, get_reply, fetch_reply};
ghost use Rattle.ddc_service.specs.inside.Writes.{WritesAs, AnswersRequest, IsStorable, written_turn, damaged_turn, turn_of};

use crate::session::{SessionEnd, Turn};
use ddc_book::{Book, Held, Opened};
use ddc_disk::Disk;
use ddc_http::{
    Ask, ErrorCode, Head, HttpFault, Kind, Request, WriteFault, damaged_body, error_body,
    fault_body, full_body, history_full_body, identifier_body, needs_body, write_head,
};
use ddc_link::{Sink, put_all};
use ddc_model::{StoreFault, What};
use ddc_names::{IoHash, Namespace, RefName, Rows};
use ddc_state::Checked;
use std::alloc::Global;

// Writes a head and its body.
fn write_reply<W: Sink>(
    alloc: Global,
    sink: &mut W,
    head: &Head,
    body: &[u8],
) -> Result<(), WriteFault>
    requires { IsSome (reason_phrase head.now.status) }
    ensures gives { WritesAs (effect W.written W.faults sink.old sink.new) (text_of head.now ++ body.now) result }
{
    match write_head(alloc, sink, head) {
        Ok(()) => match put_all(sink, body) {
            Ok(()) => Ok(()),
            Err(_) => Err(WriteFault::Failed),
        },
        Err(WriteFault::Failed) => Err(WriteFault::Failed),
        Err(WriteFault::NoMemory) => Err(WriteFault::NoMemory),
    }
}

fn write_json<W: Sink>(
    alloc: Global,
    sink: &mut W,
    status: u16,
    body: &[u8],
    close: bool,
) -> Result<(), WriteFault>
    requires { IsSome (reason_phrase status) }
    ensures gives { WritesAs (effect W.written W.faults sink.old sink.new) (json_reply status body.now close) result }
{
    let head = Head {
        status,
        kind: Kind::Json,
        hash: None,
        length: body.len() as u64,
        close,
    };
    write_reply(alloc, sink, &head, body)
}

fn write_blob<W: Sink>(
    alloc: Global,
    sink: &mut W,
    hash: IoHash,
    bytes: &[u8],
    close: bool,
) -> Result<(), WriteFault>
    ensures gives { WritesAs (effect W.written W.faults sink.old sink.new) (blob_reply hash bytes.now close) result }
{
    let head = Head {
        status: 200,
        kind: Kind::Octets,
        hash: Some(hash),
        length: bytes.len() as u64,
        close,
    };
    write_reply(alloc, sink, &head, bytes)
}

fn write_object<W: Sink>(
    alloc: Global,
    sink: &mut W,
    hash: IoHash,
    bytes: &[u8],
    close: bool,
) -> Result<(), WriteFault>
    ensures gives { WritesAs (effect W.written W.faults sink.old sink.new) (object_reply hash bytes.now close) result }
{
    let head = Head {
        status: 200,
        kind: Kind::Compact,
        hash: Some(hash),
        length: bytes.len() as u64,
        close,
    };
    write_reply(alloc, sink, &head, bytes)
}

fn write_identifier<W: Sink>(
    alloc: Global,
    sink: &mut W,
    hash: IoHash,
    close: bool,
) -> Result<(), WriteFault>
    ensures gives { WritesAs (effect W.written W.faults sink.old sink.new) (json_reply 200 (identifier_body hash) close) result }
{
    match identifier_body(alloc, &hash) {
        Ok(body) => write_json(alloc, sink, 200, body.as_slice(), close),
        Err(_) => Err(WriteFault::NoMemory),
    }
}

fn write_needs<W: Sink>(
    alloc: Global,
    sink: &mut W,
    needs: &[IoHash],
    close: bool,
) -> Result<(), WriteFault>
    ensures gives { WritesAs (effect W.written W.faults sink.old sink.new) (json_reply 200 (needs_body needs.now) close) result }
{
    match needs_body(alloc, needs) {
        Ok(body) => write_json(alloc, sink, 200, body.as_slice(), close),
        Err(_) => Err(WriteFault::NoMemory),
    }
}

fn refuse<W: Sink>(
    alloc: Global,
    sink: &mut W,
    status: u16,
    code: ErrorCode,
    close: bool,
) -> Result<(), WriteFault>
    requires { IsSome (reason_phrase status) }
    ensures gives { WritesAs (effect W.written W.faults sink.old sink.new) (json_reply status (error_body (code_text code)) close) result }
{
    match error_body(alloc, code) {
        Ok(body) => write_json(alloc, sink, status, body.as_slice(), close),
        Err(_) => Err(WriteFault::NoMemory),
    }
}

fn refuse_full<W: Sink>(
    alloc: Global,
    sink: &mut W,
    what: What,
    limit: u64,
    close: bool,
) -> Result<(), WriteFault>
    ensures gives { WritesAs (effect W.written W.faults sink.old sink.new) (fault_reply (StoreFault.Full what limit) close) result }
{
    match full_body(alloc, what, limit) {
        Ok(body) => write_json(alloc, sink, 507, body.as_slice(), close),
        Err(_) => Err(WriteFault::NoMemory),
    }
}

fn refuse_history_full<W: Sink>(
    alloc: Global,
    sink: &mut W,
    entries: u64,
    links: u64,
    close: bool,
) -> Result<(), WriteFault>
    ensures gives { WritesAs (effect W.written W.faults sink.old sink.new) (fault_reply (StoreFault.HistoryFull entries links) close) result }
{
    match history_full_body(alloc, entries, links) {
        Ok(body) => write_json(alloc, sink, 503, body.as_slice(), close),
        Err(_) => Err(WriteFault::NoMemory),
    }
}

// Answers that a blob has bytes of another hash. The server closes.
fn refuse_damaged<W: Sink>(
    alloc: Global,
    sink: &mut W,
    named: &IoHash,
    found: &IoHash,
) -> Result<(), WriteFault>
    ensures gives { WritesAs (effect W.written W.faults sink.old sink.new) (json_reply 500 (damaged_body named.now found.now) true) result }
{
    match damaged_body(alloc, named, found) {
        Ok(body) => write_json(alloc, sink, 500, body.as_slice(), true),
        Err(_) => Err(WriteFault::NoMemory),
    }
}

// Answers a command that the store refused. Want of memory gets no reply.
fn write_refusal<W: Sink>(
    alloc: Global,
    sink: &mut W,
    fault: StoreFault,
    close: bool,
) -> Result<(), WriteFault>
    ensures gives { WritesAs (effect W.written W.faults sink.old sink.new) (fault_reply fault close) result }
    ensures memory { fault ≡ StoreFault.NoMemory → result ≡ Err WriteFault.NoMemory }
{
    match fault {
        StoreFault::Broken { .. } => refuse(alloc, sink, 503, ErrorCode::Broken, true),
        StoreFault::UnknownSpace => refuse(alloc, sink, 404, ErrorCode::UnknownNamespace, close),
        StoreFault::NotFound => refuse(alloc, sink, 404, ErrorCode::NotFound, close),
        StoreFault::NotFinalised => refuse(alloc, sink, 404, ErrorCode::NotFinalised, close),
        StoreFault::NotPending => refuse(alloc, sink, 409, ErrorCode::NotPending, close),
        StoreFault::Full { what, limit } => refuse_full(alloc, sink, what, limit, close),
        StoreFault::HistoryFull { entries, links } => {
            refuse_history_full(alloc, sink, entries, links, close)
        }
        StoreFault::NoMemory => Err(WriteFault::NoMemory),
        StoreFault::DiskFailed => refuse(alloc, sink, 503, ErrorCode::DiskFailed, true),
        StoreFault::Damaged { named, found } => refuse_damaged(alloc, sink, &named, &found),
    }
}

fn write_uploaded<W: Sink>(
    alloc: Global,
    sink: &mut W,
    hash: IoHash,
    answer: &Result<(), StoreFault>,
    close: bool,
) -> Result<(), WriteFault>
    ensures gives { WritesAs (effect W.written W.faults sink.old sink.new) (upload_reply hash close answer.now) result }
    ensures memory { answer.now ≡ Err StoreFault.NoMemory → result ≡ Err WriteFault.NoMemory }
{
    match answer {
        Ok(()) => write_identifier(alloc, sink, hash, close),
        Err(fault) => write_refusal(alloc, sink, *fault, close),
    }
}

fn write_listed<W: Sink>(
    alloc: Global,
    sink: &mut W,
    answer: &Result<Rows<IoHash>, StoreFault>,
    close: bool,
) -> Result<(), WriteFault>
    ensures gives { WritesAs (effect W.written W.faults sink.old sink.new) (needs_reply close answer.now) result }
    ensures memory { answer.now ≡ Err StoreFault.NoMemory → result ≡ Err WriteFault.NoMemory }
{
    match answer {
        Ok(needs) => write_needs(alloc, sink, needs.as_slice(), close),
        Err(fault) => write_refusal(alloc, sink, *fault, close),
    }
}

fn write_held<W: Sink>(
    alloc: Global,
    sink: &mut W,
    answer: &Result<Held, StoreFault>,
    close: bool,
) -> Result<(), WriteFault>
    ensures gives { WritesAs (effect W.written W.faults sink.old sink.new) (get_reply close (got answer.now)) result }
    ensures memory { answer.now ≡ Err StoreFault.NoMemory → result ≡ Err WriteFault.NoMemory }
{
    match answer {
        Ok(held) => write_object(alloc, sink, held.hash, held.bytes.as_slice(), close),
        Err(fault) => write_refusal(alloc, sink, *fault, close),
    }
}

fn write_opened<W: Sink>(
    alloc: Global,
    sink: &mut W,
    hash: IoHash,
    answer: &Result<Opened, StoreFault>,
    close: bool,
) -> Result<(), WriteFault>
    ensures gives { WritesAs (effect W.written W.faults sink.old sink.new) (fetch_reply hash close (opened_bytes answer.now)) result }
    ensures memory { answer.now ≡ Err StoreFault.NoMemory → result ≡ Err WriteFault.NoMemory }
{
    match answer {
        Ok(Opened::Whole(bytes)) => write_blob(alloc, sink, hash, bytes.as_slice(), close),
        Err(fault) => write_refusal(alloc, sink, *fault, close),
    }
}

/// How a turn goes on once its reply was written, or not.
pub fn written_turn(written: Result<(), WriteFault>) -> Turn
    ensures { result ≡ written_turn written }
{
    match written {
        Ok(()) => Turn::Answered,
        Err(WriteFault::Failed) => Turn::Over(SessionEnd::WriteFailed),
        Err(WriteFault::NoMemory) => Turn::Over(SessionEnd::NoMemory),
    }
}

// A damaged blob ends the session, also where its reply can't be made.
fn damaged_turn(written: Result<(), WriteFault>) -> Turn
    ensures { result ≡ damaged_turn written }
{
    match written {
        Err(WriteFault::Failed) => Turn::Over(SessionEnd::WriteFailed),
        _ => Turn::Over(SessionEnd::Damaged),
    }
}

// How a turn goes on after this answer of the store. A disk that failed ends the session, whatever becomes of the reply.
fn turn_of<T>(answer: &Result<T, StoreFault>, written: Result<(), WriteFault>) -> Turn
    ensures { result ≡ turn_of answer.now written }
{
    match answer {
        Err(StoreFault::DiskFailed) => Turn::Over(SessionEnd::DiskFailed),
        Err(StoreFault::Damaged { .. }) => damaged_turn(written),
        _ => written_turn(written),
    }
}

fn answer_upload<D: Disk, W: Sink>(
    alloc: Global,
    book: &mut Book<D>,
    space: Namespace,
    blob: Checked,
    hour: u32,
    close: bool,
    sink: &mut W,
) -> Turn
    requires unbroken { broken_by book.old.steps ≡ None }
    requires fits { IsStorable (put_blob space blob) }
    ensures gives { AnswersRequest D.tells D.meaning (effect W.written W.faults sink.old sink.new) close hour book.old (put_blob space blob) book.new result }
{
    let hash = blob.whole().hash();
    let answer = book.upload(alloc, space, blob, hour);
    let written = write_uploaded(alloc, sink, hash, &answer, close);
    turn_of(&answer, written)
}

fn answer_put<D: Disk, W: Sink>(
    alloc: Global,
    book: &mut Book<D>,
    name: RefName,
    object: Checked,
    hour: u32,
    close: bool,
    sink: &mut W,
) -> Turn
    requires unbroken { broken_by book.old.steps ≡ None }
    requires fits { IsStorable (put_ref name object) }
    ensures gives { AnswersRequest D.tells D.meaning (effect W.written W.faults sink.old sink.new) close hour book.old (put_ref name object) book.new result }
{
    let answer = book.put(alloc, name, object, hour);
    let written = write_listed(alloc, sink, &answer, close);
    turn_of(&answer, written)
}

fn answer_finalise<D: Disk, W: Sink>(
    alloc: Global,
    book: &mut Book<D>,
    name: &RefName,
    hash: IoHash,
    hour: u32,
    close: bool,
    sink: &mut W,
) -> Turn
    requires unbroken { broken_by book.old.steps ≡ None }
    ensures gives { AnswersRequest D.tells D.meaning (effect W.written W.faults sink.old sink.new) close hour book.old (finalise name.now hash) book.new result }
{
    let answer = book.finalise(alloc, name, hash, hour);
    let written = write_listed(alloc, sink, &answer, close);
    turn_of(&answer, written)
}

fn answer_get<D: Disk, W: Sink>(
    alloc: Global,
    book: &mut Book<D>,
    name: &RefName,
    hour: u32,
    close: bool,
    sink: &mut W,
) -> Turn
    requires unbroken { broken_by book.old.steps ≡ None }
    ensures gives { AnswersRequest D.tells D.meaning (effect W.written W.faults sink.old sink.new) close hour book.old (get_ref name.now) book.new result }
{
    let answer = book.get_ref(alloc, name, hour);
    let written = write_held(alloc, sink, &answer, close);
    turn_of(&answer, written)
}

fn answer_fetch<D: Disk, W: Sink>(
    alloc: Global,
    book: &mut Book<D>,
    space: &Namespace,
    hash: IoHash,
    close: bool,
    sink: &mut W,
) -> Turn
    requires unbroken { broken_by book.old.steps ≡ None }
    ensures gives { (hour : ℕ) → AnswersRequest D.tells D.meaning (effect W.written W.faults sink.old sink.new) close hour book.old (get_blob space.now hash) book.new result }
{
    let answer = book.open_blob(alloc, space, hash);
    let written = write_opened(alloc, sink, hash, &answer, close);
    turn_of(&answer, written)
}

/// Answers a request at this hour: the change is made, and the whole reply written.
pub fn answer_request<D: Disk, W: Sink>(
    alloc: Global,
    book: &mut Book<D>,
    request: Request,
    hour: u32,
    close: bool,
    sink: &mut W,
) -> Turn
    requires unbroken { broken_by book.old.steps ≡ None }
    requires fits { IsStorable (asked_item request) }
    ensures gives { AnswersRequest D.tells D.meaning (effect W.written W.faults sink.old sink.new) close hour book.old (asked_item request) book.new result }
{
    let Request { ask } = request;
    match ask {
        Ask::PutBlob { space, blob } => answer_upload(alloc, book, space, blob, hour, close, sink),
        Ask::GetBlob { space, hash } => answer_fetch(alloc, book, &space, hash, close, sink),
        Ask::PutRef { name, object } => answer_put(alloc, book, name, object, hour, close, sink),
        Ask::GetRef { name } => answer_get(alloc, book, &name, hour, close, sink),
        Ask::Finalise { name, hash } => {
            answer_finalise(alloc, book, &name, hash, hour, close, sink)
        }
    }
}

/// Answers a request that was faulty.
pub fn answer_fault<W: Sink>(
    alloc: Global,
    fault: &HttpFault,
    close: bool,
    sink: &mut W,
) -> Result<(), WriteFault>
    requires { IsAnswered fault.now }
    ensures gives { WritesAs (effect W.written W.faults sink.old sink.new) (json_reply 400 (fault_text fault.now) close) result }
{
    match fault_body(alloc, fault) {
        Ok(body) => write_json(alloc, sink, 400, body.as_slice(), close),
        Err(_) => Err(WriteFault::NoMemory),
    }
}
