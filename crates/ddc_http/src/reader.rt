// Requests taken from what is held and from a source.
ghost use Rattle.std.specs.Prelude.{◌≡◌, ◌⊎◌, IfOk, IsSome, ◌≤◌, ◌<◌, ◌+◌, ◌-◌, ◌^◌, min, length, vec_len, drop, true};
ghost use Rattle.cb_fields.specs.Language.{IsNoObject};
ghost use Rattle.ddc_protocol.specs.Requests.{HasNoHead};
ghost use Rattle.ddc_protocol.specs.declared.request_form.RequestForm.TheVariants.{PutBlob, PutRef};
ghost use Rattle.ddc_http.specs.Reader.{FaultsAs, HasRequestText, ReadsNext, TakesPieces, stream_ahead};
ghost use Rattle.ddc_http.specs.inside.Parts.{AskedAs, BodyAs, BodyAt, BreaksAs, FillsAs, FillsBy, HeadAt, HeadsAs, HoldsPieces};

use crate::head::{Found, MOST_HEAD, find_head};
use crate::request::{Ask, HttpFault, Request};
use cb_fields::{CbFault, check_object};
use ddc_link::Source;
use ddc_names::{IoHash, Namespace, RefName};
use ddc_protocol::RequestForm;
use ddc_state::Checked;
use io_hash::{Intake, IntakeFault, Whole};
use std::alloc::Global;

/// The most bytes of a head that one call takes from the source.
const HEAD_PIECE: usize = 8_192;
/// The most bytes of a body that one call takes from the source.
const BODY_PIECE: usize = 16_384;

// Holds more of the source: up to a line feed, with which a head can end, or to the most bytes of a head. False comes
// at the end of the source.
fn fill<S: Source>(source: &mut S, held: &mut Vec<u8>) -> Result<bool, HttpFault>
    requires { HasNoHead held.old.items }
    ensures gives { FillsAs (stream_ahead held.old.items (S.left source.old)) (stream_ahead held.new.items (S.left source.new)) result }
    ensures pieces { FillsBy (stream_ahead held.old.items (S.left source.old)) (stream_ahead held.new.items (S.left source.new)) result }
    ensures grows { result ≡ Ok true → length held.old.items < length held.new.items }
    ensures faults { FaultsAs (S.faults source.old) (S.faults source.new) result }
{
    'pieces: loop {
        let mut piece = [0; HEAD_PIECE];
        let count = match source.take(&mut piece) {
            Err(_) => return Err(HttpFault::ReadFailed),
            Ok(0) => return Ok(false),
            Ok(count) => count,
        };
        match held.extend_from_slice(&piece[..count]) {
            Ok(()) => {}
            Err(_) => return Err(HttpFault::NoMemory),
        }
        if piece[..count].contains(&b'\n') || held.len() >= MOST_HEAD {
            return Ok(true);
        }
    }
}

// Holds pieces of the source until a head stands at the front, or none can.
fn read_head<S: Source>(
    source: &mut S,
    held: &mut Vec<u8>,
) -> Result<Option<(usize, RequestForm)>, HttpFault>
    ensures gives { HeadsAs (stream_ahead held.old.items (S.left source.old)) (stream_ahead held.new.items (S.left source.new)) result }
    ensures ready { HasRequestText held.old.items → (source.new ≡ source.old) × (held.new ≡ held.old) }
    ensures pieces { (source.new ≡ source.old) ⊎ TakesPieces held.old.items (S.left source.old) (S.left source.new) }
    ensures found { IfOk result (λ found. IsSome found → ((source.new ≡ source.old) × (held.new ≡ held.old)) ⊎ HoldsPieces held.old.items held.new.items (S.left source.old) (S.left source.new)) }
    ensures faults { FaultsAs (S.faults source.old) (S.faults source.new) result }
{
    'pieces: loop {
        match find_head(held) {
            Found::Head(len, Some(form)) => return Ok(Some((len, form))),
            Found::Head(_, None) => return Err(HttpFault::Unread),
            Found::Never => return Err(HttpFault::Unread),
            Found::More => match fill(source, held) {
                Ok(true) => {}
                Ok(false) => {
                    if held.is_empty() {
                        return Ok(None);
                    }
                    return Err(HttpFault::Cut);
                }
                Err(fault) => return Err(fault),
            },
        }
    }
}

// Takes away the bytes at the front.
fn drop_front(held: &mut Vec<u8>, count: usize)
    requires { count ≤ vec_len held.old }
    ensures { held.new.items ≡ drop count held.old.items }
{
    let kept = held.len() - count;
    held.copy_within(count.., 0);
    held.truncate(kept);
}

// Takes the head away, and the body after it as it comes.
fn take_body<S: Source>(
    alloc: Global,
    source: &mut S,
    held: &mut Vec<u8>,
    len: usize,
    size: usize,
) -> Result<Whole, HttpFault>
    requires body { BodyAt held.old.items len size }
    ensures gives { BodyAs (stream_ahead held.old.items (S.left source.old)) (stream_ahead held.new.items (S.left source.new)) len size result }
    ensures ready { len + size ≤ length held.old.items → source.new ≡ source.old }
    ensures pieces { (source.new ≡ source.old) ⊎ TakesPieces held.old.items (S.left source.old) (S.left source.new) }
    ensures faults { FaultsAs (S.faults source.old) (S.faults source.new) result }
{
    let first = size.min(held.len() - len);
    let mut intake = Intake::new(alloc, size as u64);
    match intake.take(&held[len..len + first]) {
        Ok(()) => {}
        Err(IntakeFault::NoMemory) => return Err(HttpFault::NoMemory),
        Err(IntakeFault::TooLarge { .. }) => unreachable!(),
    }
    drop_front(held, len + first);
    let mut wanted = size - first;
    let mut piece = [0; BODY_PIECE];
    'pieces: while wanted > 0 {
        let most = wanted.min(BODY_PIECE);
        let count = match source.take(&mut piece[..most]) {
            Err(_) => return Err(HttpFault::ReadFailed),
            Ok(0) => return Err(HttpFault::Cut),
            Ok(count) => count,
        };
        match intake.take(&piece[..count]) {
            Ok(()) => {}
            Err(IntakeFault::NoMemory) => return Err(HttpFault::NoMemory),
            Err(IntakeFault::TooLarge { .. }) => unreachable!(),
        }
        wanted -= count;
    }
    Ok(intake.finish())
}

// The request to store a body, where it has the hash named. Only then is it read.
fn blob_request(
    alloc: Global,
    space: Namespace,
    named: IoHash,
    body: Whole,
) -> Result<Option<Request>, HttpFault>
    ensures { AskedAs (PutBlob space named (length body)) body result }
{
    let found = body.hash();
    if found != named {
        return Err(HttpFault::HashMismatch { named, found });
    }
    match Checked::new(alloc, body) {
        Ok(blob) => Ok(Some(Request {
            ask: Ask::PutBlob { space, blob },
        })),
        Err(_) => Err(HttpFault::NoMemory),
    }
}

// Where a body that is no object breaks the rules.
fn not_an_object(alloc: Global, body: &[u8]) -> HttpFault
    requires { IsNoObject body.now }
    ensures { BreaksAs body.now result }
{
    match check_object(alloc, body) {
        Ok(()) => unreachable!(),
        Err(CbFault::NotObject { at }) => HttpFault::NotAnObject { at },
        Err(CbFault::NoMemory) => HttpFault::NoMemory,
    }
}

// The request to put a body under a reference, where it is an object.
fn object_request(alloc: Global, name: RefName, body: Whole) -> Result<Option<Request>, HttpFault>
    ensures { AskedAs (PutRef name (length body)) body result }
{
    match Checked::new(alloc, body) {
        Ok(object) => {
            if object.is_object() {
                Ok(Some(Request {
                    ask: Ask::PutRef { name, object },
                }))
            } else {
                Err(not_an_object(alloc, object.whole().bytes()))
            }
        }
        Err(_) => Err(HttpFault::NoMemory),
    }
}

// The place after a head and its body.
fn place_after(place: u64, len: usize, size: u64) -> u64
    ensures { result ≡ min (place + len + size) (2 ^ 64 - 1) }
{
    place.saturating_add(len as u64).saturating_add(size)
}

// Takes away a head that no body follows.
fn pass_head(held: &mut Vec<u8>, place: &mut u64, len: usize)
    requires { len ≤ vec_len held.old }
    ensures bytes { held.new.items ≡ drop len held.old.items }
    ensures place { place.new ≡ min (place.old + len + 0) (2 ^ 64 - 1) }
{
    *place = place_after(*place, len, 0);
    drop_front(held, len);
}

// Takes the request of this form, whose head stands at the front.
fn take_request<S: Source>(
    alloc: Global,
    source: &mut S,
    held: &mut Vec<u8>,
    place: &mut u64,
    len: usize,
    form: RequestForm,
) -> Result<Option<Request>, HttpFault>
    requires head { HeadAt held.old.items len (Some form) }
    ensures gives { ReadsNext (stream_ahead held.old.items (S.left source.old)) (stream_ahead held.new.items (S.left source.new)) place.old place.new result }
    ensures ready { HasRequestText held.old.items → source.new ≡ source.old }
    ensures pieces { (source.new ≡ source.old) ⊎ TakesPieces held.old.items (S.left source.old) (S.left source.new) }
    ensures faults { FaultsAs (S.faults source.old) (S.faults source.new) result }
{
    match form {
        RequestForm::PutBlob(space, named, size) => {
            match take_body(alloc, source, held, len, size as usize) {
                Err(fault) => Err(fault),
                Ok(body) => {
                    *place = place_after(*place, len, size);
                    blob_request(alloc, space, named, body)
                }
            }
        }
        RequestForm::PutRef(name, size) => {
            match take_body(alloc, source, held, len, size as usize) {
                Err(fault) => Err(fault),
                Ok(body) => {
                    *place = place_after(*place, len, size);
                    object_request(alloc, name, body)
                }
            }
        }
        RequestForm::GetBlob(space, hash) => {
            pass_head(held, place, len);
            let ask = Ask::GetBlob { space, hash };
            Ok(Some(Request { ask }))
        }
        RequestForm::GetRef(name) => {
            pass_head(held, place, len);
            let ask = Ask::GetRef { name };
            Ok(Some(Request { ask }))
        }
        RequestForm::Finalise(name, hash) => {
            pass_head(held, place, len);
            let ask = Ask::Finalise { name, hash };
            Ok(Some(Request { ask }))
        }
    }
}

/// Takes one request from what is held and from the source.
pub fn next_request<S: Source>(
    alloc: Global,
    source: &mut S,
    held: &mut Vec<u8>,
    place: &mut u64,
) -> Result<Option<Request>, HttpFault>
    ensures gives { ReadsNext (stream_ahead held.old.items (S.left source.old)) (stream_ahead held.new.items (S.left source.new)) place.old place.new result }
    ensures ready { HasRequestText held.old.items → source.new ≡ source.old }
    ensures pieces { (source.new ≡ source.old) ⊎ TakesPieces held.old.items (S.left source.old) (S.left source.new) }
    ensures faults { FaultsAs (S.faults source.old) (S.faults source.new) result }
{
    match read_head(source, held) {
        Err(fault) => Err(fault),
        Ok(None) => Ok(None),
        Ok(Some((len, form))) => take_request(alloc, source, held, place, len, form),
    }
}
