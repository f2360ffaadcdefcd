// The heads and bodies of replies.
ghost use Rattle.std.specs.Prelude.{◌≡◌, ◌++◌, codes, string_bytes, IfOk, IsSome, OnOk, option_map};
ghost use Rattle.http.specs.StatusCode.{reason_phrase};
ghost use Rattle.hex.specs.Hex.{encode_lower};
ghost use Rattle.json.specs.Print.{escape};
ghost use Rattle.serde_json.specs.Data.{string, unsigned, number, object, member, no_members};
ghost use Rattle.serde_json.specs.View.{view};
ghost use Rattle.ddc_protocol.specs.Replies.{head_text, hash_line, close_line, opening_text, ending_text, identifier_body, error_body, mismatch_body, not_object_body, what_text, full_body, history_full_body, damaged_body, needs_body};
ghost use Rattle.ddc_http.specs.Flows.{WritesText, flow};
ghost use Rattle.ddc_http.specs.Heads.{kind_text, text_of, code_text, IsAnswered, fault_text, StatusPhrases};
ghost use Rattle.ddc_http.specs.inside.Entries.{hash_entry};

use crate::request::HttpFault;
use ddc_link::{Sink, put_all};
use ddc_model::What;
use ddc_names::{ByteList, IoHash, NoMemory};
use http::StatusCode;
use serde_json::{Value, json};
use std::alloc::{AllocError, Global};

/// The media type of a reply's body.
#[derive(Clone, Copy, Debug, PartialEq, Eq)]
pub enum Kind {
    /// `application/json`
    Json,
    /// `application/octet-stream`
    Octets,
    /// `application/x-ue-cb`, Compact Binary
    Compact,
}

/// The head of a reply.
#[derive(Clone, Copy, Debug, PartialEq, Eq)]
pub struct Head {
    /// The status, of RFC 9110, section 15.
    pub status: u16,
    pub kind: Kind,
    /// The hash of the body, where the head names it.
    pub hash: Option<IoHash>,
    /// The length of the body in bytes.
    pub length: u64,
    /// Whether the server closes the connection after the reply.
    pub close: bool,
}

/// Why a head was not written, or not whole.
#[derive(Clone, Copy, Debug, PartialEq, Eq)]
pub enum WriteFault {
    /// The sink failed. A front of the head was written.
    Failed,
    /// There was no memory for the head. Nothing was written.
    NoMemory,
}

/// Why a request is refused.
#[derive(Clone, Copy, Debug, PartialEq, Eq)]
pub enum ErrorCode {
    /// `unread`: the request is of no form that is answered.
    Unread,
    /// `not_found`
    NotFound,
    /// `unknown_namespace`
    UnknownNamespace,
    /// `not_finalised`: the reference has no object that is finalised.
    NotFinalised,
    /// `not_pending`: the reference has another object than the one named.
    NotPending,
    /// `disk_failed`: a disk failed in this call.
    DiskFailed,
    /// `broken`: a disk failed in an earlier call.
    Broken,
}

impl Kind {
    fn text(self) -> &'static str
        ensures { result.now ≡ kind_text self }
    {
        match self {
            Kind::Json => "application/json",
            Kind::Octets => "application/octet-stream",
            Kind::Compact => "application/x-ue-cb",
        }
    }
}

impl ErrorCode {
    fn text(self) -> &'static str
        ensures { result.now ≡ code_text self }
    {
        match self {
            ErrorCode::Unread => "unread",
            ErrorCode::NotFound => "not_found",
            ErrorCode::UnknownNamespace => "unknown_namespace",
            ErrorCode::NotFinalised => "not_finalised",
            ErrorCode::NotPending => "not_pending",
            ErrorCode::DiskFailed => "disk_failed",
            ErrorCode::Broken => "broken",
        }
    }
}

fn phrase_of(status: u16) -> Option<&'static str>
    ensures { option_map (λ phrase. phrase.now) result ≡ reason_phrase status }
{
    match StatusCode::from_u16(status) {
        Ok(status) => status.canonical_reason(),
        Err(_) => None,
    }
}

// The status line, and the type of the body.
fn opening_text(alloc: Global, status: u16, phrase: &str, kind: &str) -> Result<String, AllocError>
    ensures { IfOk result (λ text. string_bytes text ≡ opening_text status phrase.now kind.now) }
{
    format!(in alloc; "HTTP/1.1 {status} {phrase}\r\nContent-Type: {kind}\r\n")
}

#[tactic(auto, unfolding(ddc_protocol::specs::Replies::hash_line))]
fn hash_line(alloc: Global, hash: Option<IoHash>) -> Result<String, AllocError>
    ensures { IfOk result (λ text. string_bytes text ≡ hash_line hash) }
{
    match hash {
        None => Ok(String::new(alloc)),
        Some(hash) => {
            let text = hex::encode(alloc, hash.0)?;
            format!(in alloc; "X-Jupiter-IoHash: {text}\r\n")
        }
    }
}

#[tactic(auto, unfolding(ddc_protocol::specs::Replies::close_line))]
fn close_line(close: bool) -> &'static str
    ensures { result.now ≡ close_line close }
{
    if close { "Connection: close\r\n" } else { "" }
}

// The length of the body, whether the server closes, and the empty line.
fn ending_text(alloc: Global, length: u64, close: &str) -> Result<String, AllocError>
    ensures { IfOk result (λ text. string_bytes text ≡ ending_text length close.now) }
{
    format!(in alloc; "Content-Length: {length}\r\n{close}\r\n")
}

#[tactic(auto, unfolding(ddc_protocol::specs::Replies::head_text))]
fn head_text(alloc: Global, head: &Head) -> Result<String, AllocError>
    ensures { IfOk result (λ text. string_bytes text ≡ text_of head.now) }
{
    let phrase = phrase_of(head.status).unwrap_or("");
    let mut text = opening_text(alloc, head.status, phrase, head.kind.text())?;
    let hash = hash_line(alloc, head.hash)?;
    text.push_str(hash.as_str())?;
    let ending = ending_text(alloc, head.length, close_line(head.close))?;
    text.push_str(ending.as_str())?;
    Ok(text)
}

/// Writes a head, to its empty line (RFC 9112, section 4). The whole head is built first.
///
/// # Errors
///
/// `Failed` where the sink failed, and then a front of the head was written. `NoMemory` where the
/// head could not be built, and then nothing was written.
pub fn write_head<W: Sink>(alloc: Global, sink: &mut W, head: &Head) -> Result<(), WriteFault>
    requires { IsSome (reason_phrase head.now.status) }
    ensures { WritesText (flow (W.written sink.old) (W.faults sink.old)) (flow (W.written sink.new) (W.faults sink.new)) (text_of head.now) result }
{
    let Ok(text) = head_text(alloc, head) else {
        return Err(WriteFault::NoMemory);
    };
    match put_all(sink, text.as_bytes()) {
        Ok(()) => Ok(()),
        Err(_) => Err(WriteFault::Failed),
    }
}

fn identifier_value(alloc: Global, identifier: &str) -> Result<Value, AllocError>
    ensures { IfOk result (λ value. view value ≡ object (member (codes "identifier") (string identifier.now) no_members)) }
{
    json!(in alloc; {"identifier": identifier})
}

fn error_value(alloc: Global, code: &str) -> Result<Value, AllocError>
    ensures { IfOk result (λ value. view value ≡ object (member (codes "error") (string code.now) no_members)) }
{
    json!(in alloc; {"error": code})
}

fn mismatch_value(alloc: Global, found: &str, named: &str) -> Result<Value, AllocError>
    ensures { IfOk result (λ value. view value ≡ object (member (codes "error") (string (codes "hash_mismatch"))
        (member (codes "found") (string found.now) (member (codes "named") (string named.now) no_members)))) }
{
    json!(in alloc; {"error": "hash_mismatch", "found": found, "named": named})
}

fn not_object_value(alloc: Global, at: u64) -> Result<Value, AllocError>
    ensures { IfOk result (λ value. view value ≡ object (member (codes "at") (number (unsigned at))
        (member (codes "error") (string (codes "not_an_object")) no_members))) }
{
    json!(in alloc; {"at": at, "error": "not_an_object"})
}

fn full_value(alloc: Global, limit: u64, what: &str) -> Result<Value, AllocError>
    ensures { IfOk result (λ value. view value ≡ object (member (codes "error") (string (codes "full"))
        (member (codes "limit") (number (unsigned limit)) (member (codes "what") (string what.now) no_members)))) }
{
    json!(in alloc; {"error": "full", "limit": limit, "what": what})
}

fn history_full_value(alloc: Global, entries: u64, links: u64) -> Result<Value, AllocError>
    ensures { IfOk result (λ value. view value ≡ object (member (codes "entries") (number (unsigned entries))
        (member (codes "error") (string (codes "history_full")) (member (codes "links") (number (unsigned links)) no_members)))) }
{
    json!(in alloc; {"entries": entries, "error": "history_full", "links": links})
}

fn damaged_value(alloc: Global, found: &str, named: &str) -> Result<Value, AllocError>
    ensures { IfOk result (λ value. view value ≡ object (member (codes "error") (string (codes "damaged"))
        (member (codes "found") (string found.now) (member (codes "named") (string named.now) no_members)))) }
{
    json!(in alloc; {"error": "damaged", "found": found, "named": named})
}

// The digits of a hash, which JSON writes as they are.
fn digits_of(alloc: Global, hash: &[u8]) -> Result<String, AllocError>
    ensures digits { IfOk result (λ text. string_bytes text ≡ encode_lower hash.now) }
    ensures plain { IfOk result (λ text. escape (string_bytes text) ≡ string_bytes text) }
{
    hex::encode(alloc, hash)
}

fn identifier_text(alloc: Global, hash: &IoHash) -> Result<String, AllocError>
    ensures { IfOk result (λ text. string_bytes text ≡ identifier_body hash.now) }
{
    let identifier = digits_of(alloc, &hash.0)?;
    let value = identifier_value(alloc, identifier.as_str())?;
    value.to_string(alloc)
}

fn error_text(alloc: Global, code: ErrorCode) -> Result<String, AllocError>
    ensures { IfOk result (λ text. string_bytes text ≡ error_body (code_text code)) }
{
    let value = error_value(alloc, code.text())?;
    value.to_string(alloc)
}

fn mismatch_text(alloc: Global, expected: &IoHash, found: &IoHash) -> Result<String, AllocError>
    ensures { IfOk result (λ text. string_bytes text ≡ mismatch_body expected.now found.now) }
{
    let found = digits_of(alloc, &found.0)?;
    let named = digits_of(alloc, &expected.0)?;
    let value = mismatch_value(alloc, found.as_str(), named.as_str())?;
    value.to_string(alloc)
}

fn not_object_text(alloc: Global, at: u64) -> Result<String, AllocError>
    ensures { IfOk result (λ text. string_bytes text ≡ not_object_body at) }
{
    let value = not_object_value(alloc, at)?;
    value.to_string(alloc)
}

fn full_text(alloc: Global, what: What, limit: u64) -> Result<String, AllocError>
    ensures { IfOk result (λ text. string_bytes text ≡ full_body limit (what_text what)) }
{
    let value = full_value(alloc, limit, what_text(what))?;
    value.to_string(alloc)
}

fn history_full_text(alloc: Global, entries: u64, links: u64) -> Result<String, AllocError>
    ensures { IfOk result (λ text. string_bytes text ≡ history_full_body entries links) }
{
    let value = history_full_value(alloc, entries, links)?;
    value.to_string(alloc)
}

fn damaged_text(alloc: Global, named: &IoHash, found: &IoHash) -> Result<String, AllocError>
    ensures { IfOk result (λ text. string_bytes text ≡ damaged_body named.now found.now) }
{
    let found = digits_of(alloc, &found.0)?;
    let named = digits_of(alloc, &named.0)?;
    let value = damaged_value(alloc, found.as_str(), named.as_str())?;
    value.to_string(alloc)
}

// The word of what a limit counts.
fn what_text(what: What) -> &'static str
    ensures { result.now ≡ what_text what }
{
    match what {
        What::Spaces => "spaces",
        What::Blobs => "blobs",
        What::Refs => "refs",
        What::Links => "links",
        What::Units => "units",
    }
}

/// The body that names the hash of what was stored.
///
/// # Errors
///
/// `NoMemory` where there was no memory for it.
pub fn identifier_body(alloc: Global, hash: &IoHash) -> Result<ByteList, NoMemory>
    ensures { IfOk result (λ body. body ≡ identifier_body hash.now) }
{
    let text = identifier_text(alloc, hash).map_err(|_| NoMemory)?;
    Ok(ByteList::of_vec(text.into_bytes()))
}

/// The body of a refusal.
///
/// # Errors
///
/// `NoMemory` where there was no memory for it.
pub fn error_body(alloc: Global, code: ErrorCode) -> Result<ByteList, NoMemory>
    ensures { IfOk result (λ body. body ≡ error_body (code_text code)) }
{
    let text = error_text(alloc, code).map_err(|_| NoMemory)?;
    Ok(ByteList::of_vec(text.into_bytes()))
}

/// The body of the reply to a request that was not answered: one that is not read, one whose body has another hash
/// than the one named, or one whose body is no object.
///
/// # Errors
///
/// `NoMemory` where there was no memory for it.
pub fn fault_body(alloc: Global, fault: &HttpFault) -> Result<ByteList, NoMemory>
    requires { IsAnswered fault.now }
    ensures { IfOk result (λ body. body ≡ fault_text fault.now) }
{
    let text = match fault {
        HttpFault::Unread => error_text(alloc, ErrorCode::Unread),
        HttpFault::HashMismatch { named, found } => mismatch_text(alloc, named, found),
        HttpFault::NotAnObject { at } => not_object_text(alloc, *at),
        HttpFault::Cut => unreachable!(),
        HttpFault::ReadFailed => unreachable!(),
        HttpFault::NoMemory => unreachable!(),
    };
    match text {
        Ok(text) => Ok(ByteList::of_vec(text.into_bytes())),
        Err(_) => Err(NoMemory),
    }
}

/// The body of the refusal of a change that would pass `limit`, the most of what is counted.
///
/// # Errors
///
/// `NoMemory` where there was no memory for it.
pub fn full_body(alloc: Global, what: What, limit: u64) -> Result<ByteList, NoMemory>
    ensures { IfOk result (λ body. body ≡ full_body limit (what_text what)) }
{
    let text = full_text(alloc, what, limit).map_err(|_| NoMemory)?;
    Ok(ByteList::of_vec(text.into_bytes()))
}

/// The body of the refusal of a change for which the history of this opening has no room: so many entries with so many
/// links were made.
///
/// # Errors
///
/// `NoMemory` where there was no memory for it.
pub fn history_full_body(alloc: Global, entries: u64, links: u64) -> Result<ByteList, NoMemory>
    ensures { IfOk result (λ body. body ≡ history_full_body entries links) }
{
    let text = history_full_text(alloc, entries, links).map_err(|_| NoMemory)?;
    Ok(ByteList::of_vec(text.into_bytes()))
}

/// The body of the reply that names a blob and the other hash that its bytes have.
///
/// # Errors
///
/// `NoMemory` where there was no memory for it.
pub fn damaged_body(alloc: Global, named: &IoHash, found: &IoHash) -> Result<ByteList, NoMemory>
    ensures { IfOk result (λ body. body ≡ damaged_body named.now found.now) }
{
    let text = damaged_text(alloc, named, found).map_err(|_| NoMemory)?;
    Ok(ByteList::of_vec(text.into_bytes()))
}

// Writes a hash between quotes, with a comma before it unless it is the first of a list.
fn push_hash(list: &mut Vec<u8>, hash: &IoHash, is_first: bool) -> Result<(), NoMemory>
    ensures { OnOk result (list.new.items ≡ list.old.items ++ hash_entry is_first hash.now) }
{
    let opening = if is_first {
        b"\"".as_slice()
    } else {
        b",\"".as_slice()
    };
    list.extend_from_slice(opening)?;
    list.extend_from_slice(&hash.text())?;
    list.push(b'"')?;
    Ok(())
}

/// The body that lists the hashes of what is needed, in this order.
///
/// # Errors
///
/// `NoMemory` where there was no memory for it.
pub fn needs_body(alloc: Global, hashes: &[IoHash]) -> Result<ByteList, NoMemory>
    ensures { IfOk result (λ body. body ≡ needs_body hashes.now) }
{
    let mut body = Vec::from_slice(alloc, b"{\"needs\":[")?;
    for (at, hash) in hashes.iter().enumerate() {
        push_hash(&mut body, hash, at == 0)?;
    }
    body.extend_from_slice(b"]}")?;
    Ok(ByteList::of_vec(body))
}

/// Each status that the server answers has its phrase of RFC 9110, section 15.
pub fn status_phrases()
    ensures { StatusPhrases }
{}
