//! Heads of replies.

ghost use Rattle.std.specs.Prelude.{IfSome, IsSome};
ghost use Rattle.http.specs.StatusCode.{reason_phrase};

use crate::words::{cut_word, failing_calls, number_in, push_bytes};
use ddc_http::{Head, Kind, WriteFault, write_head};
use ddc_link::MemSink;
use ddc_names::{IoHash, NoMemory};
use std::alloc::Global;

// Whether a head is written, and what is.
pub fn head_line(alloc: Global, words: &str) -> Result<String, NoMemory> {
    let (failing, rest) = cut_word(words);
    let (status, rest) = cut_word(rest);
    let (kind, rest) = cut_word(rest);
    let (hash, rest) = cut_word(rest);
    let (length, close) = cut_word(rest);
    let Some(status) = status_of(status) else {
        return Ok(String::from_str(alloc, "no status")?);
    };
    let head = Head {
        status,
        kind: kind_of(kind),
        hash: IoHash::parse(hash),
        length: number_in(length),
        close: close == "close",
    };
    let mut sink = MemSink::new(alloc, failing_calls(alloc, failing)?);
    let mut text = match write_head(alloc, &mut sink, &head) {
        Ok(()) => String::from_str(alloc, "written ")?,
        Err(WriteFault::Failed) => String::from_str(alloc, "failed ")?,
        Err(WriteFault::NoMemory) => return Err(NoMemory),
    };
    push_bytes(&mut text, sink.written())?;
    Ok(text)
}

fn kind_of(word: &str) -> Kind {
    match word {
        "json" => Kind::Json,
        "octets" => Kind::Octets,
        _ => Kind::Compact,
    }
}

// A status that has a phrase.
fn status_of(word: &str) -> Option<u16>
    ensures { IfSome result (λ status. IsSome (reason_phrase status)) }
{
    match number_in(word) {
        200 => Some(200),
        400 => Some(400),
        404 => Some(404),
        405 => Some(405),
        409 => Some(409),
        410 => Some(410),
        411 => Some(411),
        413 => Some(413),
        415 => Some(415),
        431 => Some(431),
        500 => Some(500),
        503 => Some(503),
        507 => Some(507),
        _ => None,
    }
}
