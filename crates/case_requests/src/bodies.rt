//! Bodies of replies.

use crate::words::{cut_word, hash_in, number_in, push_bytes};
use ddc_http::{
    ErrorCode, HttpFault, damaged_body, error_body, fault_body, full_body, history_full_body,
    identifier_body, needs_body,
};
use ddc_model::What;
use ddc_names::{ByteList, NoMemory};
use std::alloc::Global;

// The body of this kind, made of these words.
pub fn body_line(alloc: Global, words: &str) -> Result<String, NoMemory> {
    let (kind, rest) = cut_word(words);
    let body = body_of(alloc, kind, rest)?;
    let mut text = String::new(alloc);
    push_bytes(&mut text, body.as_slice())?;
    Ok(text)
}

fn body_of(alloc: Global, kind: &str, words: &str) -> Result<ByteList, NoMemory> {
    let (first, second) = cut_word(words);
    match kind {
        "identifier" => identifier_body(alloc, &hash_in(first)),
        "mismatch" => {
            let named = hash_in(first);
            let found = hash_in(second);
            fault_body(alloc, &HttpFault::HashMismatch { named, found })
        }
        "not_object" => {
            let at = number_in(first);
            fault_body(alloc, &HttpFault::NotAnObject { at })
        }
        "fault" => fault_body(alloc, &HttpFault::Unread),
        "full" => full_body(alloc, what_of(first), number_in(second)),
        "history_full" => history_full_body(alloc, number_in(first), number_in(second)),
        "damaged" => damaged_body(alloc, &hash_in(first), &hash_in(second)),
        "needs" => needs_of(alloc, words),
        _ => error_body(alloc, code_of(first)),
    }
}

fn needs_of(alloc: Global, words: &str) -> Result<ByteList, NoMemory> {
    let mut hashes = Vec::new(alloc);
    for word in words.split(' ') {
        if word.len() == 40 {
            hashes.push(hash_in(word))?;
        }
    }
    needs_body(alloc, &hashes)
}

fn what_of(word: &str) -> What {
    match word {
        "spaces" => What::Spaces,
        "blobs" => What::Blobs,
        "refs" => What::Refs,
        "links" => What::Links,
        _ => What::Units,
    }
}

fn code_of(word: &str) -> ErrorCode {
    match word {
        "unread" => ErrorCode::Unread,
        "not_found" => ErrorCode::NotFound,
        "unknown_namespace" => ErrorCode::UnknownNamespace,
        "not_finalised" => ErrorCode::NotFinalised,
        "not_pending" => ErrorCode::NotPending,
        "disk_failed" => ErrorCode::DiskFailed,
        _ => ErrorCode::Broken,
    }
}
