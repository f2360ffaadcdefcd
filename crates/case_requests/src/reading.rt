//! The requests of a stream.

use crate::words::{bytes_of, cut_word, failing_calls, number_in, push_hash};
use ddc_http::{Ask, HttpFault, Request, RequestReader};
use ddc_link::{MemSource, Source};
use ddc_names::{IoHash, NoMemory, RefName, Rows};
use ddc_state::Checked;
use std::alloc::Global;

// The most answers of a line.
const MOST_ANSWERS: u32 = 10_001;

// What a reader answers until it has ended, each answer with the place after it.
pub fn read_line(alloc: Global, words: &str) -> Result<String, NoMemory> {
    let (size, rest) = cut_word(words);
    let (failing, escaped) = cut_word(rest);
    let bytes = bytes_of(alloc, escaped)?;
    let sizes = sizes_of(alloc, size, bytes.len())?;
    let failing = failing_calls(alloc, failing)?;
    let mut source = MemSource::new(Rows::of_vec(bytes), sizes, failing);
    let mut reader = RequestReader::new(alloc, &mut source)?;
    let text = answers(alloc, &mut reader);
    reader.finish();
    text
}

fn answers<S: Source>(
    alloc: Global,
    reader: &mut RequestReader<'_, S>,
) -> Result<String, NoMemory> {
    let mut text = String::new(alloc);
    for count in 0..MOST_ANSWERS {
        if reader.ended() {
            break;
        }
        if count > 0 {
            text.push_str("; ")?;
        }
        let answer = reader.next();
        let place = reader.place();
        push_answer(alloc, &mut text, answer)?;
        text.push_str(format!(in alloc; " @{place}")?.as_str())?;
    }
    Ok(text)
}

// As many pieces of this size as there are bytes; for `-` no limit.
fn sizes_of(alloc: Global, word: &str, count: usize) -> Result<Rows<u32>, NoMemory> {
    let mut sizes = Vec::new(alloc);
    if word != "-" {
        let size = u32::try_from(number_in(word)).unwrap_or(u32::MAX);
        sizes.resize(count, size)?;
    }
    Ok(Rows::of_vec(sizes))
}

fn push_answer(
    alloc: Global,
    text: &mut String,
    answer: Result<Option<Request>, HttpFault>,
) -> Result<(), NoMemory> {
    match answer {
        Ok(Some(request)) => push_ask(alloc, text, &request.ask),
        Ok(None) => Ok(text.push_str("closed")?),
        Err(fault) => push_fault(alloc, text, fault),
    }
}

fn push_ask(alloc: Global, text: &mut String, ask: &Ask) -> Result<(), NoMemory> {
    match ask {
        Ask::PutBlob { space, blob } => {
            push_words(text, "put_blob", space.as_str())?;
            push_checked(alloc, text, blob)
        }
        Ask::GetBlob { space, hash } => {
            push_words(text, "get_blob", space.as_str())?;
            push_hash(text, &hash.0)
        }
        Ask::PutRef { name, object } => {
            push_name(text, "put_ref", name)?;
            push_checked(alloc, text, object)
        }
        Ask::GetRef { name } => push_name(text, "get_ref", name),
        Ask::Finalise { name, hash } => {
            push_name(text, "finalise", name)?;
            push_hash(text, &hash.0)
        }
    }
}

fn push_fault(alloc: Global, text: &mut String, fault: HttpFault) -> Result<(), NoMemory> {
    match fault {
        HttpFault::Unread => Ok(text.push_str("unread")?),
        HttpFault::Cut => Ok(text.push_str("cut")?),
        HttpFault::HashMismatch { named, found } => {
            text.push_str("mismatch")?;
            push_hash(text, &named.0)?;
            push_hash(text, &found.0)
        }
        HttpFault::NotAnObject { at } => {
            Ok(text.push_str(format!(in alloc; "not_object {at}")?.as_str())?)
        }
        HttpFault::ReadFailed => Ok(text.push_str("read_failed")?),
        HttpFault::NoMemory => Err(NoMemory),
    }
}

// Two words with a space between.
fn push_words(text: &mut String, word: &str, other: &str) -> Result<(), NoMemory> {
    text.push_str(word)?;
    text.push_str(" ")?;
    text.push_str(other)?;
    Ok(())
}

// A word, and the parts of a reference's name.
fn push_name(text: &mut String, word: &str, name: &RefName) -> Result<(), NoMemory> {
    push_words(text, word, name.space.as_str())?;
    text.push_str(" ")?;
    text.push_str(name.spot.bucket.as_str())?;
    push_hash(text, &name.spot.key.0)
}

// The hash of the bytes, their number, and whether they are an object.
fn push_checked(alloc: Global, text: &mut String, blob: &Checked) -> Result<(), NoMemory> {
    let IoHash(hash) = blob.whole().hash();
    push_hash(text, &hash)?;
    let size = blob.whole().bytes().len();
    text.push_str(format!(in alloc; " {size}")?.as_str())?;
    if blob.is_object() {
        text.push_str(" object")?;
    }
    Ok(())
}
