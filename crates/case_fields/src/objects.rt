//! Objects, their numbers, and the object that lists hashes.

use cb_fields::{
    CbFault, Link, LinkKind, check_object, links_of, read_object, read_varuint, write_needs,
};
use ddc_names::{IoHash, NoMemory};
use std::alloc::Global;

// The bytes of a hexadecimal text; none of another text.
pub fn bytes_of(alloc: Global, digits: &str) -> Result<Vec<u8>, NoMemory> {
    let mut bytes = Vec::new(alloc);
    let mut high = None;
    for byte in digits.bytes() {
        let Some(value) = (byte as char).to_digit(16) else {
            continue;
        };
        match high {
            None => high = Some(value),
            Some(front) => {
                bytes.push((front % 16 * 16 + value % 16) as u8)?;
                high = None;
            }
        }
    }
    Ok(bytes)
}

// Writes a word for the kind of a link, and its hash.
pub fn push_link(text: &mut String, link: &Link) -> Result<(), NoMemory> {
    text.push_str(match link.kind {
        LinkKind::Object => " object:",
        LinkKind::Binary => " binary:",
    })?;
    push_hex(text, &link.hash.0)
}

// Writes bytes in hexadecimal.
pub fn push_hex(text: &mut String, bytes: &[u8]) -> Result<(), NoMemory> {
    for byte in bytes {
        text.push(digit(*byte / 16))?;
        text.push(digit(*byte % 16))?;
    }
    Ok(())
}

fn digit(value: u8) -> char {
    char::from_digit(value as u32 % 16, 16).unwrap_or('0')
}

// `object` and the links of an object, or `fault` and its place; `differs` where the three calls say different things.
pub fn object_line(alloc: Global, digits: &str) -> Result<String, NoMemory> {
    let bytes = bytes_of(alloc, digits)?;
    let checked = check_object(alloc, &bytes);
    let listed = links_of(alloc, &bytes)?;
    match read_object(alloc, &bytes) {
        Ok(links) if checked == Ok(()) && listed.as_slice() == links.as_slice() => {
            linked(alloc, links.as_slice())
        }
        Err(CbFault::NotObject { at })
            if checked == Err(CbFault::NotObject { at }) && listed.len() == 0 => {
            Ok(format!(in alloc; "fault {at}")?)
        }
        Err(CbFault::NoMemory) => Err(NoMemory),
        _ => Ok(String::from_str(alloc, "differs")?),
    }
}

// `object` and these links.
fn linked(alloc: Global, links: &[Link]) -> Result<String, NoMemory> {
    let mut text = String::from_str(alloc, "object")?;
    for link in links {
        push_link(&mut text, link)?;
    }
    Ok(text)
}

// The number and its length, or `none`.
pub fn number_line(alloc: Global, digits: &str) -> Result<String, NoMemory> {
    let bytes = bytes_of(alloc, digits)?;
    match read_varuint(&bytes) {
        None => Ok(String::from_str(alloc, "none")?),
        Some((number, len)) => Ok(format!(in alloc; "{number} of {len}")?),
    }
}

// The object that lists the hashes, in hexadecimal.
pub fn needs_line(alloc: Global, words: &str) -> Result<String, NoMemory> {
    let mut hashes = Vec::new(alloc);
    for word in words.split(' ') {
        if let Some(hash) = IoHash::parse(word) {
            hashes.push(hash)?;
        }
    }
    let mut text = String::new(alloc);
    push_hex(&mut text, write_needs(alloc, &hashes)?.as_slice())?;
    Ok(text)
}
