//! The words of a line, and texts with escapes.

use ddc_names::{IoHash, NoMemory, Rows};
use ddc_protocol::decimal_value;
use std::alloc::Global;

// The first word, and what stands after the space.
pub fn cut_word(text: &str) -> (&str, &str) {
    match text.split_once(' ') {
        Some(parts) => parts,
        None => (text, ""),
    }
}

// The number that a word writes; 0 where it writes none.
pub fn number_in(word: &str) -> u64 {
    decimal_value(word.as_bytes(), 19).unwrap_or(0)
}

// The hash that a word spells; the one of zeros where it spells none.
pub fn hash_in(word: &str) -> IoHash {
    IoHash::parse(word).unwrap_or(IoHash([0; 20]))
}

// The calls that fail: none for `-`, else the one of this number.
pub fn failing_calls(alloc: Global, word: &str) -> Result<Rows<u64>, NoMemory> {
    if word == "-" {
        return Ok(Rows::new(alloc));
    }
    let call = number_in(word);
    Ok(Rows::of_vec(vec![in alloc; call]?))
}

// Where a text stands: at a byte, after a backslash, or after the first of two digits.
#[derive(Clone, Copy)]
enum Escape {
    Plain,
    Begun,
    Half(u8),
}

fn digit_of(byte: u8) -> u8 {
    match (byte as char).to_digit(16) {
        Some(value) => (value % 16) as u8,
        None => 0,
    }
}

// How a text goes on after a byte of it, and the byte that is complete then.
fn escape_after(escape: Escape, byte: u8) -> (Escape, Option<u8>) {
    match (escape, byte) {
        (Escape::Plain, b'\\') => (Escape::Begun, None),
        (Escape::Plain, _) => (Escape::Plain, Some(byte)),
        (Escape::Begun, b'r') => (Escape::Plain, Some(b'\r')),
        (Escape::Begun, b'n') => (Escape::Plain, Some(b'\n')),
        (Escape::Begun, _) => (Escape::Half(digit_of(byte)), None),
        (Escape::Half(high), _) => (Escape::Plain, Some(high % 16 * 16 + digit_of(byte) % 16)),
    }
}

// The bytes of a text with escapes.
pub fn bytes_of(alloc: Global, text: &str) -> Result<Vec<u8>, NoMemory> {
    let mut bytes = Vec::new(alloc);
    let mut escape = Escape::Plain;
    for byte in text.bytes() {
        let (after, complete) = escape_after(escape, byte);
        escape = after;
        if let Some(complete) = complete {
            bytes.push(complete)?;
        }
    }
    Ok(bytes)
}

fn digit(value: u8) -> char {
    char::from_digit(value as u32 % 16, 16).unwrap_or('0')
}

fn push_escaped(text: &mut String, byte: u8) -> Result<(), NoMemory> {
    match byte {
        b'\r' => text.push_str("\\r")?,
        b'\n' => text.push_str("\\n")?,
        b'\\' => text.push_str("\\5c")?,
        b' '..=b'~' => text.push(byte as char)?,
        _ => {
            text.push('\\')?;
            text.push(digit(byte / 16))?;
            text.push(digit(byte % 16))?;
        }
    }
    Ok(())
}

// The text with escapes that writes the bytes.
pub fn push_bytes(text: &mut String, bytes: &[u8]) -> Result<(), NoMemory> {
    for byte in bytes {
        push_escaped(text, *byte)?;
    }
    Ok(())
}

// Writes 20 bytes in hexadecimal, after a space.
pub fn push_hash(text: &mut String, bytes: &[u8; 20]) -> Result<(), NoMemory> {
    text.push(' ')?;
    for byte in bytes {
        text.push(digit(*byte / 16))?;
        text.push(digit(*byte % 16))?;
    }
    Ok(())
}
