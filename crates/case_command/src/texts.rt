//! Words, numbers and bytes as text.

use ddc_names::NoMemory;
use std::alloc::Global;

/// The first word of a text, and the words after it.
pub fn parts_of(text: &str) -> (&str, &str) {
    match text.split_once(' ') {
        Some(parts) => parts,
        None => (text, ""),
    }
}

/// The numbers among the words of a text.
pub fn numbers_of(alloc: Global, text: &str) -> Result<Vec<u64>, NoMemory> {
    let mut numbers = Vec::new(alloc);
    for word in text.split(' ') {
        if let Ok(number) = word.parse::<u64>() {
            numbers.push(number)?;
        }
    }
    Ok(numbers)
}

/// The words of a text.
pub fn words_of(alloc: Global, text: &str) -> Result<Vec<String>, NoMemory> {
    let mut words = Vec::new(alloc);
    for word in text.split(' ') {
        if !word.is_empty() {
            words.push(String::from_str(alloc, word)?)?;
        }
    }
    Ok(words)
}

/// The bytes that a hexadecimal text spells.
pub fn bytes_of(alloc: Global, digits: &str) -> Result<Vec<u8>, NoMemory> {
    let mut bytes = Vec::new(alloc);
    let mut high = None;
    for byte in digits.bytes() {
        let Some(value) = (byte as char).to_digit(16) else {
            continue;
        };
        match high {
            None => high = Some(value),
            Some(front) => {
                bytes.push((front % 16 * 16 + value % 16) as u8)?;
                high = None;
            }
        }
    }
    Ok(bytes)
}

fn digit(value: u8) -> char {
    char::from_digit(value as u32 % 16, 16).unwrap_or('0')
}

/// Writes bytes in hexadecimal.
pub fn push_hex(text: &mut String, bytes: &[u8]) -> Result<(), NoMemory> {
    for byte in bytes {
        text.push(digit(*byte / 16))?;
        text.push(digit(*byte % 16))?;
    }
    Ok(())
}

// Bytes 0 in a row: their number in brackets, where they are 16 or more.
fn push_zeros(alloc: Global, text: &mut String, count: u64) -> Result<(), NoMemory> {
    if count > 15 {
        return Ok(text.push_str(format!(in alloc; "({count})")?.as_str())?);
    }
    for _ in 0..count {
        text.push_str("00")?;
    }
    Ok(())
}

/// Writes bytes in hexadecimal, and of 16 and more bytes 0 in a row their number in brackets.
pub fn push_packed(alloc: Global, text: &mut String, bytes: &[u8]) -> Result<(), NoMemory> {
    let mut zeros = 0_u64;
    for byte in bytes {
        if *byte == 0 {
            zeros = zeros.saturating_add(1);
        } else {
            push_zeros(alloc, text, zeros)?;
            push_hex(text, &[*byte])?;
            zeros = 0;
        }
    }
    push_zeros(alloc, text, zeros)
}

// A byte that is no printable ASCII as `\xHH`.
fn push_byte(text: &mut String, byte: u8) -> Result<(), NoMemory> {
    match byte {
        b'\n' => text.push_str("\\n")?,
        b'\r' => text.push_str("\\r")?,
        b'\\' => text.push_str("\\\\")?,
        0x20..=0x7e => text.push(byte as char)?,
        _ => {
            text.push_str("\\x")?;
            push_hex(text, &[byte])?;
        }
    }
    Ok(())
}

/// Writes a word, bytes and the end of the line, and nothing where there are no bytes. After each end of a line among the
/// bytes, which is written as `\n`, a line begins.
pub fn push_bytes(text: &mut String, word: &str, bytes: &[u8]) -> Result<(), NoMemory> {
    if bytes.is_empty() {
        return Ok(());
    }
    text.push_str(word)?;
    let mut last = 0;
    for byte in bytes {
        if last == b'\n' {
            text.push_str("\n  ")?;
        }
        push_byte(text, *byte)?;
        last = *byte;
    }
    text.push_str("\n")?;
    Ok(())
}
