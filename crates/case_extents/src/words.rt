//! The words of a line.

ghost use Rattle.std.specs.Prelude.{◌<◌, ◌^◌};

use ddc_model::Extent;
use ddc_names::NoMemory;
use std::alloc::Global;

// The number that a word spells, and 0 where it spells none.
pub fn number(word: Option<&str>) -> u64 {
    match word {
        Some(word) => word.parse::<u64>().unwrap_or(0),
        None => 0,
    }
}

// The numbers that the words spell.
pub fn numbers(alloc: Global, words: &str) -> Result<Vec<u64>, NoMemory> {
    let mut all = Vec::new(alloc);
    for word in words.split(' ') {
        if let Ok(value) = word.parse::<u64>() {
            all.push(value)?;
        }
    }
    Ok(all)
}

// A number, and the words after it.
pub fn first_number(words: &str) -> (u64, &str) {
    match words.split_once(' ') {
        Some((word, rest)) => (number(Some(word)), rest),
        None => (number(Some(words)), ""),
    }
}

// The extent that two numbers at the front spell, and the words after them.
pub fn first_extent(words: &str) -> (Extent, &str) {
    let (start, rest) = first_number(words);
    let (units, rest) = first_number(rest);
    let units = u32::try_from(units).unwrap_or(u32::MAX);
    (Extent { start, units }, rest)
}

// The bytes that hexadecimal digits spell.
pub fn bytes_of(alloc: Global, digits: &str) -> Result<Vec<u8>, NoMemory> {
    let mut bytes = Vec::new(alloc);
    let mut high = None;
    for byte in digits.bytes() {
        let Some(value) = (byte as char).to_digit(16) else {
            continue;
        };
        match high {
            None => high = Some(value),
            Some(front) => {
                bytes.push((front % 16 * 16 + value % 16) as u8)?;
                high = None;
            }
        }
    }
    Ok(bytes)
}

// Bytes in hexadecimal.
pub fn hex_text(alloc: Global, bytes: &[u8]) -> Result<String, NoMemory> {
    let mut text = String::new(alloc);
    for byte in bytes {
        text.push(digit(*byte / 16))?;
        text.push(digit(*byte % 16))?;
    }
    Ok(text)
}

fn digit(value: u8) -> char {
    char::from_digit(value as u32 % 16, 16).unwrap_or('0')
}
