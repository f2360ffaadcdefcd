//! Words, numbers and bytes of a line, and the texts of answers.

use ddc_journal::JournalFault;
use ddc_names::{ByteList, NoMemory};
use std::alloc::Global;

// The first word of a text, and the rest.
pub fn cut(text: &str) -> (&str, &str) {
    match text.split_once(' ') {
        Some(parts) => parts,
        None => (text, ""),
    }
}

pub fn number_of(text: &str) -> u64 {
    text.parse::<u64>().unwrap_or(0)
}

// The bytes of a hexadecimal text; none of another text.
pub fn bytes_of(alloc: Global, digits: &str) -> Result<Vec<u8>, NoMemory> {
    let mut bytes = Vec::new(alloc);
    let mut high = None;
    for byte in digits.bytes() {
        let Some(value) = (byte as char).to_digit(16) else {
            continue;
        };
        match high {
            None => high = Some(value),
            Some(front) => {
                bytes.push((front % 16 * 16 + value % 16) as u8)?;
                high = None;
            }
        }
    }
    Ok(bytes)
}

fn push_hex(text: &mut String, bytes: &[u8]) -> Result<(), NoMemory> {
    for byte in bytes {
        text.push(digit(*byte / 16))?;
        text.push(digit(*byte % 16))?;
    }
    Ok(())
}

fn digit(value: u8) -> char {
    char::from_digit(value as u32 % 16, 16).unwrap_or('0')
}

// A text, and each body after it.
pub fn with_bodies(mut text: String, bodies: &[ByteList]) -> Result<String, NoMemory> {
    for body in bodies {
        text.push(' ')?;
        push_hex(&mut text, body.as_slice())?;
    }
    Ok(text)
}

pub fn fault_text(alloc: Global, fault: JournalFault) -> Result<String, NoMemory> {
    match fault {
        JournalFault::Corrupt { file, at } => Ok(format!(in alloc; "corrupt {file} at {at}")?),
        JournalFault::BadVersion { found } => Ok(format!(in alloc; "version {found}")?),
        JournalFault::NotMade => Ok(String::from_str(alloc, "not made")?),
        JournalFault::DiskFailed => Ok(String::from_str(alloc, "disk failed")?),
        JournalFault::NoMemory => Err(NoMemory),
    }
}
