//! The names of references.

ghost use Rattle.std.specs.Prelude.{◌≡◌, ◌&&◌, nat_lt, None, Some, IfOk, IfErr, OnOk};
ghost use Rattle.hex.specs.Hex.{is_hex_digit};
ghost use Rattle.ddc_names.specs.Texts.{bytes_of, digits_fault, AreDigits, BreaksDigits};
ghost use Rattle.ddc_names.specs.Names.{key_of, key_text};

use crate::{BadName, Bucket, IoHash, Namespace};
use hex::FromHex;

/// The key of a reference in its bucket, spelled as a hash is.
#[derive(Clone, Copy, Debug, PartialEq, Eq, PartialOrd, Ord)]
pub struct RefKey(pub [u8; 20]);

/// Where a reference stands in its namespace. Spots are ordered by bucket and then by key.
#[derive(Clone, Copy, Debug, PartialEq, Eq, PartialOrd, Ord)]
pub struct RefSpot {
    pub bucket: Bucket,
    pub key: RefKey,
}

/// A reference's whole name. Names are ordered by namespace and then by spot.
#[derive(Clone, Copy, Debug, PartialEq, Eq, PartialOrd, Ord)]
pub struct RefName {
    pub space: Namespace,
    pub spot: RefSpot,
}

impl RefKey {
    /// The key that 40 hexadecimal digits of either case spell.
    ///
    /// # Errors
    ///
    /// `BadName` with the least place at which the text breaks the rule: a byte that is no digit,
    /// 40 where the text is longer, or the text's length where it is shorter.
    pub fn parse(text: &str) -> Result<RefKey, BadName>
        ensures read { result ≡ key_of text.now }
        ensures key { IfOk result (λ key. key.0 ≡ bytes_of text.now) }
        ensures digits { OnOk result (AreDigits text.now) }
        ensures fault { IfErr result (λ fault. BreaksDigits text.now fault.at) }
    {
        if let Some(at) = find_fault(text.as_bytes()) {
            return Err(BadName { at });
        }
        match <[u8; 20] as FromHex>::from_hex(text) {
            Ok(bytes) => Ok(RefKey(bytes)),
            Err(_) => unreachable!(),
        }
    }

    /// The 40 hexadecimal digits of the key, in lower case.
    pub fn text(&self) -> [u8; 40]
        ensures { result ≡ key_text self.now }
    {
        IoHash(self.0).text()
    }
}

fn is_allowed(at: usize, byte: u8) -> bool
    ensures { result ≡ (nat_lt at 40 && is_hex_digit byte) }
{
    at < 40 && byte.is_ascii_hexdigit()
}

// The least place at which a text isn't 40 hexadecimal digits.
fn find_fault(text: &[u8]) -> Option<u32>
    ensures { result ≡ digits_fault text.now }
{
    for (at, byte) in text.iter().enumerate() {
        if !is_allowed(at, *byte) {
            return Some(at as u32);
        }
    }
    if text.len() < 40 {
        Some(text.len() as u32)
    } else {
        None
    }
}
