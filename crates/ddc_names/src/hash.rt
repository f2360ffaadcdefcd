//! The hash that names a blob.

ghost use Rattle.std.specs.Prelude.{◌≡◌, ◌↔◌, length, IsSome, IfSome};
ghost use Rattle.std.specs.List.{AllPass};
ghost use Rattle.hex.specs.Hex.{is_hex_digit};
ghost use Rattle.ddc_names.specs.Texts.{bytes_of};
ghost use Rattle.ddc_names.specs.Names.{hash_of, hash_text};

use hex::FromHex;

/// The first 20 bytes of a BLAKE3 hash, which name a blob. Hashes are ordered by their bytes.
#[derive(Clone, Copy, Debug, PartialEq, Eq, PartialOrd, Ord)]
pub struct IoHash(pub [u8; 20]);

impl IoHash {
    /// The hash that 40 hexadecimal digits of either case spell, and `None` of any other text.
    pub fn parse(text: &str) -> Option<IoHash>
        ensures read { result ≡ hash_of text.now }
        ensures found { IsSome result ↔ ((length text.now ≡ 40) × AllPass is_hex_digit text.now) }
        ensures hash { IfSome result (λ hash. hash.0 ≡ bytes_of text.now) }
    {
        match <[u8; 20] as FromHex>::from_hex(text) {
            Ok(bytes) => Some(IoHash(bytes)),
            Err(_) => None,
        }
    }

    /// The 40 hexadecimal digits of the hash, in lower case.
    pub fn text(&self) -> [u8; 40]
        ensures { result ≡ hash_text self.now }
    {
        let mut text = [0; 40];
        let _ = hex::encode_to_slice(&self.0, &mut text);
        text
    }
}
