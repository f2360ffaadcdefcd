// Bytes with their hash.
ghost use Rattle.std.specs.Prelude.{◌≡◌, ℕ, List, take};
ghost use Rattle.tree_hash.specs.TreeHash.{io};
ghost use Rattle.blake3_lanes.specs.WideFed.{IsWideFed};

use blake3_lanes::{WideHasher, hash};
use ddc_names::IoHash;
use std::marker::Model;

// The hash of what was fed, cut to its first 20 bytes.
pub(crate) fn cut_hash(hasher: &WideHasher) -> IoHash
    ensures { (m : List ℕ) → IsWideFed hasher.now m → result.0 ≡ io m }
{
    cut(&hasher.finish())
}

// The first 20 bytes of a hash.
fn cut(hash: &[u8; 32]) -> IoHash
    ensures { result.0 ≡ take 20 hash.now }
{
    let mut front = [0; 20];
    front.copy_from_slice(&hash[..20]);
    IoHash(front)
}

/// The hash that names a blob of these bytes.
pub fn io_hash_of(bytes: &[u8]) -> IoHash
    ensures { result.0 ≡ io bytes.now }
{
    cut(&hash(bytes))
}

/// Bytes and the hash that names them. A clause sees the bytes; that the hash is theirs is kept by the type.
#[derive(Drop)]
pub struct Whole {
    bytes: Vec<u8>,
    hash: IoHash,
}

impl Model for Whole {
    ghost use Rattle.std.specs.Prelude.{◌≡◌, ℕ, List};
    ghost use Rattle.tree_hash.specs.TreeHash.{io};

    ghost Value = { List ℕ };

    ghost view = { λ w. w.bytes.items };

    ghost invariant = { λ w. w.hash.0 ≡ io w.bytes.items };
}

impl Whole {
    // The bytes that were fed to the hasher.
    pub(crate) fn of_fed(bytes: Vec<u8>, hasher: &WideHasher) -> Whole
        requires { IsWideFed hasher.now bytes.items }
        ensures { result ≡ bytes.items }
    {
        let hash = cut_hash(hasher);
        Whole { bytes, hash }
    }

    /// The bytes.
    pub fn bytes(&self) -> &[u8]
        ensures { result.now ≡ self.now }
    {
        &self.bytes
    }

    /// The hash that names the bytes.
    pub fn hash(&self) -> IoHash
        ensures { result.0 ≡ io self.now }
    {
        self.hash
    }
}
