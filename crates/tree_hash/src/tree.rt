// The tree over the chunks of a list of bytes.
ghost use Rattle.std.specs.Prelude.{◌≡◌, ℕ, ◌+◌, ◌*◌, ◌/◌, ◌^◌, ◌<◌, ◌≤◌, length};
ghost use Rattle.tree_hash.specs.TreeHash.{blake3, value, words_bytes};

use crate::block::{flagged_chunk, flagged_parent};

// The height of the left part of more bytes than a chunk: it holds 2 ^ height chunks, the greatest power
// of two that leaves at least one byte for the right.
fn left_height(len: usize) -> u32
    requires long { 1024 < len }
    requires fits { len < 2 ^ 63 }
    ensures leaves { 1024 * 2 ^ result < len }
    ensures greatest { len ≤ 1024 * 2 ^ (result + 1) }
    ensures small { result < 53 }
{
    let mut height = 0;
    let mut left = 1024;
    'doubling: while 2 * left < len {
        left *= 2;
        height += 1;
    }
    height
}

// The value of bytes whose first chunk has the number `number`; `flag` is ROOT, 8, or 0.
fn value(bytes: &[u8], number: u64, flag: u32) -> [u32; 8]
    requires flag { flag ≤ 8 }
    requires number { 1024 * number + length bytes.now < 2 ^ 63 }
    ensures { result ≡ value bytes.now number flag }
{
    if bytes.len() <= 1024 {
        return flagged_chunk(bytes, number, flag);
    }
    let chunks = 1usize << left_height(bytes.len());
    let left = value(&bytes[..1024 * chunks], number, 0);
    let right = value(&bytes[1024 * chunks..], number + chunks as u64, 0);
    flagged_parent(&left, &right, flag)
}

/// The 32 bytes of a value, its words low byte first (BLAKE3 specification, section 2.6).
pub fn bytes_of(words: &[u32; 8]) -> [u8; 32]
    ensures { result ≡ words_bytes words.now }
{
    let mut out = [0u8; 32];
    'words: for i in 0..8 {
        out[4 * i..4 * i + 4].copy_from_slice(&words[i].to_le_bytes());
    }
    out
}

/// The BLAKE3 hash of the bytes (hash mode, 32 bytes), computed by the recursion of the definition, without
/// care for speed.
#[tactic(auto, unfolding(crate::specs::TreeHash::blake3))]
pub fn plain_hash(bytes: &[u8]) -> [u8; 32]
    ensures { result ≡ blake3 bytes.now }
{
    bytes_of(&value(bytes, 0, 8))
}
