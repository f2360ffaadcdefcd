// The values of chunks side by side.
ghost use Rattle.std.specs.Prelude.{◌≡◌, ℕ, ◌+◌, ◌-◌, ◌*◌, ◌/◌, ◌%◌, ◌^◌, ◌<◌, ◌≤◌, List, [], length, take, drop, slice_index, slice_index_or};
ghost use Rattle.tree_hash.specs.TreeHash.{block_words, chunk_value, start_flag, word_at};
ghost use Rattle.blake3_hash.specs.Spine.{leaves};
ghost use Rattle.blake3_lanes.specs.inside.Lanes.{lane};

use crate::eight::chunks::in_eights;
use crate::kernel::{compress, rows, start_values};
use crate::vectors::{Hidden, kept, load, read_ahead, transpose};
use crate::width::WIDTH;
use std::simd::prelude::*;

#[inline(always)]
pub(crate) fn low_word(x: u64) -> u32
    ensures { result ≡ x % 2 ^ 32 }
{
    (x % 0x1_0000_0000) as u32
}

#[inline(always)]
pub(crate) fn high_word(x: u64) -> u32
    ensures { result ≡ x / 2 ^ 32 }
{
    (x / 0x1_0000_0000) as u32
}

#[inline(always)]
fn low_words(first: u64) -> u32x4
    requires { first ≤ 2 ^ 54 - 4 }
    ensures { (j : ℕ) → j < 4 → slice_index result j ≡ (first + j) % 2 ^ 32 }
{
    u32x4::from_array([
        low_word(first),
        low_word(first + 1),
        low_word(first + 2),
        low_word(first + 3),
    ])
}

#[inline(always)]
fn high_words(first: u64) -> u32x4
    requires { first ≤ 2 ^ 54 - 4 }
    ensures { (j : ℕ) → j < 4 → slice_index result j ≡ (first + j) / 2 ^ 32 }
{
    u32x4::from_array([
        high_word(first),
        high_word(first + 1),
        high_word(first + 2),
        high_word(first + 3),
    ])
}

// The four words from byte `at` on of each of four chunks.
#[inline(always)]
fn quarter(input: &[u8], at: usize) -> [u32x4; 4]
    requires len { length input.now ≡ 4096 }
    requires at { at + 16 ≤ 1024 }
    ensures { (j : ℕ) → j < 4 → (i : ℕ) → i < 4
        → slice_index (slice_index_or result i []) j ≡ word_at input.now (1024 * j + (at + 4 * i)) }
{
    transpose(
        load(input, at),
        load(input, at + 1024),
        load(input, at + 2048),
        load(input, at + 3072),
    )
}

// The block from byte `at` on of each of four chunks.
#[inline(always)]
fn columns(input: &[u8], at: usize) -> [u32x4; 16]
    requires len { length input.now ≡ 4096 }
    requires at { at + 64 ≤ 1024 }
    ensures { (j : ℕ) → j < 4 → lane j result ≡ block_words (take 64 (drop (1024 * j + at) input.now)) }
{
    let a = quarter(input, at);
    let b = quarter(input, at + 16);
    let c = quarter(input, at + 32);
    let d = quarter(input, at + 48);
    [
        a[0], a[1], a[2], a[3], b[0], b[1], b[2], b[3], c[0], c[1], c[2], c[3], d[0], d[1], d[2],
        d[3],
    ]
}

// CHUNK_START for the first block of a chunk.
#[inline(always)]
pub(crate) fn start_flag(k: usize) -> u32
    ensures value { result ≡ start_flag k }
    ensures small { result ≤ 1 }
{
    if k == 0 { 1 } else { 0 }
}

// The values of four chunks; the four chunks in `next` are read meanwhile, so that they are in the cache when their
// turn comes.
pub(crate) fn chunks4(hidden: &Hidden, input: &[u8], first: u64, next: &[u8]) -> [[u32; 8]; 4]
    requires len { length input.now ≡ 4096 }
    requires first { first ≤ 2 ^ 54 - 4 }
    requires next { length next.now ≡ 4096 }
    ensures { (j : ℕ) → j < 4 → slice_index_or result j [] ≡ chunk_value (take 1024 (drop (1024 * j) input.now)) (first + j) 0 }
{
    let low = low_words(first);
    let high = high_words(first);
    let mut h = start_values();
    let mut read = low;
    'each_block: for k in 0..15 {
        read |= read_ahead(next, 256 * k);
        h = compress(
            hidden,
            &h,
            &columns(input, 64 * k),
            low,
            high,
            64,
            start_flag(k),
        );
    }
    let low = kept(hidden, low, read);
    rows(&compress(hidden, &h, &columns(input, 960), low, high, 64, 2))
}

/// The values of the eight chunks of the input, none of which is the root; `first` is the number of the first one.
pub fn chunks8(input: &[u8], first: u64) -> [[u32; 8]; 8]
    requires len { length input.now ≡ 8192 }
    requires first { first ≤ 2 ^ 54 - 8 }
    ensures { result ≡ leaves 8 input.now first }
{
    chunks8_before(&Hidden::new(), input, first, input)
}

// The same, with the eight chunks that are read next.
pub(crate) fn chunks8_before(
    hidden: &Hidden,
    input: &[u8],
    first: u64,
    next: &[u8],
) -> [[u32; 8]; 8]
    requires len { length input.now ≡ 8192 }
    requires first { first ≤ 2 ^ 54 - 8 }
    requires next { length next.now ≡ 8192 }
    ensures { result ≡ leaves 8 input.now first }
{
    if WIDTH == 8 {
        in_eights(input, first, next)
    } else {
        in_fours(hidden, input, first, &next[..4096])
    }
}

// The same by vectors of four words, with the four chunks that are read next.
fn in_fours(hidden: &Hidden, input: &[u8], first: u64, next: &[u8]) -> [[u32; 8]; 8]
    requires len { length input.now ≡ 8192 }
    requires first { first ≤ 2 ^ 54 - 8 }
    requires next { length next.now ≡ 4096 }
    ensures { result ≡ leaves 8 input.now first }
{
    let front = chunks4(hidden, &input[..4096], first, &input[4096..]);
    let back = chunks4(hidden, &input[4096..], first + 4, next);
    [
        front[0], front[1], front[2], front[3], back[0], back[1], back[2], back[3],
    ]
}
