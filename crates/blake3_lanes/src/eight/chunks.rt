// The values of eight chunks side by side, each word of a state in one vector.
ghost use Rattle.std.specs.Prelude.{◌≡◌, ℕ, ◌+◌, ◌-◌, ◌*◌, ◌/◌, ◌%◌, ◌^◌, ◌<◌, ◌≤◌, List, [], length, take, drop, slice_index, slice_index_or};
ghost use Rattle.tree_hash.specs.TreeHash.{block_words, chunk_value, word_at};
ghost use Rattle.blake3_hash.specs.Spine.{leaves};
ghost use Rattle.blake3_lanes.specs.inside.Lanes.{lane};

use super::kernel::{compress, rows, start_values};
use super::vectors::{Zeros, kept, load, read_ahead, transpose};
use crate::chunks::{high_word, low_word, start_flag};
use std::simd::prelude::*;

#[inline(always)]
fn low_words(first: u64) -> u32x8
    requires { first ≤ 2 ^ 54 - 8 }
    ensures { (j : ℕ) → j < 8 → slice_index result j ≡ (first + j) % 2 ^ 32 }
{
    u32x8::from_array([
        low_word(first),
        low_word(first + 1),
        low_word(first + 2),
        low_word(first + 3),
        low_word(first + 4),
        low_word(first + 5),
        low_word(first + 6),
        low_word(first + 7),
    ])
}

#[inline(always)]
fn high_words(first: u64) -> u32x8
    requires { first ≤ 2 ^ 54 - 8 }
    ensures { (j : ℕ) → j < 8 → slice_index result j ≡ (first + j) / 2 ^ 32 }
{
    u32x8::from_array([
        high_word(first),
        high_word(first + 1),
        high_word(first + 2),
        high_word(first + 3),
        high_word(first + 4),
        high_word(first + 5),
        high_word(first + 6),
        high_word(first + 7),
    ])
}

// The eight words from byte `at` on of each of eight chunks.
#[inline(always)]
fn half(input: &[u8], at: usize) -> [u32x8; 8]
    requires len { length input.now ≡ 8192 }
    requires at { at + 32 ≤ 1024 }
    ensures { (j : ℕ) → j < 8 → (i : ℕ) → i < 8
        → slice_index (slice_index_or result i []) j ≡ word_at input.now (1024 * j + (at + 4 * i)) }
{
    transpose(
        load(input, at),
        load(input, at + 1024),
        load(input, at + 2048),
        load(input, at + 3072),
        load(input, at + 4096),
        load(input, at + 5120),
        load(input, at + 6144),
        load(input, at + 7168),
    )
}

// The block from byte `at` on of each of eight chunks.
#[inline(always)]
fn columns(input: &[u8], at: usize) -> [u32x8; 16]
    requires len { length input.now ≡ 8192 }
    requires at { at + 64 ≤ 1024 }
    ensures { (j : ℕ) → j < 8 → lane j result ≡ block_words (take 64 (drop (1024 * j + at) input.now)) }
{
    let a = half(input, at);
    let b = half(input, at + 32);
    [
        a[0], a[1], a[2], a[3], a[4], a[5], a[6], a[7], b[0], b[1], b[2], b[3], b[4], b[5], b[6],
        b[7],
    ]
}

// The values of eight chunks; the eight chunks in `next` are read meanwhile, so that they are in the cache when their
// turn comes.
fn lanes8(input: &[u8], first: u64, next: &[u8]) -> [[u32; 8]; 8]
    requires len { length input.now ≡ 8192 }
    requires first { first ≤ 2 ^ 54 - 8 }
    requires next { length next.now ≡ 8192 }
    ensures { (j : ℕ) → j < 8 → slice_index_or result j [] ≡ chunk_value (take 1024 (drop (1024 * j) input.now)) (first + j) 0 }
{
    let zeros = Zeros::new();
    let low = low_words(first);
    let high = high_words(first);
    let mut h = start_values();
    let mut read = low;
    'each_block: for k in 0..15 {
        read |= read_ahead(next, 512 * k);
        h = compress(&h, &columns(input, 64 * k), low, high, 64, start_flag(k));
    }
    let low = kept(&zeros, low, read);
    rows(&compress(&h, &columns(input, 960), low, high, 64, 2))
}

// The values of the eight chunks of the input, with the eight chunks that are read next.
pub(crate) fn in_eights(input: &[u8], first: u64, next: &[u8]) -> [[u32; 8]; 8]
    requires len { length input.now ≡ 8192 }
    requires first { first ≤ 2 ^ 54 - 8 }
    requires next { length next.now ≡ 8192 }
    ensures { result ≡ leaves 8 input.now first }
{
    lanes8(input, first, next)
}
