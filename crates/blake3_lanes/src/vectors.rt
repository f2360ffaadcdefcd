// Words of four chunks side by side.
ghost use Rattle.std.specs.Prelude.{◌≡◌, ℕ, ◌+◌, ◌*◌, ◌<◌, ◌≤◌, List, [], length, slice_index, slice_index_or, bit_xor};
ghost use Rattle.std.specs.Int.{w32, rotate_right};
ghost use Rattle.tree_hash.specs.TreeHash.{add32, word_at};
ghost use Rattle.blake3_lanes.specs.inside.Lanes.{no_words, one_byte, two_bytes};

use std::simd::prelude::*;

#[inline(always)]
pub(crate) fn add(a: u32x4, b: u32x4) -> u32x4
    ensures { (j : ℕ) → j < 4 → slice_index result j ≡ add32 (slice_index a j) (slice_index b j) }
{
    a + b
}

#[inline(always)]
pub(crate) fn xor(a: u32x4, b: u32x4) -> u32x4
    ensures { (j : ℕ) → j < 4 → slice_index result j ≡ bit_xor (slice_index a j) (slice_index b j) }
{
    a ^ b
}

// Constants that the compiler doesn't know: where the bytes of four words come from if each word is rotated to the
// right by one byte, and by two; and four zeros.
#[derive(Drop)]
pub(crate) struct Hidden {
    one: u8x16,
    two: u8x16,
    none: u32x4,
    ghost by_one: { one ≡ one_byte },
    ghost by_two: { two ≡ two_bytes },
    ghost nothing: { none ≡ no_words },
}

impl Hidden {
    // Never inlined: of a rotation by one byte after one by two the compiler makes three shuffles where it knows the
    // places, and it drops a read whose words meet zeros.
    #[inline(never)]
    pub(crate) fn new() -> Hidden {
        Hidden {
            one: u8x16::from_array([1, 2, 3, 0, 5, 6, 7, 4, 9, 10, 11, 8, 13, 14, 15, 12]),
            two: u8x16::from_array([2, 3, 0, 1, 6, 7, 4, 5, 10, 11, 8, 9, 14, 15, 12, 13]),
            none: u32x4::splat(0),
        }
    }
}

// The words `x`, and so a reason to keep what was read.
#[inline(always)]
pub(crate) fn kept(hidden: &Hidden, x: u32x4, read: u32x4) -> u32x4
    ensures { result ≡ x }
{
    x ^ (read & hidden.none)
}

// Some words of the four lines of 64 bytes from byte `at` on, which are in the cache from then on.
#[inline(always)]
pub(crate) fn read_ahead(input: &[u8], at: usize) -> u32x4
    requires { at + 256 ≤ length input.now }
{
    load(input, at) | load(input, at + 64) | load(input, at + 128) | load(input, at + 192)
}

#[inline(always)]
pub(crate) fn xor_rotate(hidden: &Hidden, a: u32x4, b: u32x4, k: u32) -> u32x4
    requires low { 0 < k }
    requires high { k < 32 }
    ensures { (j : ℕ) → j < 4 → slice_index result j ≡ rotate_right w32 (bit_xor (slice_index a j) (slice_index b j)) k }
{
    if k == 8 {
        return rotate_by_one(hidden, a ^ b);
    }
    if k == 16 {
        return rotate_by_two(hidden, a ^ b);
    }
    let x = a ^ b;
    (x >> u32x4::splat(k)) | (x << u32x4::splat(32 - k))
}

#[inline(always)]
fn rotate_by_one(hidden: &Hidden, x: u32x4) -> u32x4
    ensures { (j : ℕ) → j < 4 → slice_index result j ≡ rotate_right w32 (slice_index x j) 8 }
{
    u32x4::from_le_bytes(x.to_le_bytes().swizzle_dyn(hidden.one))
}

#[inline(always)]
fn rotate_by_two(hidden: &Hidden, x: u32x4) -> u32x4
    ensures { (j : ℕ) → j < 4 → slice_index result j ≡ rotate_right w32 (slice_index x j) 16 }
{
    u32x4::from_le_bytes(x.to_le_bytes().swizzle_dyn(hidden.two))
}

// Sixteen bytes as four words, low byte first.
#[inline(always)]
pub(crate) fn load(input: &[u8], at: usize) -> u32x4
    requires { at + 16 ≤ length input.now }
    ensures { (i : ℕ) → i < 4 → slice_index result i ≡ word_at input.now (at + 4 * i) }
{
    u32x4::from_le_bytes(u8x16::from_slice(&input[at..at + 16]))
}

// Vector i of the result has word i of each vector.
#[inline(always)]
pub(crate) fn transpose(a: u32x4, b: u32x4, c: u32x4, d: u32x4) -> [u32x4; 4]
    ensures first { (i : ℕ) → i < 4 → slice_index (slice_index_or result i []) 0 ≡ slice_index a i }
    ensures second { (i : ℕ) → i < 4 → slice_index (slice_index_or result i []) 1 ≡ slice_index b i }
    ensures third { (i : ℕ) → i < 4 → slice_index (slice_index_or result i []) 2 ≡ slice_index c i }
    ensures fourth { (i : ℕ) → i < 4 → slice_index (slice_index_or result i []) 3 ≡ slice_index d i }
{
    let (ac_low, ac_high) = a.interleave(c);
    let (bd_low, bd_high) = b.interleave(d);
    let (first, second) = ac_low.interleave(bd_low);
    let (third, fourth) = ac_high.interleave(bd_high);
    [first, second, third, fourth]
}

#[inline(always)]
pub(crate) fn splat(x: u32) -> u32x4
    ensures { (j : ℕ) → j < 4 → slice_index result j ≡ x }
{
    u32x4::splat(x)
}
