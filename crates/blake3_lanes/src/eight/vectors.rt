// Words of eight chunks side by side.
ghost use Rattle.std.specs.Prelude.{◌≡◌, ℕ, ◌+◌, ◌*◌, ◌<◌, ◌≤◌, List, [], ◌∷◌, length, slice_index, slice_index_or, bit_xor};
ghost use Rattle.std.specs.Int.{w32, rotate_right};
ghost use Rattle.tree_hash.specs.TreeHash.{add32, word_at};
ghost use Rattle.blake3_lanes.specs.inside.Lanes.{no_words8};

use std::simd::prelude::*;

#[inline(always)]
pub(crate) fn add(a: u32x8, b: u32x8) -> u32x8
    ensures { (j : ℕ) → j < 8 → slice_index result j ≡ add32 (slice_index a j) (slice_index b j) }
{
    a + b
}

#[inline(always)]
pub(crate) fn xor(a: u32x8, b: u32x8) -> u32x8
    ensures { (j : ℕ) → j < 8 → slice_index result j ≡ bit_xor (slice_index a j) (slice_index b j) }
{
    a ^ b
}

// Zeros that the compiler doesn't know.
#[derive(Drop)]
pub(crate) struct Zeros {
    none: u32x8,
    ghost nothing: { none ≡ no_words8 },
}

impl Zeros {
    // Never inlined: the compiler would drop a read whose words meet zeros.
    #[inline(never)]
    pub(crate) fn new() -> Zeros {
        Zeros {
            none: u32x8::splat(0),
        }
    }
}

// The words `x`, and so a reason to keep what was read.
#[inline(always)]
pub(crate) fn kept(zeros: &Zeros, x: u32x8, read: u32x8) -> u32x8
    ensures { result ≡ x }
{
    x ^ (read & zeros.none)
}

// Some words of the eight lines of 64 bytes from byte `at` on, which are in the cache from then on.
#[inline(always)]
pub(crate) fn read_ahead(input: &[u8], at: usize) -> u32x8
    requires { at + 512 ≤ length input.now }
{
    let front = load(input, at)
        | load(input, at + 64)
        | load(input, at + 128)
        | load(input, at + 192);
    let back = load(input, at + 256)
        | load(input, at + 320)
        | load(input, at + 384)
        | load(input, at + 448);
    front | back
}

// The compiler makes a shuffle of bytes of a rotation by 8 or 16.
#[inline(always)]
pub(crate) fn xor_rotate(a: u32x8, b: u32x8, k: u32) -> u32x8
    requires low { 0 < k }
    requires high { k < 32 }
    ensures { (j : ℕ) → j < 8 → slice_index result j ≡ rotate_right w32 (bit_xor (slice_index a j) (slice_index b j)) k }
{
    let x = a ^ b;
    (x >> u32x8::splat(k)) | (x << u32x8::splat(32 - k))
}

// Thirty-two bytes as eight words, low byte first.
#[inline(always)]
pub(crate) fn load(input: &[u8], at: usize) -> u32x8
    requires { at + 32 ≤ length input.now }
    ensures { (i : ℕ) → i < 8 → slice_index result i ≡ word_at input.now (at + 4 * i) }
{
    u32x8::from_le_bytes(u8x32::from_slice(&input[at..at + 32]))
}

// Vector i of the result has word i of each vector.
#[inline(always)]
pub(crate) fn transpose(
    a: u32x8,
    b: u32x8,
    c: u32x8,
    d: u32x8,
    e: u32x8,
    f: u32x8,
    g: u32x8,
    h: u32x8,
) -> [u32x8; 8]
    ensures { (j : ℕ) → j < 8 → (i : ℕ) → i < 8
        → slice_index (slice_index_or result i []) j ≡ slice_index (slice_index_or (a ∷ b ∷ c ∷ d ∷ e ∷ f ∷ g ∷ h ∷ []) j []) i }
{
    let (ae_low, ae_high) = a.interleave(e);
    let (bf_low, bf_high) = b.interleave(f);
    let (cg_low, cg_high) = c.interleave(g);
    let (dh_low, dh_high) = d.interleave(h);
    let (aceg_0, aceg_2) = ae_low.interleave(cg_low);
    let (aceg_4, aceg_6) = ae_high.interleave(cg_high);
    let (bdfh_0, bdfh_2) = bf_low.interleave(dh_low);
    let (bdfh_4, bdfh_6) = bf_high.interleave(dh_high);
    let (word_0, word_1) = aceg_0.interleave(bdfh_0);
    let (word_2, word_3) = aceg_2.interleave(bdfh_2);
    let (word_4, word_5) = aceg_4.interleave(bdfh_4);
    let (word_6, word_7) = aceg_6.interleave(bdfh_6);
    [
        word_0, word_1, word_2, word_3, word_4, word_5, word_6, word_7,
    ]
}

#[inline(always)]
pub(crate) fn splat(x: u32) -> u32x8
    ensures { (j : ℕ) → j < 8 → slice_index result j ≡ x }
{
    u32x8::splat(x)
}
