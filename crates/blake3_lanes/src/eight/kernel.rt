// The compression of eight blocks side by side (BLAKE3 specification, section 2.2).
ghost use Rattle.std.specs.Prelude.{◌≡◌, ℕ, ◌+◌, ◌*◌, ◌/◌, ◌%◌, ◌^◌, ◌<◌, List, [], slice_index, slice_index_or};
ghost use Rattle.tree_hash.specs.TreeHash.{compress_words, folded, half_mix, iv, permute, round, start_state};
ghost use Rattle.blake3_lanes.specs.inside.Lanes.{lane, mix_columns, mix_diagonals};

use super::vectors::{add, splat, xor, xor_rotate};
use std::simd::prelude::*;

#[inline(always)]
fn half_mix(v: &mut [u32x8; 16], a: usize, b: usize, c: usize, d: usize, x: u32x8, r: u32, s: u32)
    requires a_in { a < 16 }
    requires b_in { b < 16 }
    requires c_in { c < 16 }
    requires d_in { d < 16 }
    requires r_low { 0 < r }
    requires r_high { r < 32 }
    requires s_low { 0 < s }
    requires s_high { s < 32 }
    ensures { (j : ℕ) → j < 8 → lane j v.new ≡ half_mix (lane j v.old) a b c d (slice_index x j) r s }
{
    v[a] = add(add(v[a], v[b]), x);
    v[d] = xor_rotate(v[d], v[a], r);
    v[c] = add(v[c], v[d]);
    v[b] = xor_rotate(v[b], v[c], s);
}

// The function G on each column of the state: a half of it on all four before the other half, so that none waits for
// another.
#[inline(always)]
fn mix_columns(v: &mut [u32x8; 16], m: &[u32x8; 16])
    ensures { (j : ℕ) → j < 8 → lane j v.new ≡ mix_columns (lane j v.old) (lane j m.now) }
{
    half_mix(v, 0, 4, 8, 12, m[0], 16, 12);
    half_mix(v, 1, 5, 9, 13, m[2], 16, 12);
    half_mix(v, 2, 6, 10, 14, m[4], 16, 12);
    half_mix(v, 3, 7, 11, 15, m[6], 16, 12);
    half_mix(v, 0, 4, 8, 12, m[1], 8, 7);
    half_mix(v, 1, 5, 9, 13, m[3], 8, 7);
    half_mix(v, 2, 6, 10, 14, m[5], 8, 7);
    half_mix(v, 3, 7, 11, 15, m[7], 8, 7);
}

// The function G on each diagonal of the state, in the same way.
#[inline(always)]
fn mix_diagonals(v: &mut [u32x8; 16], m: &[u32x8; 16])
    ensures { (j : ℕ) → j < 8 → lane j v.new ≡ mix_diagonals (lane j v.old) (lane j m.now) }
{
    half_mix(v, 0, 5, 10, 15, m[8], 16, 12);
    half_mix(v, 1, 6, 11, 12, m[10], 16, 12);
    half_mix(v, 2, 7, 8, 13, m[12], 16, 12);
    half_mix(v, 3, 4, 9, 14, m[14], 16, 12);
    half_mix(v, 0, 5, 10, 15, m[9], 8, 7);
    half_mix(v, 1, 6, 11, 12, m[11], 8, 7);
    half_mix(v, 2, 7, 8, 13, m[13], 8, 7);
    half_mix(v, 3, 4, 9, 14, m[15], 8, 7);
}

#[inline(always)]
fn round(v: &mut [u32x8; 16], m: &[u32x8; 16])
    ensures { (j : ℕ) → j < 8 → lane j v.new ≡ round (lane j v.old) (lane j m.now) }
{
    mix_columns(v, m);
    mix_diagonals(v, m);
}

#[inline(always)]
fn permute(m: &[u32x8; 16]) -> [u32x8; 16]
    ensures { (j : ℕ) → j < 8 → lane j result ≡ permute (lane j m.now) }
{
    [
        m[2], m[6], m[3], m[10], m[7], m[0], m[4], m[13], m[1], m[11], m[12], m[5], m[9], m[14],
        m[15], m[8],
    ]
}

#[inline(always)]
fn start_state(h: &[u32x8; 8], low: u32x8, high: u32x8, len: u32, flags: u32) -> [u32x8; 16]
    ensures { (j n : ℕ) → j < 8 → slice_index low j ≡ n % 2 ^ 32 → slice_index high j ≡ n / 2 ^ 32 → lane j result ≡ start_state (lane j h.now) n len flags }
{
    [
        h[0],
        h[1],
        h[2],
        h[3],
        h[4],
        h[5],
        h[6],
        h[7],
        splat(0x6A09E667),
        splat(0xBB67AE85),
        splat(0x3C6EF372),
        splat(0xA54FF53A),
        low,
        high,
        splat(len),
        splat(flags),
    ]
}

#[inline(always)]
fn folded(v: &[u32x8; 16]) -> [u32x8; 8]
    ensures { (j : ℕ) → j < 8 → lane j result ≡ folded (lane j v.now) }
{
    [
        xor(v[0], v[8]),
        xor(v[1], v[9]),
        xor(v[2], v[10]),
        xor(v[3], v[11]),
        xor(v[4], v[12]),
        xor(v[5], v[13]),
        xor(v[6], v[14]),
        xor(v[7], v[15]),
    ]
}

// The compression of the message `m` from the values `h` on, in each lane with its own counter, given as its low and
// its high word.
#[inline(always)]
pub(crate) fn compress(
    h: &[u32x8; 8],
    m: &[u32x8; 16],
    low: u32x8,
    high: u32x8,
    len: u32,
    flags: u32,
) -> [u32x8; 8]
    ensures { (j n : ℕ) → j < 8 → slice_index low j ≡ n % 2 ^ 32 → slice_index high j ≡ n / 2 ^ 32
        → lane j result ≡ compress_words (lane j h.now) (lane j m.now) n len flags }
{
    let mut v = start_state(h, low, high, len, flags);
    round(&mut v, m);
    let m = permute(m);
    round(&mut v, &m);
    let m = permute(&m);
    round(&mut v, &m);
    let m = permute(&m);
    round(&mut v, &m);
    let m = permute(&m);
    round(&mut v, &m);
    let m = permute(&m);
    round(&mut v, &m);
    let m = permute(&m);
    round(&mut v, &m);
    folded(&v)
}

// The words IV in each lane.
#[inline(always)]
pub(crate) fn start_values() -> [u32x8; 8]
    ensures { (j : ℕ) → j < 8 → lane j result ≡ iv }
{
    [
        splat(0x6A09E667),
        splat(0xBB67AE85),
        splat(0x3C6EF372),
        splat(0xA54FF53A),
        splat(0x510E527F),
        splat(0x9B05688C),
        splat(0x1F83D9AB),
        splat(0x5BE0CD19),
    ]
}

// The words of lane j.
#[inline(always)]
fn row(h: &[u32x8; 8], j: usize) -> [u32; 8]
    requires { j < 8 }
    ensures { result ≡ lane j h.now }
{
    let a = h[0].to_array();
    let b = h[1].to_array();
    let c = h[2].to_array();
    let d = h[3].to_array();
    let e = h[4].to_array();
    let f = h[5].to_array();
    let g = h[6].to_array();
    let i = h[7].to_array();
    [a[j], b[j], c[j], d[j], e[j], f[j], g[j], i[j]]
}

// The words of each lane.
#[inline(always)]
pub(crate) fn rows(h: &[u32x8; 8]) -> [[u32; 8]; 8]
    ensures { (j : ℕ) → j < 8 → slice_index_or result j [] ≡ lane j h.now }
{
    [
        row(h, 0),
        row(h, 1),
        row(h, 2),
        row(h, 3),
        row(h, 4),
        row(h, 5),
        row(h, 6),
        row(h, 7),
    ]
}
