// The compression of one block (BLAKE3 specification, section 2.2): a row of the state, four words, is a vector, so that
// its four columns are mixed side by side.
ghost use Rattle.std.specs.Prelude.{◌≡◌, ℕ, ◌+◌, ◌<◌, ◌%◌, [], ◌∷◌, length, slice_index};
ghost use Rattle.tree_hash.specs.TreeHash.{block_words, compress, compress_words, folded, iv, mix, permute, round, start_state};
ghost use Rattle.blake3_lanes.specs.inside.Lanes.{lane};
ghost use Rattle.blake3_lanes.specs.inside.Rows.{diagonal, four_rows, message_of, two_rows};

use crate::chunks::{high_word, low_word};
use crate::kernel::half_mix;
use crate::vectors::{Hidden, load, xor};
use std::simd::prelude::*;

// The function G on each column of the rows.
#[inline(always)]
fn mix(hidden: &Hidden, v: &mut [u32x4; 4], x: u32x4, y: u32x4)
    ensures { (j : ℕ) → j < 4 → lane j v.new ≡ mix (lane j v.old) 0 1 2 3 (slice_index x j) (slice_index y j) }
{
    half_mix(hidden, v, 0, 1, 2, 3, x, 16, 12);
    half_mix(hidden, v, 0, 1, 2, 3, y, 8, 7);
}

// The words from place 1 on, and then the first.
#[inline(always)]
fn from_second(x: u32x4) -> u32x4
    ensures { (j : ℕ) → j < 4 → slice_index result j ≡ slice_index x ((j + 1) % 4) }
{
    x.swizzle([1, 2, 3, 0])
}

#[inline(always)]
fn from_third(x: u32x4) -> u32x4
    ensures { (j : ℕ) → j < 4 → slice_index result j ≡ slice_index x ((j + 2) % 4) }
{
    x.swizzle([2, 3, 0, 1])
}

#[inline(always)]
fn from_fourth(x: u32x4) -> u32x4
    ensures { (j : ℕ) → j < 4 → slice_index result j ≡ slice_index x ((j + 3) % 4) }
{
    x.swizzle([3, 0, 1, 2])
}

// The rows turned so that the diagonals become columns. Row 1 stands still: half a round changes it last, and it would
// be waited for.
#[inline(always)]
fn turned(v: &[u32x4; 4]) -> [u32x4; 4]
    ensures { (j : ℕ) → j < 4 → lane j result ≡ diagonal j v.now }
{
    [from_fourth(v[0]), v[1], from_second(v[2]), from_third(v[3])]
}

// The rows turned so that the columns become diagonals again.
#[inline(always)]
fn turned_back(v: &[u32x4; 4]) -> [u32x4; 4]
    ensures { (j : ℕ) → j < 4 → diagonal j result ≡ lane j v.now }
{
    [from_second(v[0]), v[1], from_fourth(v[2]), from_third(v[3])]
}

#[inline(always)]
fn round(hidden: &Hidden, v: &[u32x4; 4], m: &[u32x4; 4]) -> [u32x4; 4]
    ensures { four_rows result ≡ round (four_rows v.now) (message_of m.now) }
{
    let mut columns = *v;
    mix(hidden, &mut columns, m[0], m[1]);
    let mut diagonals = turned(&columns);
    mix(hidden, &mut diagonals, m[2], m[3]);
    turned_back(&diagonals)
}

// The rows of a message in the order in which a round mixes their words in.
#[inline(always)]
pub(crate) fn in_order(a: u32x4, b: u32x4, c: u32x4, d: u32x4) -> [u32x4; 4]
    ensures { message_of result ≡ four_rows (a ∷ b ∷ c ∷ d ∷ []) }
{
    [
        a.shuffle(b, [0, 2, 4, 6]),
        a.shuffle(b, [1, 3, 5, 7]),
        c.shuffle(d, [6, 0, 2, 4]),
        c.shuffle(d, [7, 1, 3, 5]),
    ]
}

// The rows of their message permuted. Of the words before, `tens` has 10 and 13, `ones` has 15, 9, 1 and 12, and `fives` has
// 14, 5, 8 and 11.
#[inline(always)]
fn permute(a: u32x4, b: u32x4, c: u32x4, d: u32x4) -> [u32x4; 4]
    ensures { message_of result ≡ permute (message_of (a ∷ b ∷ c ∷ d ∷ [])) }
{
    let tens = c.shuffle(d, [2, 2, 7, 7]);
    let ones = d.shuffle(b, [0, 1, 4, 5]).shuffle(c, [0, 1, 2, 7]);
    let fives = c.shuffle(b.shuffle(d, [2, 6, 3, 7]), [0, 4, 1, 5]);
    [
        a.shuffle(b, [1, 5, 7, 2]),
        a.shuffle(tens, [3, 5, 0, 7]),
        ones.swizzle([0, 2, 3, 1]),
        fives.swizzle([2, 3, 1, 0]),
    ]
}

// The sixteen words of a block, in the order in which a round mixes them in.
#[inline(always)]
fn message(block: &[u8]) -> [u32x4; 4]
    requires { length block.now ≡ 64 }
    ensures { message_of result ≡ block_words block.now }
{
    in_order(
        load(block, 0),
        load(block, 16),
        load(block, 32),
        load(block, 48),
    )
}

#[inline(always)]
fn start_state(h: &[u32x4; 2], number: u64, len: u32, flags: u32) -> [u32x4; 4]
    ensures { four_rows result ≡ start_state (two_rows h.now) number len flags }
{
    [
        h[0],
        h[1],
        u32x4::from_array([0x6A09E667, 0xBB67AE85, 0x3C6EF372, 0xA54FF53A]),
        u32x4::from_array([low_word(number), high_word(number), len, flags]),
    ]
}

#[inline(always)]
fn folded(v: &[u32x4; 4]) -> [u32x4; 2]
    ensures { two_rows result ≡ folded (four_rows v.now) }
{
    [xor(v[0], v[2]), xor(v[1], v[3])]
}

// The compression of a message, whose words have the order in which a round mixes them in, from the value `h` on.
#[inline(always)]
pub(crate) fn compress_message(
    hidden: &Hidden,
    h: &[u32x4; 2],
    m: &[u32x4; 4],
    number: u64,
    len: u32,
    flags: u32,
) -> [u32x4; 2]
    ensures { two_rows result ≡ compress_words (two_rows h.now) (message_of m.now) number len flags }
{
    let v = start_state(h, number, len, flags);
    let v = round(hidden, &v, m);
    let m = permute(m[0], m[1], m[2], m[3]);
    let v = round(hidden, &v, &m);
    let m = permute(m[0], m[1], m[2], m[3]);
    let v = round(hidden, &v, &m);
    let m = permute(m[0], m[1], m[2], m[3]);
    let v = round(hidden, &v, &m);
    let m = permute(m[0], m[1], m[2], m[3]);
    let v = round(hidden, &v, &m);
    let m = permute(m[0], m[1], m[2], m[3]);
    let v = round(hidden, &v, &m);
    let m = permute(m[0], m[1], m[2], m[3]);
    let v = round(hidden, &v, &m);
    folded(&v)
}

// The compression of a block from the value `h` on.
#[inline(always)]
pub(crate) fn compress(
    hidden: &Hidden,
    h: &[u32x4; 2],
    block: &[u8],
    number: u64,
    len: u32,
    flags: u32,
) -> [u32x4; 2]
    requires { length block.now ≡ 64 }
    ensures { two_rows result ≡ compress (two_rows h.now) block.now number len flags }
{
    compress_message(hidden, h, &message(block), number, len, flags)
}

// The words IV.
#[inline(always)]
pub(crate) fn start_value() -> [u32x4; 2]
    ensures { two_rows result ≡ iv }
{
    [
        u32x4::from_array([0x6A09E667, 0xBB67AE85, 0x3C6EF372, 0xA54FF53A]),
        u32x4::from_array([0x510E527F, 0x9B05688C, 0x1F83D9AB, 0x5BE0CD19]),
    ]
}

// The words of a value.
#[inline(always)]
pub(crate) fn words(h: &[u32x4; 2]) -> [u32; 8]
    ensures { result ≡ two_rows h.now }
{
    let a = h[0].to_array();
    let b = h[1].to_array();
    [a[0], a[1], a[2], a[3], b[0], b[1], b[2], b[3]]
}
