// The values of eight parents side by side, each word of a state in one vector.
ghost use Rattle.std.specs.Prelude.{◌≡◌, ℕ, ◌<◌, ◌++◌, List, [], slice_index_or};
ghost use Rattle.tree_hash.specs.TreeHash.{eight, parent_value};
ghost use Rattle.blake3_lanes.specs.inside.Lanes.{lane};

use super::kernel::{compress, rows, start_values};
use super::vectors::{splat, transpose};
use std::simd::prelude::*;

// Vector i has word i of each value.
#[inline(always)]
fn columns(values: &[[u32; 8]; 8]) -> [u32x8; 8]
    ensures { (j : ℕ) → j < 8 → lane j result ≡ eight (slice_index_or values.now j []) }
{
    transpose(
        u32x8::from_array(values[0]),
        u32x8::from_array(values[1]),
        u32x8::from_array(values[2]),
        u32x8::from_array(values[3]),
        u32x8::from_array(values[4]),
        u32x8::from_array(values[5]),
        u32x8::from_array(values[6]),
        u32x8::from_array(values[7]),
    )
}

// The messages of eight parents.
#[inline(always)]
fn messages(left: &[[u32; 8]; 8], right: &[[u32; 8]; 8]) -> [u32x8; 16]
    ensures { (j : ℕ) → j < 8 → lane j result ≡ eight (slice_index_or left.now j []) ++ eight (slice_index_or right.now j []) }
{
    let a = columns(left);
    let b = columns(right);
    [
        a[0], a[1], a[2], a[3], a[4], a[5], a[6], a[7], b[0], b[1], b[2], b[3], b[4], b[5], b[6],
        b[7],
    ]
}

pub(crate) fn parents8(left: &[[u32; 8]; 8], right: &[[u32; 8]; 8]) -> [[u32; 8]; 8]
    ensures { (k : ℕ) → k < 8 → slice_index_or result k [] ≡ parent_value (slice_index_or left.now k []) (slice_index_or right.now k []) 0 }
{
    let m = messages(left, right);
    rows(&compress(&start_values(), &m, splat(0), splat(0), 64, 4))
}
