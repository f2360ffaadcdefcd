// The values of parents side by side.
ghost use Rattle.std.specs.Prelude.{◌≡◌, ℕ, ◌+◌, ◌<◌, ◌≤◌, ◌++◌, List, [], slice_index, slice_index_or};
ghost use Rattle.tree_hash.specs.TreeHash.{eight, parent_value};
ghost use Rattle.blake3_hash.specs.Spine.{joined};
ghost use Rattle.blake3_lanes.specs.inside.Lanes.{lane};

use crate::eight::parents::parents8 as in_eights;
use crate::kernel::{compress, rows, start_values};
use crate::vectors::{Hidden, splat};
use crate::width::WIDTH;
use blake3_hash::Parents;
use std::simd::prelude::*;

// Word i of each of four values.
#[inline(always)]
fn words_at(values: &[[u32; 8]; 4], i: usize) -> u32x4
    requires { i < 8 }
    ensures { (j : ℕ) → j < 4 → slice_index result j ≡ slice_index (slice_index_or values.now j []) i }
{
    u32x4::from_array([values[0][i], values[1][i], values[2][i], values[3][i]])
}

// The messages of four parents.
#[inline(always)]
fn messages(left: &[[u32; 8]; 4], right: &[[u32; 8]; 4]) -> [u32x4; 16]
    ensures { (j : ℕ) → j < 4 → lane j result ≡ eight (slice_index_or left.now j []) ++ eight (slice_index_or right.now j []) }
{
    [
        words_at(left, 0),
        words_at(left, 1),
        words_at(left, 2),
        words_at(left, 3),
        words_at(left, 4),
        words_at(left, 5),
        words_at(left, 6),
        words_at(left, 7),
        words_at(right, 0),
        words_at(right, 1),
        words_at(right, 2),
        words_at(right, 3),
        words_at(right, 4),
        words_at(right, 5),
        words_at(right, 6),
        words_at(right, 7),
    ]
}

fn parents4(hidden: &Hidden, left: &[[u32; 8]; 4], right: &[[u32; 8]; 4]) -> [[u32; 8]; 4]
    ensures { (j : ℕ) → j < 4 → slice_index_or result j [] ≡ parent_value (slice_index_or left.now j []) (slice_index_or right.now j []) 0 }
{
    rows(&compress(
        hidden,
        &start_values(),
        &messages(left, right),
        splat(0),
        splat(0),
        64,
        4,
    ))
}

/// The values of eight parents, none of which is the root: that of `left[k]` and `right[k]` at each place k.
pub fn parents8(left: &[[u32; 8]; 8], right: &[[u32; 8]; 8]) -> [[u32; 8]; 8]
    ensures { (k : ℕ) → k < 8 → slice_index_or result k [] ≡ parent_value (slice_index_or left.now k []) (slice_index_or right.now k []) 0 }
{
    parents8_with(&Hidden::new(), left, right)
}

fn parents8_with(hidden: &Hidden, left: &[[u32; 8]; 8], right: &[[u32; 8]; 8]) -> [[u32; 8]; 8]
    ensures { (k : ℕ) → k < 8 → slice_index_or result k [] ≡ parent_value (slice_index_or left.now k []) (slice_index_or right.now k []) 0 }
{
    if WIDTH == 8 {
        in_eights(left, right)
    } else {
        in_fours(hidden, left, right)
    }
}

fn in_fours(hidden: &Hidden, left: &[[u32; 8]; 8], right: &[[u32; 8]; 8]) -> [[u32; 8]; 8]
    ensures { (k : ℕ) → k < 8 → slice_index_or result k [] ≡ parent_value (slice_index_or left.now k []) (slice_index_or right.now k []) 0 }
{
    let front = parents4(
        hidden,
        &[left[0], left[1], left[2], left[3]],
        &[right[0], right[1], right[2], right[3]],
    );
    let back = parents4(
        hidden,
        &[left[4], left[5], left[6], left[7]],
        &[right[4], right[5], right[6], right[7]],
    );
    [
        front[0], front[1], front[2], front[3], back[0], back[1], back[2], back[3],
    ]
}

// Two trees over eight values, each of which waits for free lanes: one is joined to quarters, and one to halves.
#[derive(Clone, Copy)]
pub(crate) struct Waiting {
    pub(crate) quarters: [[u32; 8]; 4],
    pub(crate) halves: [[u32; 8]; 2],
}

// A tree that is joined to halves, and the value of one that was.
#[derive(Clone, Copy)]
pub(crate) struct Halved {
    pub(crate) halves: [[u32; 8]; 2],
    pub(crate) whole: [u32; 8],
}

// The trees that wait, and the value of one that waited.
#[derive(Clone, Copy)]
pub(crate) struct Turn {
    pub(crate) waiting: Waiting,
    pub(crate) whole: [u32; 8],
}

// The tree over eight values, joined to quarters.
pub(crate) fn quarters8(hidden: &Hidden, values: &[[u32; 8]; 8]) -> [[u32; 8]; 4]
    ensures { joined 2 result 0 ≡ joined 3 values.now 0 }
{
    parents4(
        hidden,
        &[values[0], values[2], values[4], values[6]],
        &[values[1], values[3], values[5], values[7]],
    )
}

// Joins both trees that wait by one level.
pub(crate) fn join_waiting(hidden: &Hidden, waiting: &Waiting) -> Halved
    ensures halves { joined 1 result.halves 0 ≡ joined 2 waiting.now.quarters 0 }
    ensures whole { result.whole ≡ joined 1 waiting.now.halves 0 }
{
    let (q, h) = (&waiting.quarters, &waiting.halves);
    let rows = parents4(hidden, &[q[0], q[2], h[0], h[0]], &[q[1], q[3], h[1], h[1]]);
    Halved {
        halves: [rows[0], rows[1]],
        whole: rows[2],
    }
}

// Joins the tree over eight values and both that wait by one level.
pub(crate) fn join_with(hidden: &Hidden, v: &[[u32; 8]; 8], waiting: &Waiting) -> Turn
    ensures quarters { joined 2 result.waiting.quarters 0 ≡ joined 3 v.now 0 }
    ensures halves { joined 1 result.waiting.halves 0 ≡ joined 2 waiting.now.quarters 0 }
    ensures whole { result.whole ≡ joined 1 waiting.now.halves 0 }
{
    let (q, h) = (&waiting.quarters, &waiting.halves);
    let rows = parents8_with(
        hidden,
        &[v[0], v[2], v[4], v[6], q[0], q[2], h[0], h[0]],
        &[v[1], v[3], v[5], v[7], q[1], q[3], h[1], h[1]],
    );
    Turn {
        waiting: Waiting {
            quarters: [rows[0], rows[1], rows[2], rows[3]],
            halves: [rows[4], rows[5]],
        },
        whole: rows[6],
    }
}

// The value of the tree over eight values, which isn't the root.
pub(crate) fn subtree8(hidden: &Hidden, values: &[[u32; 8]; 8]) -> [u32; 8]
    ensures { result ≡ joined 3 values.now 0 }
{
    let quarters = quarters8(hidden, values);
    let halves = join_waiting(hidden, &alone(quarters)).halves;
    hidden.parent(&halves[0], &halves[1], 0)
}

// A tree that waits, joined to quarters, and none before it: the halves are of no tree.
pub(crate) fn alone(quarters: [[u32; 8]; 4]) -> Waiting
    ensures { result.quarters ≡ quarters }
{
    Waiting {
        quarters,
        halves: [quarters[0], quarters[1]],
    }
}
