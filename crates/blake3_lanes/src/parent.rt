// One parent alone.
ghost use Rattle.std.specs.Prelude.{◌≡◌, ◌++◌};
ghost use Rattle.tree_hash.specs.TreeHash.{eight};
ghost use Rattle.blake3_lanes.specs.inside.Rows.{message_of};

use crate::block::{compress_message, in_order, start_value, words};
use crate::vectors::Hidden;
use blake3_hash::Parents;
use std::simd::prelude::*;

// The words of two values, in the order in which a round mixes them in.
#[inline(always)]
fn message(left: &[u32; 8], right: &[u32; 8]) -> [u32x4; 4]
    ensures { message_of result ≡ eight left.now ++ eight right.now }
{
    in_order(
        u32x4::from_array([left[0], left[1], left[2], left[3]]),
        u32x4::from_array([left[4], left[5], left[6], left[7]]),
        u32x4::from_array([right[0], right[1], right[2], right[3]]),
        u32x4::from_array([right[4], right[5], right[6], right[7]]),
    )
}

// By rows.
impl Parents for Hidden {
    fn parent(&self, left: &[u32; 8], right: &[u32; 8], root: u32) -> [u32; 8] {
        let m = message(left, right);
        words(&compress_message(self, &start_value(), &m, 0, 64, 4 + root))
    }
}
