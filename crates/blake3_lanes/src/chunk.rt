// One chunk alone.
ghost use Rattle.std.specs.Prelude.{◌≡◌, ◌+◌, ◌-◌, ◌*◌, ◌/◌, ◌≤◌, length};
ghost use Rattle.tree_hash.specs.TreeHash.{chunk_value, padded};

use crate::block::{compress, start_value, words};
use crate::chunks::start_flag;
use crate::vectors::Hidden;

// The bytes, and zeros up to a whole block.
fn padded(bytes: &[u8]) -> [u8; 64]
    requires { length bytes.now ≤ 64 }
    ensures { result ≡ padded bytes.now }
{
    let mut block = [0u8; 64];
    block[..bytes.len()].copy_from_slice(bytes);
    block
}

// The value of the chunk with the number `number` (BLAKE3 specification, section 2.4); `root` is the flag ROOT, 8, or 0.
pub(crate) fn flagged_chunk(hidden: &Hidden, bytes: &[u8], number: u64, root: u32) -> [u32; 8]
    requires len { length bytes.now ≤ 1024 }
    requires root { root ≤ 8 }
    ensures { result ≡ chunk_value bytes.now number root }
{
    let whole = bytes.len().saturating_sub(1) / 64;
    let mut h = start_value();
    'each_block: for k in 0..whole {
        h = compress(
            hidden,
            &h,
            &bytes[64 * k..64 * k + 64],
            number,
            64,
            start_flag(k),
        );
    }
    let last = &bytes[64 * whole..];
    words(&compress(
        hidden,
        &h,
        &padded(last),
        number,
        last.len() as u32,
        start_flag(whole) + 2 + root,
    ))
}
