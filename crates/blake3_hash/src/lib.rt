//! BLAKE3 in hash mode with 32 bytes of output (BLAKE3 specification), of bytes in one piece or in many.
//! No call takes memory.
#![tactic(auto)]

mod hasher;
mod spine;

pub use hasher::Hasher;
pub use spine::{Parents, Spine, hash};
pub use tree_hash::{chunk_value, compress, parent_value};
