//! BLAKE3 in hash mode (BLAKE3 specification) by `std::simd`: eight chunks at a time, four, or one alone. Each value is that
//! of `blake3_hash`. No call takes memory.
#![tactic(auto)]

mod block;
mod chunk;
mod chunks;
mod eight;
mod kernel;
mod parent;
mod parents;
mod vectors;
mod wide;
mod width;

pub use chunks::chunks8;
pub use parents::parents8;
pub use wide::{WideHasher, hash};
