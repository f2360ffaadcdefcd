//! The BLAKE3 hash of a list of bytes: its definition, in `specs/TreeHash.antt`; the compression, and the values of a
//! chunk and of a parent, for the crates above; and a plain program that computes the hash by the definition's own
//! recursion. Faster programs are compared with this one. No call takes memory.
#![tactic(auto)]

mod block;
mod laws;
mod tree;

pub use block::{chunk_value, compress, flagged_chunk, flagged_parent, parent_value};
pub use laws::{left_and_right, one_chunk};
pub use tree::{bytes_of, plain_hash};
