//! Where the bytes of blobs stand in the blob file: which units are claimed, and how a blob is written and read.
//!
//! The file is a row of units of 4,096 bytes. The bytes of a blob stand in an extent, which is a run of units. An
//! extent is claimed before its blob is written, and released when the blob is gone. Claimed extents don't overlap.
#![tactic(auto)]

mod area;
mod bytes;
mod held;
mod span;
mod store;

pub use bytes::{read_piece, write_blob};
pub use store::BlobStore;
