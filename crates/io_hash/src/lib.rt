//! The hash that names a blob: the first 20 bytes of its BLAKE3 hash, of bytes at hand or of bytes that arrive in
//! pieces.
#![tactic(auto)]

mod intake;
mod whole;

pub use intake::{Intake, IntakeFault};
pub use whole::{Whole, io_hash_of};
