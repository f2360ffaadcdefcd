//! The entries of a store's history as bytes.
//!
//! An entry is a tag byte and its fields in a fixed order, and numbers are little-endian. Each entry has one
//! spelling, and no two entries have the same.
#![tactic(auto)]

mod laws;
mod parts;
mod reading;
mod writing;

pub use laws::{one_entry, written_then_read};
pub use reading::read_entry;
pub use writing::write_entry;
