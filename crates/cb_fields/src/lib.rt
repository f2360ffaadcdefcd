//! Compact Binary: which bytes are an object, where bytes that are none break the rules, which blobs an
//! object links to, and the object that lists hashes that are needed.
//!
//! The format is the one of Unreal Engine's `CompactBinary.h`. The walk over an object keeps the
//! containers that are open in a list of its own, so objects may be nested to any depth.
#![tactic(auto)]

mod check;
mod field_walk;
mod header;
mod laws;
mod links;
mod needs;
mod shape;
mod varuint;

pub use check::{CbFault, check_object, links_of, read_object};
pub use laws::{
    fault_is_no_object, fault_lies_within, needs_is_object, needs_tells_hashes, object_or_fault,
    one_fault, one_object,
};
pub use links::{Link, LinkKind};
pub use needs::write_needs;
pub use varuint::read_varuint;
