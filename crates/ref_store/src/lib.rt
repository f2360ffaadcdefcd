//! The table of references: a finite map from the names of references to their slots, with pages of the finalised
//! references of a namespace, lists of those whose time to live is over, and a way through all in order.
#![tactic(auto)]

mod place;
mod ranges;
mod slot;
mod table;

pub use slot::{RefRow, Slot, SlotPage};
pub use table::RefTable;
