//! What is missing of an object's closure: the hashes that it reaches over its attachments, and of which no blob is
//! stored. And whether the closures of all finalised references are whole.
//!
//! The closure is walked from scratch, by a list of the objects still to be read and two ordered sets of what was met.
//! Each object's links are read once, so the time is that of the links met, each looked up in ordered maps, whatever
//! the depth and whatever parts are shared.
#![tactic(auto)]

mod closure_walk;
mod missing;
mod sound;

pub use missing::{needs, needs_with};
pub use sound::first_unsound;
