//! A value that many threads use one at a time, in the order in which they came.
//!
//! A thread comes with a seat, which stands for what it has seen: the front of the value's list at its last turn. It
//! draws a ticket, waits for its turn, has the value, and leaves with the value's list as its new front. The list only
//! grows, so each front is a front of the list in every later turn, and of two fronts one begins the other.
//!
//! Who waits sleeps, and who leaves wakes the next one alone. No clause says that a turn ever comes: who keeps the value
//! keeps all others waiting, and after `Turn::close` they wait for ever.
#![tactic(auto)]

mod bells;
mod desk;
mod grows;
mod rule;
mod turn;

pub use desk::{Desk, Seat, Turn};
pub use grows::Grows;
