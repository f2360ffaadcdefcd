//! The replies to requests, and the sessions that write them.
#![tactic(auto)]

mod reply;
mod session;

pub use session::{SessionEnd, replay_session};
