//! The log of a namespace: numbered events that say which references were finalised and which went, of which the last
//! ones are kept for those who follow.
#![tactic(auto)]

mod event;
mod laws;
mod log;
mod ring;

pub use event::{Event, EventOp, LogFault};
pub use laws::{a_log_keeps_the_newest, a_reader_misses_nothing};
pub use log::EventLog;
