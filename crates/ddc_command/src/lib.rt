//! The top calls of the program, each by what it reads, writes and answers.
#![tactic(auto)]

mod command;
mod end;
mod notes;
mod top;
mod words;

pub use command::Places;
pub use top::run_local;
pub use words::places;
