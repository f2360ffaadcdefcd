//! A journal on one disk, or on a pair of them: bodies that are appended one by one, each of which a
//! crash leaves whole or not at all, and checkpoints that write them anew.
//!
//! The file begins with 20 bytes of head and a gate. An item is a gate, a length and a body, and
//! after the last item stands a closed gate. A gate is opened alone, once what lies after it is sure.
#![tactic(auto)]

mod create;
mod fault;
mod framed;
mod journal;
mod kind;
mod laws;
mod load;
pub mod pair;
mod parse;
mod window;

pub use fault::JournalFault;
pub use framed::Framed;
pub use journal::Journal;
pub use laws::{one_pair_reading, one_reading};
