//! A store that survives a crash: namespaces, blobs and references over three handed-in devices.
//!
//! Each change is one entry of the journal. The bytes of a blob that it adds are written to the blob file and made sure of
//! before it, and no bytes of blobs stay in memory. A call takes all its memory, makes its step and the new index, and only
//! then writes. A crash at any moment of a call leaves devices that open to the state before the call or after it.
#![tactic(auto)]

mod book;
mod commands;
mod commit;
mod history;
mod open;
mod reads;
mod tied;

pub use book::Book;
pub use ddc_model::{Step, StoreFault, What};
pub use ddc_opening::{OpenFault, one_opening};
pub use reads::{Held, Opened};
pub use tied::{Opening, Tied};
