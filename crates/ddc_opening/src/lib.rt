//! What the devices of a store hold once it is made or opened: its journal, its index, and the changes that led there.
//!
//! Two of the devices are a pair of journal files, whose bodies are entries. The third is the blob file, where the bytes
//! of each blob stand at its extent; of these nothing is read. A journal whose bodies are no such changes, or which lacks
//! a blob of a finalised reference, isn't opened, and the fault says where it is.
#![tactic(auto)]

mod create;
mod entries;
mod fault;
mod laws;
mod load;
mod replay;
mod sync;

pub use create::create_store;
pub use entries::fresh_of;
pub use fault::OpenFault;
pub use laws::one_opening;
pub use load::{OpenedStore, load_store};
