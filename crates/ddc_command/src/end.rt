// How a command ended.

use ddc_book::{OpenFault, StoreFault};
use ddc_service::SessionEnd;

/// How a command ended.
#[derive(Clone, Copy, Debug, PartialEq, Eq)]
pub enum CommandEnd {
    /// The words are of no form.
    Usage,
    /// The store can't be opened.
    Unopened(OpenFault),
    /// The requests of a stream were answered, to this end.
    Replayed(SessionEnd),
    /// A store can't be made.
    Uncreated(OpenFault),
    /// The store refused to make the namespace.
    Unmade(StoreFault),
    /// The namespace is made.
    Made,
    /// The namespace is made, and the sink failed as that was told.
    Untold,
}
