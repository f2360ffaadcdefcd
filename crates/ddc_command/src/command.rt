// What words may ask for.

use ddc_names::Namespace;

/// What the words ask for.
#[derive(Clone, Copy)]
pub enum Command {
    /// The requests of a stream are answered.
    Replay,
    /// A namespace is made, with its times in hours.
    Init {
        space: Namespace,
        ttl: u32,
        pin: u32,
    },
}

/// The places of what else the words name, among the words after the program's name.
#[derive(Clone, Copy, Debug, PartialEq, Eq)]
pub struct Places {
    /// The folder of the store.
    pub dir: usize,
    /// An address or a second folder, where the form has one.
    pub other: Option<usize>,
    /// How many workers, or 0 where the form has none.
    pub workers: u32,
}
