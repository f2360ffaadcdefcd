//! Where a collection stands.

/// Where a collection stands.
#[derive(Clone, Copy, Debug, PartialEq, Eq)]
pub enum Phase {
    /// A node is grey.
    Marking,
    /// No node is grey, and what isn't marked may be swept.
    Sweeping,
    /// A sweep list was empty, and nothing was shaded since.
    Done,
}
