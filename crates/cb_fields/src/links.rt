//! What an object links to.

use ddc_names::IoHash;

/// What a link leads to: an object, whose own links count too, or a blob of any bytes.
#[derive(Clone, Copy, Debug, PartialEq, Eq, PartialOrd, Ord)]
pub enum LinkKind {
    /// An ObjectAttachment, code 0e.
    Object,
    /// A BinaryAttachment, code 0f.
    Binary,
}

/// An attachment of an object.
#[derive(Clone, Copy, Debug, PartialEq, Eq, PartialOrd, Ord)]
pub struct Link {
    /// What it leads to.
    pub kind: LinkKind,
    /// The blob's hash.
    pub hash: IoHash,
}
