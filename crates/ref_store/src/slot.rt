//! What the table holds of a reference, and what a page tells of it.

use ddc_names::{IoHash, RefSpot, Rows};

/// What a reference names.
#[derive(Clone, Copy, Debug, PartialEq, Eq)]
pub struct Slot {
    /// The object that is served. The reference is finalised where there is one.
    pub done: Option<IoHash>,
    /// An object that was put and waits for blobs that it needs.
    pub pending: Option<IoHash>,
    /// The hour, since 1970-01-01 00:00 UTC, in which the reference was last put, finalised or fetched.
    pub seen: u32,
}

/// A finalised reference of a namespace.
#[derive(Clone, Copy, Debug, PartialEq, Eq)]
pub struct RefRow {
    pub spot: RefSpot,
    pub object: IoHash,
}

/// Some finalised references of a namespace, in the order of their spots.
#[derive(Debug, Drop)]
pub struct SlotPage {
    pub rows: Rows<RefRow>,
    /// The last row's spot where a further finalised reference follows it.
    pub next: Option<RefSpot>,
}
