//! Why a store refuses.

use ddc_names::IoHash;

/// What a limit counts. The order is that in which limits are tried.
#[derive(Clone, Copy, Debug, PartialEq, Eq)]
pub enum What {
    Spaces,
    Blobs,
    Refs,
    Links,
    Units,
}

/// Why a store refuses a command. The order is that in which a command tries them.
#[derive(Clone, Copy, Debug, PartialEq, Eq)]
pub enum StoreFault {
    /// A disk failed in an earlier call, at this count of faults. The store has to be opened again.
    Broken { faults: u64 },
    /// There is no such namespace.
    UnknownSpace,
    /// There is no such reference or blob.
    NotFound,
    /// The reference has no object that is finalised.
    NotFinalised,
    /// The reference has another object than the one named.
    NotPending,
    /// The change would pass this limit.
    Full { what: What, limit: u64 },
    /// The history since the opening, of so many entries with so many links, has no room for the
    /// change, and the store has to be opened again. Or the numbers of its namespace's events have
    /// none, and opening the store again doesn't help.
    HistoryFull { entries: u64, links: u64 },
    /// There was no memory.
    NoMemory,
    /// A disk failed in this call. The change may be there or not, and the store has to be opened again.
    DiskFailed,
    /// The blob of this name has bytes of another hash.
    Damaged { named: IoHash, found: IoHash },
}
