//! What can be wrong with a journal.

use thiserror::Error;

/// Why a journal can't be made, read or appended to.
#[derive(Clone, Copy, Debug, PartialEq, Eq, Error)]
pub enum JournalFault {
    /// The disk failed, and its count of faults rose.
    #[error("disk failed")]
    DiskFailed,
    /// The file's gate isn't open.
    #[error("not made")]
    NotMade,
    /// The file isn't as a journal is written.
    #[error("corrupt file {file} at {at}")]
    Corrupt {
        /// The file's number: 0, or 1 for the second of two.
        file: u8,
        /// The place in bytes: 0 where the first bytes are others, 20 where the file ends with its
        /// gate, and else that of the gate whose item isn't whole.
        at: u64,
    },
    /// The file's version isn't known.
    #[error("version {found}")]
    BadVersion {
        /// The version that the file names.
        found: u32,
    },
    /// There was no memory.
    #[error("no memory")]
    NoMemory,
}
