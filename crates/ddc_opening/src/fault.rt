//! Why a store can't be opened.

use ddc_names::RefName;
use thiserror::Error;

/// Why a store can't be made or opened.
#[derive(Clone, Copy, Debug, PartialEq, Eq, Error)]
pub enum OpenFault {
    /// A disk failed, and the devices' count of faults rose.
    #[error("disk failed")]
    DiskFailed,
    /// No store was made on the devices.
    #[error("not made")]
    NotMade,
    /// A journal file isn't as it is written, or has a body that is no entry or none that fits.
    #[error("corrupt file {file} at {at}")]
    Corrupt {
        /// The file's number: 0, or 1 for the second of the two.
        file: u8,
        /// The place in bytes: 0 where the first bytes are others, 20 where the file ends after its
        /// gate, and else that of the gate whose item isn't whole or whose body is no entry that fits.
        at: u64,
    },
    /// The journal's version isn't known.
    #[error("version {found}")]
    BadVersion {
        /// The version that the file names.
        found: u32,
    },
    /// This reference is finalised, and a blob that it reaches isn't there. It is the first such by
    /// namespace, bucket and key.
    #[error("unsound reference")]
    Unsound {
        /// The reference.
        name: RefName,
    },
    /// There was no memory.
    #[error("no memory")]
    NoMemory,
}
