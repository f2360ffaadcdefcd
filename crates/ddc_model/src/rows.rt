//! What is kept of namespaces and blobs, and how much of each.

ghost use Rattle.std.specs.Prelude.{◌≡◌};
ghost use Rattle.ddc_model.specs.Limits.{standard};

use cb_fields::Link;
use ddc_names::{IoHash, Namespace, RefSpot, Rows};

/// The most bytes of a blob.
pub const MOST_BLOB_BYTES: u64 = 67_108_864;

/// How long a namespace keeps what is in it, in whole hours.
#[derive(Clone, Copy, Debug, PartialEq, Eq)]
pub struct SpaceRow {
    /// A reference that was not read for so long expires.
    pub ttl: u32,
    /// A blob that no reference reaches stays for so long.
    pub pin: u32,
}

/// The name of a blob: the namespace that it is in, and its hash. Names are ordered by namespace and
/// then by hash.
#[derive(Clone, Copy, Debug, PartialEq, Eq, PartialOrd, Ord)]
pub struct BlobName {
    pub space: Namespace,
    pub hash: IoHash,
}

/// Where the bytes of a blob stand in the blob file, in units of 4,096 bytes.
#[derive(Clone, Copy, Debug, PartialEq, Eq)]
pub struct Extent {
    /// The first unit.
    pub start: u64,
    /// How many units: the smallest number that holds the bytes.
    pub units: u32,
}

/// What is kept of a blob beside its links.
#[derive(Clone, Copy, Debug, PartialEq, Eq)]
pub struct BlobRow {
    /// Its length in bytes.
    pub len: u64,
    /// The hour at which it was stored or named last.
    pub at: u32,
    /// Where its bytes stand.
    pub extent: Extent,
}

/// What is kept of a blob.
#[derive(Debug, Drop)]
pub struct Blob {
    pub row: BlobRow,
    /// What it links to, in order of occurrence. Bytes that are no object link to nothing.
    pub links: Rows<Link>,
}

/// How far a follower has come in what its leader says of a namespace.
#[derive(Clone, Copy, Debug, PartialEq, Eq)]
pub struct Cursor {
    /// Whether it still goes through the pages of all references.
    pub walking: bool,
    /// The number of the last event that it has taken in.
    pub after: u64,
    /// The greatest number of a page that it has taken in.
    pub top: u64,
    /// The reference after which its next page begins.
    pub from: Option<RefSpot>,
}

/// How much a store may hold, and how much one opening of it may do.
#[derive(Clone, Copy, Debug, PartialEq, Eq)]
pub struct Limits {
    /// The most namespaces.
    pub spaces: u32,
    /// The most blobs of all namespaces.
    pub blobs: u64,
    /// The most references of all namespaces.
    pub refs: u64,
    /// The most links of all blobs.
    pub links: u64,
    /// The units of 4,096 bytes of the blob file.
    pub units: u64,
    /// The events that each namespace keeps.
    pub kept: u32,
    /// The most entries of the history of an opening.
    pub entries: u64,
    /// The most links in the entries of that history.
    pub entry_links: u64,
    /// The most steps of leases of an opening.
    pub lease_steps: u64,
}

impl Limits {
    /// The limits of a store that is served.
    pub fn standard() -> Limits
        ensures { result ≡ standard }
    {
        Limits {
            spaces: 64,
            blobs: 2_097_152,
            refs: 1_048_576,
            links: 16_777_216,
            units: 268_435_456,
            kept: 16_384,
            entries: 4_194_304,
            entry_links: 16_777_216,
            lease_steps: 1_048_576,
        }
    }
}
