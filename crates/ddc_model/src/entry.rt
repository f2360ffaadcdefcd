//! The entries of a store's history.

use crate::{CursorBox, Limits, NameBox};
use cb_fields::Link;
use ddc_names::{IoHash, Namespace, RefSpot, Rows};
use replication_log::EventOp;

/// A blob as an entry adds it.
#[derive(Debug, Drop)]
pub struct Stored {
    pub hash: IoHash,
    /// Its length in bytes.
    pub len: u64,
    /// The first unit of its bytes in the blob file.
    pub start: u64,
    /// What it links to, in order of occurrence.
    pub links: Rows<Link>,
}

/// One change of a store. An hour is that of the change, in whole hours since 1970.
#[derive(Debug, Drop)]
pub enum Entry {
    /// A namespace is made, or its times are set, in hours.
    Space {
        space: Namespace,
        ttl: u32,
        pin: u32,
    },
    /// A blob is added.
    Upload {
        space: Namespace,
        hour: u32,
        blob: Stored,
    },
    /// A present blob is pinned from this hour on.
    Repin {
        space: Namespace,
        hash: IoHash,
        hour: u32,
    },
    /// A reference gets an object, which is added or pinned. Where the object and all that it reaches
    /// is there it is finalised, and otherwise pending.
    Put {
        name: NameBox,
        root: IoHash,
        fresh: Option<Stored>,
        whole: bool,
        hour: u32,
    },
    /// A pending object is finalised.
    Finalise {
        name: NameBox,
        hash: IoHash,
        hour: u32,
    },
    /// A reference is taken away.
    Delete {
        name: NameBox,
        hour: u32,
    },
    /// A reference was read.
    Touch {
        name: NameBox,
        hour: u32,
    },
    /// References of a namespace, in order, were not read for too long and are taken away.
    Expire {
        space: Namespace,
        spots: Rows<RefSpot>,
        hour: u32,
    },
    /// Blobs of a namespace, in order, are removed.
    Swept {
        space: Namespace,
        hashes: Rows<IoHash>,
    },
    /// How far a follower has come is noted.
    Cursor {
        space: Namespace,
        cursor: CursorBox,
    },
    /// The hour of a state that is written down anew.
    BaseHour {
        hour: u32,
    },
    /// A reference of such a state.
    BaseSlot {
        name: NameBox,
        done: Option<IoHash>,
        pending: Option<IoHash>,
        seen: u32,
    },
    /// An event of a namespace's log in such a state.
    BaseEvent {
        name: NameBox,
        number: u64,
        op: EventOp,
    },
}

/// One item of the history of a store that was opened.
#[derive(Debug, Drop)]
pub enum Step {
    /// The store was opened within these limits, with what the changes before it left. So often had its
    /// devices failed.
    Loaded {
        limits: Limits,
        faults: u64,
    },
    /// A change.
    Change(Entry),
    /// A blob is lent, so that it can be read in pieces. No other lease since the opening has the number.
    Lease {
        number: u64,
        space: Namespace,
        hash: IoHash,
    },
    /// A blob that was lent is given back.
    Unlease {
        number: u64,
    },
    /// A call failed at the disks, and their count of faults rose. `changed` tells that the change
    /// before it is that call's, and may not be on the disks.
    Broke {
        changed: bool,
        before: u64,
        now: u64,
    },
}
