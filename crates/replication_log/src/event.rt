//! What a log has, and why it may have nothing for a reader.

use ddc_names::{IoHash, RefSpot};

/// What happened to a reference.
#[derive(Clone, Copy, Debug, PartialEq, Eq)]
pub enum EventOp {
    /// It serves this object from now on.
    Added(IoHash),
    /// It serves nothing any more.
    Deleted,
}

/// One change of what a namespace serves.
#[derive(Clone, Copy, Debug, PartialEq, Eq)]
pub struct Event {
    /// At least 1. The next event of the log has the next number.
    pub number: u64,
    pub spot: RefSpot,
    pub op: EventOp,
}

/// Why a log gives a reader no events.
#[derive(Clone, Copy, Debug, PartialEq, Eq)]
pub enum LogFault {
    /// The reader says that it has read more than there is.
    Ahead {
        /// The number of the last event, and 0 where there was none.
        last: u64,
    },
    /// The next event for the reader isn't kept any more.
    Trimmed {
        /// The least number whose event is kept.
        oldest: u64,
    },
    /// There was no memory for the events.
    NoMemory,
}
