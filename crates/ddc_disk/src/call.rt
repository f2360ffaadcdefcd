//! The calls that a disk in memory keeps.

use ddc_names::ByteList;

// One call, the moment at which it ended, and whether it was done: a listed call isn't.
#[derive(Debug, Drop)]
pub(crate) struct DiskCall {
    pub(crate) moment: u64,
    pub(crate) what: CallKind,
    pub(crate) done: bool,
}

// What was asked. A read, a question for the length and a write whose range doesn't fit u64 change
// nothing.
#[derive(Debug, Drop)]
pub(crate) enum CallKind {
    Write { at: u64, bytes: ByteList },
    Sync,
    Look,
}
