//! The layout of a journal file, and what a load is told of one.

ghost use Rattle.std.specs.Prelude.{◌≡◌};
ghost use Rattle.ddc_journal.specs.Faults.{single_kind};

// The bytes that every journal begins with.
pub(crate) const MAGIC: [u8; 8] = [68, 68, 67, 74, 76, 79, 71, 10];

// The place of the file's own gate.
pub(crate) const GATE: u64 = 20;

// The place of the first item's gate.
pub(crate) const FRONT: u64 = 21;

// How many bytes stand in front of a body: its gate and its length.
pub(crate) const ITEM_HEAD: u64 = 5;

// How many bytes an item has at least, with the gate after it.
pub(crate) const LEAST_ITEM: u64 = ITEM_HEAD + 1;

// The version of a journal that stands alone.
pub(crate) const SINGLE_VERSION: u32 = 0;

// The number of a file, which is 1 for the second of two and else 0, and the versions that it may
// have.
#[derive(Clone, Copy)]
pub(crate) struct FileKind {
    pub(crate) number: u8,
    pub(crate) least: u32,
    pub(crate) most: u32,
}

// A journal that stands alone.
pub(crate) fn single() -> FileKind
    ensures { result ≡ single_kind }
{
    FileKind {
        number: 0,
        least: SINGLE_VERSION,
        most: SINGLE_VERSION,
    }
}
