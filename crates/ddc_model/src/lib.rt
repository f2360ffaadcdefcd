//! What a store of the cache holds and how it changes, as definitions on finite maps.
//!
//! `specs/` has the state, which entries are legal in it and what each leaves, the closure of an
//! object over its attachments, and what each command answers. The types here are those that the
//! definitions speak of, and nothing here runs but the constants and the names on the heap.
#![tactic(auto)]

mod cursor_box;
mod entry;
mod fault;
mod laws;
mod name_box;
mod rows;

pub use cursor_box::CursorBox;
pub use entry::{Entry, Step, Stored};
pub use fault::{StoreFault, What};
pub use laws::{
    commands_keep_whole, commands_stay_sound, entries_are_legal, entries_keep_logs,
    entries_stay_placed, links_fit, one_content, one_list_of_needs, removals_keep_the_rest,
    sound_caches_serve, whole_stays_whole,
};
pub use name_box::NameBox;
pub use rows::{Blob, BlobName, BlobRow, Cursor, Extent, Limits, MOST_BLOB_BYTES, SpaceRow};
