//! The index of a store: its namespaces, its blobs with their links, its references, the events of each namespace and
//! how far followers have come, as entries of its history change them, and which units of the blob file its blobs have.
//! `ddc_model` defines the state, and what each entry leaves.
#![tactic(auto)]

mod blob_map;
mod blobs;
mod checked;
mod index;
mod logs;
mod packed;
mod ranges;
mod spaces;

pub use blob_map::BlobMap;
pub use checked::Checked;
pub use index::Index;
