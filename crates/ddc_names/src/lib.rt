//! Names, hashes and lists that every layer of the cache speaks of.
//!
//! A namespace or a bucket is seen by contracts as its text, and a list as the list of its items.
#![tactic(auto)]

mod hash;
mod name;
mod orders;
mod reference;
mod rows;

pub use hash::IoHash;
pub use name::{BadName, Bucket, Namespace};
pub use orders::{
    order_of_buckets, order_of_hashes, order_of_keys, order_of_namespaces, order_of_references,
    order_of_spots,
};
pub use reference::{RefKey, RefName, RefSpot};
pub use rows::{ByteList, NoMemory, Rows};

/// An object that was handed in (a disk, a source, a sink or a door) has failed.
#[derive(Clone, Copy, Debug, PartialEq, Eq)]
pub struct Failed;
