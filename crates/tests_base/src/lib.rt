//! The proved tests of `tree_hash`, `blake3_hash`, `blake3_lanes`, `io_hash`, `ddc_names`, `ddc_desk`, `ddc_link`,
//! `ddc_disk`, `ddc_journal`, `cb_fields`, `ref_store`, `replication_log` and `blob_store`. A crate of their own, since
//! a build of tests proves its crate's code again.
#![tactic(auto)]

#[cfg(test)]
mod desk;
#[cfg(test)]
mod disk;
#[cfg(test)]
mod events;
#[cfg(test)]
mod extents;
#[cfg(test)]
mod fields;
#[cfg(test)]
mod hashes;
#[cfg(test)]
mod journal;
#[cfg(test)]
mod link;
#[cfg(test)]
mod names;
#[cfg(test)]
mod references;
#[cfg(test)]
mod whole;
