//! The marks of a collection: which blobs of a namespace a sweep has to leave.
//!
//! A collection starts from the roots of a namespace: the objects of its references, its pinned blobs and its leased
//! ones. A marking turn takes some grey nodes, marks them, and makes their attachments grey. Between two turns the store
//! may change: what is stored or handed out meanwhile is made grey too. Where nothing is grey any more, the blobs that
//! are neither marked nor grey are reached from no root, and a sweep may remove them.
//!
//! Blobs go by dense numbers. Each takes 32 bytes: its hash, the marks of its two nodes, and a place for each of them in
//! a list of what is grey.
#![tactic(auto)]

mod begin;
mod collection;
mod laws;
mod marking;
mod nodes;
mod numbers;
mod phase;
mod sweep;

pub use collection::Collection;
pub use laws::loose_is_unreached;
pub use phase::Phase;
