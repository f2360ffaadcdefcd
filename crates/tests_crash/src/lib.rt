//! A proved test in which nothing is assumed of a store: from its making on, each crash leaves no store or a sound state
//! of its history.
//!
//! What `ddc_book` says of crashes has a premise, that its devices were honest when the store was opened. Here it is
//! derived over disks in memory, for a store that was made on new disks and for one that was loaded from devices of which
//! each crash leaves a sound state.
#![tactic(auto)]

#[cfg(test)]
mod lives;
