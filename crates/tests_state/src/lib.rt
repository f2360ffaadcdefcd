//! The proved tests of `ddc_model`, `ddc_entry`, `ddc_state`, `needs_resolver` and `collector`. A crate of their own, since a build of
//! tests proves its crate's code again.
#![tactic(auto)]

#[cfg(test)]
mod blob_map;
#[cfg(test)]
mod collection;
#[cfg(test)]
mod entry;
#[cfg(test)]
mod model;
#[cfg(test)]
mod needs;
#[cfg(test)]
mod state;
