//! The proved tests of `ddc_opening` and `ddc_book`. A crate of their own, since a build of tests proves its crate's code
//! again.
#![tactic(auto)]

#[cfg(test)]
mod book;
#[cfg(test)]
mod opening;
