//! The proved tests of `ddc_http`, `ddc_service` and `ddc_command`. A crate of their own, since a build of tests
//! proves its crate's code again.
#![tactic(auto)]

#[cfg(test)]
mod command;
#[cfg(test)]
mod requests;
#[cfg(test)]
mod service;
