//! The requests that the server reads and the replies that it writes, as definitions on bytes.
//!
//! `specs/` has the fields of a head, what a head asks for, how a stream is cut into requests, and
//! the texts of replies. Of what runs in the server only the reader of decimal numbers stands here.
#![tactic(auto)]

mod decimal;
mod laws;
mod request_form;

pub use decimal::decimal_value;
pub use laws::one_cut;
pub use request_form::RequestForm;
