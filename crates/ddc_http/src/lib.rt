//! Requests read from a stream, and replies written to one.
#![tactic(auto)]

mod fields;
mod head;
mod head_form;
mod reader;
mod reply;
mod request;
mod stream;

pub use reply::{
    ErrorCode, Head, Kind, WriteFault, damaged_body, error_body, fault_body, full_body,
    history_full_body, identifier_body, needs_body, status_phrases, write_head,
};
pub use request::{Ask, HttpFault, Request};
pub use stream::RequestReader;
