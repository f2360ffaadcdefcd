// Where the head of a request ends.
ghost use Rattle.ddc_http.specs.inside.Parts.{FindsHead, FindsHeadIn};

use crate::head_form::request_form;
use ddc_protocol::RequestForm;
use httparse::Status;
use httparse::spans::{EMPTY_HEADER_SPAN, parse_request};

/// The most bytes of a head.
pub const MOST_HEAD: usize = 16_384;
/// The most fields of a head.
const MOST_FIELDS: usize = 64;

/// What stands at the front of the bytes.
#[derive(Clone, Copy, Debug, PartialEq, Eq)]
pub enum Found {
    /// No head yet.
    More,
    /// No head, whatever follows.
    Never,
    /// A head of so many bytes, and what it asks for.
    Head(usize, Option<RequestForm>),
}

// The head at the front of a window of the bytes.
fn head_in(window: &[u8]) -> Found
    ensures { FindsHeadIn window.now result }
{
    let mut headers = [EMPTY_HEADER_SPAN; MOST_FIELDS];
    match parse_request(window, &mut headers) {
        Ok(Status::Complete(head)) => {
            let form = request_form(
                head.method.of(window),
                head.path.of(window),
                window,
                &headers[..head.headers],
            );
            Found::Head(head.len, form)
        }
        Ok(Status::Partial) => Found::More,
        Err(_) => Found::Never,
    }
}

/// The head at the front, or whether one can still come.
pub fn find_head(bytes: &[u8]) -> Found
    ensures { FindsHead bytes.now result }
{
    let window = &bytes[..bytes.len().min(MOST_HEAD)];
    match head_in(window) {
        Found::More => {
            if window.len() < MOST_HEAD {
                Found::More
            } else {
                Found::Never
            }
        }
        found => found,
    }
}
