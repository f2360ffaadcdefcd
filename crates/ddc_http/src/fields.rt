// The fields of a request head.
ghost use Rattle.std.specs.Prelude.{◌≡◌, ℕ, List, ◌∷◌, length, map, All, codes};
ghost use Rattle.httparse.specs.Spans.{IsHeaderWithin, header_bytes};
ghost use Rattle.ddc_protocol.specs.Fields.{same_name, values_of};
ghost use Rattle.ddc_protocol.specs.HeadForms.{is_empty, is_without_body, is_of_type, put_length};
ghost use Rattle.ddc_http.specs.inside.Values.{AreValues};

use ddc_protocol::decimal_value;
use httparse::spans::HeaderSpan;

/// The most digits of a length.
const MOST_DIGITS: usize = 19;

// The values of the fields of one name.
#[derive(Clone, Copy)]
pub enum Values<'a> {
    Absent,
    Once(&'a [u8]),
    Repeated(&'a [u8]),
}

fn is_named(name: &[u8], wanted: &[u8]) -> bool
    ensures { result ≡ same_name name.now wanted.now }
{
    name.eq_ignore_ascii_case(wanted)
}

fn one_more<'a>(value: &'a [u8], others: Values<'a>) -> Values<'a>
    ensures { (values : List (List ℕ)) → AreValues values others.entry → AreValues (value.now ∷ values) result }
{
    match others {
        Values::Absent => Values::Once(value),
        Values::Once(_) => Values::Repeated(value),
        Values::Repeated(_) => Values::Repeated(value),
    }
}

fn values_of<'a>(buf: &'a [u8], headers: &[HeaderSpan], name: &[u8]) -> Values<'a>
    requires { All (IsHeaderWithin (length buf.now)) headers.now }
    ensures { AreValues (values_of name.now (map (header_bytes buf.now) headers.now)) result }
{
    match headers {
        [] => Values::Absent,
        [first, rest @ ..] => {
            let others = values_of(buf, rest, name);
            if is_named(first.name.of(buf), name) {
                one_more(first.value.of(buf), others)
            } else {
                others
            }
        }
    }
}

// Whether no field has the name.
pub fn is_absent(buf: &[u8], headers: &[HeaderSpan], name: &[u8]) -> bool
    requires { All (IsHeaderWithin (length buf.now)) headers.now }
    ensures { result ≡ is_empty (values_of name.now (map (header_bytes buf.now) headers.now)) }
{
    matches!(values_of(buf, headers, name), Values::Absent)
}

// The length of a put's body, of so many bytes at most.
pub fn put_length(most: u64, buf: &[u8], headers: &[HeaderSpan]) -> Option<u64>
    requires { All (IsHeaderWithin (length buf.now)) headers.now }
    ensures { result ≡ put_length most (values_of (codes "content-length") (map (header_bytes buf.now) headers.now)) }
{
    match values_of(buf, headers, b"content-length") {
        Values::Once(value) => {
            let size = decimal_value(value, MOST_DIGITS)?;
            if size <= most { Some(size) } else { None }
        }
        _ => None,
    }
}

// Whether the fields state no body.
pub fn is_without_body(buf: &[u8], headers: &[HeaderSpan]) -> bool
    requires { All (IsHeaderWithin (length buf.now)) headers.now }
    ensures { result ≡ is_without_body (values_of (codes "content-length") (map (header_bytes buf.now) headers.now)) }
{
    match values_of(buf, headers, b"content-length") {
        Values::Absent => true,
        Values::Once(value) => value == b"0".as_slice(),
        Values::Repeated(_) => false,
    }
}

// Whether a put's body is of this type, or of none.
pub fn is_of_type(kind: &[u8], buf: &[u8], headers: &[HeaderSpan]) -> bool
    requires { All (IsHeaderWithin (length buf.now)) headers.now }
    ensures { result ≡ is_of_type kind.now (values_of (codes "content-type") (map (header_bytes buf.now) headers.now)) }
{
    match values_of(buf, headers, b"content-type") {
        Values::Absent => true,
        Values::Once(value) => value == kind,
        Values::Repeated(value) => value == kind,
    }
}
