//! What stands at the front of the bytes that are left of a container. What each field goes through is
//! inlined into the walk's step.

ghost use Rattle.std.specs.Prelude.{◌≡◌, ℕ, ◌+◌, ◌^◌, ◌<◌, ◌≤◌, length, IfSome};
ghost use Rattle.cb_fields.specs.Shape.{fewer, rests};
ghost use Rattle.cb_fields.specs.inside.Header.{sized, name_length, extent, shifted, uniform_inside, inside, container_header, payload, rest_header, lasting, next_header, Moves, HasLinkHash};

use crate::links::LinkKind;
use crate::shape::{Shape, is_allowed_type, shape_of};
use crate::varuint::read_varuint;

/// What may stand in a container.
#[derive(Clone, Copy)]
pub struct Contents {
    /// The type byte of a uniform container's fields; `None` where each field has its own.
    pub type_byte: Option<u8>,
    /// How many fields, or any number.
    pub count: Option<u64>,
}

impl Contents {
    /// Any fields, each with a type byte.
    pub const ANY: Contents = Contents {
        type_byte: None,
        count: None,
    };

    /// Nothing.
    pub const NOTHING: Contents = Contents {
        type_byte: None,
        count: Some(0),
    };

    /// The contents after one field of them.
    #[inline(always)]
    pub fn fewer(self) -> Contents
        ensures { result ≡ fewer self }
    {
        let count = match self.count {
            None => None,
            Some(n) => Some(n.saturating_sub(1)),
        };
        Contents {
            type_byte: self.type_byte,
            count,
        }
    }

    // Fields without a type byte. Where they have no bytes at all they are no contents.
    #[tactic(auto, unfolding(crate::specs::Shape::rests))]
    fn rests_of(type_byte: u8, count: Option<u64>) -> Contents
        ensures { result ≡ rests type_byte count }
    {
        if type_byte == 0x01 || type_byte == 0x0c || type_byte == 0x0d {
            Contents::NOTHING
        } else {
            Contents {
                type_byte: Some(type_byte),
                count,
            }
        }
    }
}

/// What stands at the front.
#[derive(Clone, Copy)]
pub enum Header {
    /// Nothing, and nothing more is wanted.
    End,
    /// What may not stand there.
    Bad,
    /// A field of so many bytes.
    Plain(usize),
    /// A field of so many bytes whose last 20 are the hash of a link.
    Link(LinkKind, usize),
    /// A field that is a container: how many bytes come before its contents, how many they have, and
    /// what they may be.
    Container(usize, usize, Contents),
}

impl Header {
    // The same after some more bytes.
    #[inline(always)]
    fn shift(self, more: usize) -> Header
        requires { more + extent self < 2 ^ 64 }
        ensures value { result ≡ shifted more self }
        ensures holds { HasLinkHash self → HasLinkHash result }
        ensures moves { (n : ℕ) → HasLinkHash self → 0 < more → more + extent self ≤ n → 0 < n → Moves n result }
        ensures extent { extent result ≤ more + extent self }
    {
        match self {
            Header::End | Header::Bad => Header::Bad,
            Header::Plain(len) => Header::Plain(more + len),
            Header::Link(kind, len) => Header::Link(kind, more + len),
            Header::Container(before, size, contents) => Header::Container(
                more + before,
                size,
                contents,
            ),
        }
    }

    // Refuses a field that has no bytes.
    #[tactic(auto, unfolding(crate::specs::inside::Header::lasting))]
    #[inline(always)]
    fn last(self) -> Header
        ensures value { result ≡ lasting self }
        ensures moves { (n : ℕ) → HasLinkHash self → extent self ≤ n → 0 < n → Moves n result }
    {
        match self {
            Header::End
            | Header::Bad
            | Header::Plain(0)
            | Header::Link(_, 0)
            | Header::Container(0, _, _) => Header::Bad,
            other => other,
        }
    }
}

// How many bytes spell the size at the front, and the size, where that many bytes follow it.
#[tactic(auto, unfolding(crate::specs::inside::Header::sized))]
#[inline(always)]
fn read_sized(bytes: &[u8]) -> Option<(usize, usize)>
    ensures value { result ≡ sized bytes.now }
    ensures within { IfSome result (λ s. (0 < s.0) × (s.0 + s.1 ≤ length bytes.now)) }
{
    let (size, len) = read_varuint(bytes)?;
    if size > (bytes.len() - len) as u64 {
        None
    } else {
        Some((len, size as usize))
    }
}

// The inside of a uniform container, after its count.
#[tactic(auto, unfolding(crate::specs::inside::Header::uniform_inside))]
fn uniform_inside_of(count: Option<u64>, bytes: &[u8]) -> Header
    ensures value { result ≡ uniform_inside count bytes.now }
    ensures holds { HasLinkHash result }
    ensures within { extent result ≤ length bytes.now }
{
    match bytes {
        [] => match count {
            None | Some(0) => Header::Container(0, 0, Contents::NOTHING),
            Some(_) => Header::Bad,
        },
        [type_byte, rest @ ..] => {
            if is_allowed_type(*type_byte) {
                Header::Container(1, rest.len(), Contents::rests_of(*type_byte, count))
            } else {
                Header::Bad
            }
        }
    }
}

// The bytes that a container's size counts.
#[tactic(auto, unfolding(crate::specs::inside::Header::inside))]
fn inside_of(shape: Shape, bytes: &[u8]) -> Header
    ensures value { result ≡ inside shape bytes.now }
    ensures holds { HasLinkHash result }
    ensures within { extent result ≤ length bytes.now }
{
    match shape {
        Shape::Fields => Header::Container(0, bytes.len(), Contents::ANY),
        Shape::UniformFields => uniform_inside_of(None, bytes),
        Shape::Array => match read_varuint(bytes) {
            None => Header::Bad,
            Some((count, len)) => Header::Container(
                len,
                bytes.len() - len,
                Contents {
                    type_byte: None,
                    count: Some(count),
                },
            ),
        },
        Shape::UniformArray => match read_varuint(bytes) {
            None => Header::Bad,
            Some((count, len)) => uniform_inside_of(Some(count), &bytes[len..]).shift(len),
        },
        _ => Header::Bad,
    }
}

// A container's payload: its size, and its inside.
#[inline(never)]
fn container_of(shape: Shape, bytes: &[u8]) -> Header
    ensures value { result ≡ container_header shape bytes.now (sized bytes.now) }
    ensures holds { HasLinkHash result }
    ensures within { extent result ≤ length bytes.now }
{
    match read_sized(bytes) {
        None => Header::Bad,
        Some((len, size)) => {
            let after = &bytes[len..];
            inside_of(shape, &after[..size]).shift(len)
        }
    }
}

// The payload of a form.
#[tactic(auto, unfolding(crate::specs::inside::Header::payload))]
#[inline(always)]
fn payload_of(shape: Shape, bytes: &[u8]) -> Header
    ensures value { result ≡ payload shape bytes.now }
    ensures holds { HasLinkHash result }
    ensures within { extent result ≤ length bytes.now }
{
    match shape {
        Shape::Refused => Header::Bad,
        Shape::Fixed(len) => if bytes.len() < len {
            Header::Bad
        } else {
            Header::Plain(len)
        },
        Shape::Attachment(kind) => if bytes.len() < 20 {
            Header::Bad
        } else {
            Header::Link(kind, 20)
        },
        Shape::Number => match read_varuint(bytes) {
            None => Header::Bad,
            Some((_, len)) => Header::Plain(len),
        },
        Shape::Sized => match read_sized(bytes) {
            None => Header::Bad,
            Some((len, size)) => Header::Plain(len + size),
        },
        Shape::Fields | Shape::UniformFields | Shape::Array | Shape::UniformArray => container_of(
            shape, bytes,
        ),
    }
}

// How many bytes the name takes with its length, where flag 80 asks for one.
#[tactic(auto, unfolding(crate::specs::inside::Header::name_length))]
#[inline(always)]
fn name_length_of(type_byte: u8, bytes: &[u8]) -> Option<usize>
    ensures value { result ≡ name_length type_byte bytes.now }
    ensures within { IfSome result (λ k. k ≤ length bytes.now) }
{
    if type_byte < 0x80 {
        Some(0)
    } else {
        match read_sized(bytes) {
            None => None,
            Some((len, size)) => Some(len + size),
        }
    }
}

// The name and the payload of a type byte.
#[tactic(auto, unfolding(crate::specs::inside::Header::rest_header))]
#[inline(always)]
fn rest_of(type_byte: u8, bytes: &[u8]) -> Header
    ensures value { result ≡ rest_header type_byte bytes.now }
    ensures holds { HasLinkHash result }
    ensures within { extent result ≤ length bytes.now }
{
    match name_length_of(type_byte, bytes) {
        None => Header::Bad,
        Some(len) => payload_of(shape_of(type_byte % 0x80), &bytes[len..]).shift(len),
    }
}

/// What stands at the front of `bytes`, which are left of a container and may still be `contents`.
#[tactic(auto, unfolding(crate::specs::inside::Header::next_header))]
#[inline(always)]
pub fn header_of(contents: Contents, bytes: &[u8]) -> Header
    ensures value { result ≡ next_header contents bytes.now }
    ensures moves { Moves (length bytes.now) result }
{
    match bytes {
        [] => match contents.count {
            None | Some(0) => Header::End,
            Some(_) => Header::Bad,
        },
        [first, rest @ ..] => {
            if let Some(0) = contents.count {
                return Header::Bad;
            }
            match contents.type_byte {
                None => rest_of(*first, rest).shift(1),
                Some(type_byte) => rest_of(type_byte, bytes).last(),
            }
        }
    }
}
