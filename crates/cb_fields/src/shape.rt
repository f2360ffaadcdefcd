//! The codes of fields and the forms of their payloads.

ghost use Rattle.std.specs.Prelude.{◌≡◌};
ghost use Rattle.cb_fields.specs.Shape.{shape, is_allowed};

use crate::links::LinkKind;

/// How a payload is laid out. A size is a VarUInt and counts all that follows it in the payload.
#[derive(Clone, Copy)]
pub enum Shape {
    /// The code isn't allowed.
    Refused,
    /// So many bytes.
    Fixed(usize),
    /// The 20 bytes of a hash.
    Attachment(LinkKind),
    /// One VarUInt.
    Number,
    /// A size and that many bytes.
    Sized,
    /// A size, then fields.
    Fields,
    /// A size, then one type byte and fields without a type byte.
    UniformFields,
    /// A size, then a count and fields.
    Array,
    /// A size, then a count, one type byte and fields without a type byte.
    UniformArray,
}

/// The form of a code. The codes above 3f are those with flag 40.
#[tactic(auto, unfolding(crate::specs::Shape::shape))]
#[inline(always)]
pub fn shape_of(code: u8) -> Shape
    ensures { result ≡ shape code }
{
    match code {
        0x02 => Shape::Fields,
        0x03 => Shape::UniformFields,
        0x04 => Shape::Array,
        0x05 => Shape::UniformArray,
        0x06 | 0x07 | 0x1e | 0x1f => Shape::Sized,
        0x08 | 0x09 => Shape::Number,
        0x0e => Shape::Attachment(LinkKind::Object),
        0x0f => Shape::Attachment(LinkKind::Binary),
        0x01 | 0x0c | 0x0d => Shape::Fixed(0),
        0x0a => Shape::Fixed(4),
        0x0b | 0x12 | 0x13 => Shape::Fixed(8),
        0x10 => Shape::Fixed(20),
        0x11 => Shape::Fixed(16),
        0x14 => Shape::Fixed(12),
        _ => Shape::Refused,
    }
}

/// Whether a type byte may stand in an object.
#[tactic(auto, unfolding(crate::specs::Shape::is_allowed))]
pub fn is_allowed_type(type_byte: u8) -> bool
    ensures { result ≡ is_allowed type_byte }
{
    match shape_of(type_byte % 0x80) {
        Shape::Refused => false,
        _ => true,
    }
}
