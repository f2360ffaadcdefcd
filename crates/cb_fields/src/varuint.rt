//! Numbers of one to nine bytes (VarUInt).

ghost use Rattle.std.specs.Prelude.{◌≡◌, ◌+◌, ◌*◌, ◌^◌, ◌<◌, ◌≤◌, ◌∷◌, length, IfSome};
ghost use Rattle.cb_fields.specs.Varuint.{followers, marked, big_endian_from, varuint_at};

// How many bytes follow the first: as many as it has leading 1 bits.
#[tactic(auto, unfolding(crate::specs::Varuint::followers))]
#[inline]
fn followers_of(first: u8) -> usize
    ensures value { result ≡ followers first }
    ensures few { result ≤ 8 }
{
    if first < 0x80 {
        0
    } else if first < 0xc0 {
        1
    } else if first < 0xe0 {
        2
    } else if first < 0xf0 {
        3
    } else if first < 0xf8 {
        4
    } else if first < 0xfc {
        5
    } else if first < 0xfe {
        6
    } else if first < 0xff {
        7
    } else {
        8
    }
}

// What the first byte holds after its leading 1 bits.
#[tactic(auto, unfolding(crate::specs::Varuint::marked, crate::specs::Varuint::followers))]
#[inline]
fn low_bits(first: u8) -> u64
    ensures value { result + marked first ≡ first }
    ensures fits { (result + 1) * 256 ^ followers first ≤ 256 ^ 8 }
{
    let first = first as u64;
    if first < 0x80 {
        first
    } else if first < 0xc0 {
        first - 0x80
    } else if first < 0xe0 {
        first - 0xc0
    } else if first < 0xf0 {
        first - 0xe0
    } else if first < 0xf8 {
        first - 0xf0
    } else if first < 0xfc {
        first - 0xf8
    } else if first < 0xfe {
        first - 0xfc
    } else if first < 0xff {
        first - 0xfe
    } else {
        0
    }
}

// The number whose front is `high` and whose other bytes, big-endian, are these.
fn spell(high: u64, bytes: &[u8]) -> u64
    requires { (high + 1) * 256 ^ length bytes.now ≤ 256 ^ 8 }
    ensures { result ≡ big_endian_from high bytes.now }
{
    match bytes {
        [] => high,
        [byte, rest @ ..] => spell(high * 0x100 + *byte as u64, rest),
    }
}

// A number whose first byte others follow.
#[inline(never)]
fn read_long(first: u8, rest: &[u8]) -> Option<(u64, usize)>
    ensures value { result ≡ varuint_at (first ∷ rest.now) }
    ensures within { IfSome result (λ found. (0 < found.1) × (found.1 ≤ length rest.now + 1)) }
{
    let count = followers_of(first);
    if rest.len() < count {
        return None;
    }
    Some((spell(low_bits(first), &rest[..count]), 1 + count))
}

/// The number at the front of the bytes, and how many bytes spell it (1 to 9). `None` where the bytes
/// end before the number does. A spelling need not be the shortest.
///
/// The first byte has as many leading 1 bits as bytes follow it; its other bits and those bytes are
/// the number, big-endian.
#[tactic(auto, unfolding(crate::specs::Varuint::followers, crate::specs::Varuint::marked))]
#[inline(always)]
pub fn read_varuint(bytes: &[u8]) -> Option<(u64, usize)>
    ensures value { result ≡ varuint_at bytes.now }
    ensures within { IfSome result (λ found. (0 < found.1) × (found.1 ≤ length bytes.now)) }
{
    match bytes {
        [] => None,
        [first, rest @ ..] => {
            if *first < 0x80 {
                Some((*first as u64, 1))
            } else {
                read_long(*first, rest)
            }
        }
    }
}
