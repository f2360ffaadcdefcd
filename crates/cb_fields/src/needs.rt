//! The object that lists hashes that are needed.

ghost use Rattle.std.specs.Prelude.{◌≡◌, ◌≤◌, [], ◌++◌, ◌∷◌, IfOk, OnOk, length};
ghost use Rattle.cb_fields.specs.Language.{IsObject};
ghost use Rattle.cb_fields.specs.Needs.{AreHashes, hash_bytes, lead, minimal, needs_field, needs_object, width, with_size};

use ddc_names::{ByteList, IoHash, NoMemory};
use std::alloc::{AllocError, Global};

// How many bytes follow the first in the shortest spelling.
#[tactic(auto, unfolding(crate::specs::Needs::width))]
fn width_of(n: u64) -> usize
    ensures value { result ≡ width n }
    ensures few { result ≤ 8 }
{
    if n < 0x80 {
        0
    } else if n < 0x4000 {
        1
    } else if n < 0x20_0000 {
        2
    } else if n < 0x1000_0000 {
        3
    } else if n < 0x8_0000_0000 {
        4
    } else if n < 0x400_0000_0000 {
        5
    } else if n < 0x2_0000_0000_0000 {
        6
    } else if n < 0x100_0000_0000_0000 {
        7
    } else {
        8
    }
}

// The first byte of the shortest spelling.
#[tactic(auto, unfolding(crate::specs::Needs::lead))]
fn lead_of(n: u64) -> u8
    ensures { result ≡ lead n }
{
    if n < 0x80 {
        n as u8
    } else if n < 0x4000 {
        (0x80 + n / 0x100) as u8
    } else if n < 0x20_0000 {
        (0xc0 + n / 0x1_0000) as u8
    } else if n < 0x1000_0000 {
        (0xe0 + n / 0x100_0000) as u8
    } else if n < 0x8_0000_0000 {
        (0xf0 + n / 0x1_0000_0000) as u8
    } else if n < 0x400_0000_0000 {
        (0xf8 + n / 0x100_0000_0000) as u8
    } else if n < 0x2_0000_0000_0000 {
        (0xfc + n / 0x1_0000_0000_0000) as u8
    } else if n < 0x100_0000_0000_0000 {
        0xfe
    } else {
        0xff
    }
}

// Writes a number at the end, in as few bytes as spell it.
#[tactic(auto, unfolding(crate::specs::Needs::minimal))]
fn push_varuint(out: &mut Vec<u8>, n: u64) -> Result<(), AllocError>
    ensures { OnOk result (out.new.items ≡ out.old.items ++ minimal n) }
{
    let bytes = n.to_be_bytes();
    out.push(lead_of(n))?;
    out.extend_from_slice(&bytes[8 - width_of(n)..])?;
    Ok(())
}

// Writes the size of some bytes, and the bytes.
fn push_sized(out: &mut Vec<u8>, bytes: &[u8]) -> Result<(), AllocError>
    ensures { OnOk result (out.new.items ≡ out.old.items ++ with_size bytes.now) }
{
    push_varuint(out, bytes.len() as u64)?;
    out.extend_from_slice(bytes)?;
    Ok(())
}

// Writes the 20 bytes of a hash.
fn push_hash(out: &mut Vec<u8>, hash: &IoHash) -> Result<(), AllocError>
    ensures bytes { OnOk result (out.new.items ≡ out.old.items ++ hash.now.0) }
    ensures count { OnOk result (length hash.now.0 ≡ 20) }
{
    out.extend_from_slice(&hash.0)?;
    Ok(())
}

// The count, the type byte of hashes, and the hashes.
fn listed(alloc: Global, hashes: &[IoHash]) -> Result<Vec<u8>, AllocError>
    ensures bytes { IfOk result (λ v. v.items ≡ minimal (length hashes.now) ++ 0x10 ∷ hash_bytes hashes.now) }
    ensures hashes { OnOk result (AreHashes hashes.now) }
{
    let mut out = Vec::new(alloc);
    push_varuint(&mut out, hashes.len() as u64)?;
    out.push(0x10)?;
    for hash in hashes {
        push_hash(&mut out, hash)?;
    }
    Ok(out)
}

// The one field of the object.
fn field_of(alloc: Global, hashes: &[IoHash]) -> Result<Vec<u8>, AllocError>
    ensures bytes { IfOk result (λ v. v.items ≡ needs_field hashes.now) }
    ensures hashes { OnOk result (AreHashes hashes.now) }
{
    let mut out = Vec::new(alloc);
    if hashes.is_empty() {
        out.extend_from_slice(b"\x84\x05needs\x01\x00")?;
    } else {
        let inside = listed(alloc, hashes)?;
        out.extend_from_slice(b"\x85\x05needs")?;
        push_sized(&mut out, &inside)?;
    }
    Ok(out)
}

// The object of that field.
fn object_of(alloc: Global, hashes: &[IoHash]) -> Result<Vec<u8>, AllocError>
    ensures bytes { IfOk result (λ v. v.items ≡ needs_object hashes.now) }
    ensures hashes { OnOk result (AreHashes hashes.now) }
{
    let field = field_of(alloc, hashes)?;
    let mut out = Vec::new(alloc);
    out.push(0x02)?;
    push_sized(&mut out, &field)?;
    Ok(out)
}

/// The object without a name whose one field, named `needs`, lists the hashes in the order given: a
/// UniformArray of Hash, and for no hashes an Array without fields. All its VarUInts are the shortest.
pub fn write_needs(alloc: Global, hashes: &[IoHash]) -> Result<ByteList, NoMemory>
    ensures bytes { IfOk result (λ bytes. bytes ≡ needs_object hashes.now) }
    ensures object { IfOk result (λ bytes. IsObject bytes []) }
{
    match object_of(alloc, hashes) {
        Ok(bytes) => Ok(ByteList::of_vec(bytes)),
        Err(_) => Err(NoMemory),
    }
}
