//! Bytes of a file, read as those of a journal.

ghost use Rattle.std.specs.Prelude.{◌≡◌, ◌<◌, ◌≤◌, ◌+◌, ◌^◌, ◌++◌, ◌∷◌, [], length, take, drop, slice_index, IfErr, IfNone, IfOk, IfSome, OnErr, OnOk};
ghost use Rattle.std.specs.Int.{from_le_bytes, to_le_bytes, w32, w64};
ghost use Rattle.ddc_journal.specs.Journal.{magic, framed, head_bytes, version_in, generation_in, rank};
ghost use Rattle.ddc_journal.specs.inside.Scanning.{HeadFault, IsOpen, NeedsAt, TakesItems};

use crate::JournalFault;
use crate::kind::{FileKind, GATE, LEAST_ITEM, MAGIC};
use ddc_names::{ByteList, NoMemory, Rows};
use std::alloc::Global;

// The number of four bytes, the lowest first.
fn short_number(bytes: [u8; 4]) -> u32
    ensures value { result ≡ from_le_bytes w32 bytes }
    ensures back { to_le_bytes w32 result ≡ bytes }
{
    u32::from_le_bytes(bytes)
}

// The number of eight bytes, the lowest first.
fn long_number(bytes: [u8; 8]) -> u64
    ensures value { result ≡ from_le_bytes w64 bytes }
    ensures back { to_le_bytes w64 result ≡ bytes }
{
    u64::from_le_bytes(bytes)
}

// What stands before the items, and they.
#[derive(Clone, Copy)]
pub(crate) struct Head<'a> {
    magic: &'a [u8; 8],
    pub(crate) version: u32,
    pub(crate) generation: u64,
    gate: u8,
    items: &'a [u8],
}

fn split_head(bytes: &[u8]) -> Option<Head<'_>>
    ensures magic { IfSome result (λ head. head.magic.now ≡ take 8 bytes.now) }
    ensures version { IfSome result (λ head. head.version ≡ version_in bytes.now) }
    ensures generation { IfSome result (λ head. head.generation ≡ generation_in bytes.now) }
    ensures fits { IfSome result (λ head. head.generation < 2 ^ 64) }
    ensures gate { IfSome result (λ head. head.gate ≡ slice_index bytes.now 20) }
    ensures items { IfSome result (λ head. head.items.now ≡ drop 21 bytes.now) }
    ensures known { IfSome result (λ head. head.magic.now ≡ magic → take 20 bytes.now ≡ head_bytes head.version head.generation) }
    ensures long { IfSome result (λ _. 21 ≤ length bytes.now) }
    ensures short { IfNone result (length bytes.now < 21) }
{
    let Some((magic, rest)) = bytes.split_first_chunk::<8>() else {
        return None;
    };
    let Some((version, rest)) = rest.split_first_chunk::<4>() else {
        return None;
    };
    let Some((generation, rest)) = rest.split_first_chunk::<8>() else {
        return None;
    };
    let Some((gate, items)) = rest.split_first() else {
        return None;
    };
    Some(Head {
        magic,
        version: short_number(*version),
        generation: long_number(*generation),
        gate: *gate,
        items,
    })
}

// The generation that the front of a file names, where its gate is open, and else 0.
pub(crate) fn rank_in(front: &[u8]) -> u64
    ensures { result ≡ rank front.now }
{
    match split_head(front) {
        Some(head) => { if head.gate == 1 { head.generation } else { 0 } }
        None => 0,
    }
}

// The head of a journal, where it is as it should be. The bytes go up to the first item's gate, or to
// the file's end.
pub(crate) fn open_items(bytes: &[u8], kind: FileKind) -> Result<Head<'_>, JournalFault>
    ensures items { IfOk result (λ head. IsOpen kind bytes.now head.items.now) }
    ensures long { IfOk result (λ _. 21 < length bytes.now) }
    ensures version { IfOk result (λ head. head.version ≡ version_in bytes.now) }
    ensures generation { IfOk result (λ head. head.generation ≡ generation_in bytes.now) }
    ensures fault { IfErr result (λ fault. HeadFault kind bytes.now fault) }
{
    let Some(head) = split_head(bytes) else {
        return Err(JournalFault::NotMade);
    };
    if head.gate != 1 || head.generation == 0 {
        return Err(JournalFault::NotMade);
    }
    let file = kind.number;
    if *head.magic != MAGIC {
        return Err(JournalFault::Corrupt { file, at: 0 });
    }
    let found = head.version;
    if found < kind.least || found > kind.most {
        return Err(JournalFault::BadVersion { found });
    }
    if head.items.is_empty() {
        return Err(JournalFault::Corrupt { file, at: GATE });
    }
    Ok(head)
}

// A length, a body of that length, and at least one byte more. Where they aren't there: how many bytes
// they need, with the gate in front.
fn split_item(after: &[u8]) -> Result<(&[u8], &[u8]), u64>
    ensures item { IfOk result (λ r. after.now ≡ framed r.0.now ++ r.1.now) }
    ensures sized { IfOk result (λ r. (length r.0.now < 2 ^ 32) × (0 < length r.1.now) × (length r.1.now < length after.now)) }
    ensures needs { IfErr result (λ need. NeedsAt need (1 ∷ after.now)) }
    ensures is_cut { IfErr result (λ need. length after.now + 1 < need) }
{
    let Some((size, tail)) = after.split_first_chunk::<4>() else {
        return Err(LEAST_ITEM);
    };
    let size = short_number(*size);
    if tail.len() <= size as usize {
        return Err(LEAST_ITEM + size as u64);
    }
    Ok(tail.split_at(size as usize))
}

fn add_body(alloc: Global, bodies: &mut Rows<ByteList>, body: &[u8]) -> Result<(), NoMemory>
    ensures ok { OnOk result (bodies.new ≡ bodies.old ++ body.now ∷ []) }
    ensures err { OnErr result (bodies.new ≡ bodies.old) }
{
    let copy = Vec::from_slice(alloc, body)?;
    bodies.push(Rows::of_vec(copy))
}

// Why no more items are taken from a piece.
#[derive(Clone, Copy)]
pub(crate) enum Stop {
    // A gate that isn't open.
    Closed,
    // An item that isn't whole there. It needs so many bytes with the gate after it, or more where its
    // length isn't whole either.
    Lacks(u64),
}

// Adds the bodies of the whole items at the front of a piece. Gives how many bytes those have, and what
// stands after them.
pub(crate) fn take_items(
    alloc: Global,
    piece: &[u8],
    bodies: &mut Rows<ByteList>,
) -> Result<(usize, Stop), NoMemory>
    requires { 0 < length piece.now }
    ensures { IfOk result (λ r. TakesItems bodies.old bodies.new piece.now r.0 r.1) }
{
    let mut rest = piece;
    while let [1, after @ ..] = rest {
        match split_item(after) {
            Ok((body, tail)) => {
                add_body(alloc, bodies, body)?;
                rest = tail;
            }
            Err(need) => return Ok((piece.len() - rest.len(), Stop::Lacks(need))),
        }
    }
    Ok((piece.len() - rest.len(), Stop::Closed))
}
