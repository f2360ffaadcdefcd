//! One of the images that a crash may leave of a disk in memory, as a number picks it.

ghost use Rattle.std.specs.Prelude.{◌≡◌, ◌+◌, ◌-◌, ◌<◌, ◌≤◌, if◌then◌else◌, length, max, IfOk, OnOk};
ghost use Rattle.ddc_disk.specs.Disk.{Torn, overwritten};
ghost use Rattle.ddc_disk.specs.Memory.{MemoryState, fresh, after_call, after_calls, Follows, IsCrash, with_all};

use crate::bytes::overwrite;
use crate::call::{CallKind, DiskCall};
use std::alloc::{AllocError, Global};

// Takes the lowest digit of a number off it, in a base.
fn draw(choice: &mut u64, base: u64) -> u64
    requires { 0 < base }
    ensures { result < base }
{
    let digit = *choice % base;
    *choice /= base;
    digit
}

// A write that a crash has torn: its bytes, over those of before where it is `whole`, or not at all.
#[derive(Clone, Copy)]
struct Tear<'a> {
    old: &'a [u8],
    at: usize,
    bytes: &'a [u8],
    whole: bool,
}

// The byte at a place, before the choice changes it. What neither has is 0.
fn base_byte(tear: &Tear<'_>, place: usize) -> u8 {
    let (from, bytes) = if tear.whole {
        (tear.at, tear.bytes)
    } else {
        (0, tear.old)
    };
    if place < from {
        return 0;
    }
    bytes.get(place - from).copied().unwrap_or(0)
}

// The end of the torn file: from the old end to the write's, where that is greater.
fn torn_end(old: usize, after: usize, whole: bool, choice: &mut u64) -> usize
    ensures least { old ≤ result }
    ensures most { result ≤ max old after }
{
    let greatest = old.max(after);
    let less = draw(choice, ((greatest - old) as u64).saturating_add(1)) as usize;
    if whole { greatest - less } else { old + less }
}

// The bytes of the places that a write leaves open, each as far from its base as the choice says.
fn torn_bytes(
    alloc: Global,
    tear: &Tear<'_>,
    from: usize,
    to: usize,
    choice: &mut u64,
) -> Result<Vec<u8>, AllocError>
    ensures { IfOk result (λ bytes. length bytes.items ≡ to - from) }
{
    let mut bytes = Vec::new(alloc);
    for place in from..to {
        let base = base_byte(tear, place);
        bytes.push(base.wrapping_add(draw(choice, 256) as u8))?;
    }
    Ok(bytes)
}

// A file after a write that is whole, or not there at all.
#[tactic(auto, using(crate::specs::Since::torn_not, crate::specs::Since::torn_written))]
fn unmoved(
    alloc: Global,
    old: &[u8],
    at: usize,
    bytes: &[u8],
    whole: bool,
) -> Result<Vec<u8>, AllocError>
    ensures image { IfOk result (λ image. image.items ≡ (if whole then overwritten old.now at bytes.now else old.now)) }
    ensures torn { IfOk result (λ image. Torn at (length bytes.now) old.now image.items) }
{
    if whole {
        overwrite(alloc, old, at, bytes)
    } else {
        old.to_vec(alloc)
    }
}

// A file after a write that a crash has torn, moved from there as the choice says.
fn moved(
    alloc: Global,
    old: &[u8],
    at: usize,
    bytes: &[u8],
    whole: bool,
    choice: &mut u64,
) -> Result<Vec<u8>, AllocError>
    ensures { IfOk result (λ image. Torn at (length bytes.now) old.now image.items) }
{
    let after = at.saturating_add(bytes.len());
    let end = torn_end(old.len(), after, whole, choice);
    let tear = Tear {
        old,
        at,
        bytes,
        whole,
    };
    let front = if at < old.len() { &old[..at] } else { old };
    let back = if after < old.len() {
        &old[after..]
    } else {
        &old[..0]
    };
    let middle = torn_bytes(alloc, &tear, front.len(), end - back.len(), choice)?;
    let mut image = front.to_vec(alloc)?;
    image.extend_from_slice(&middle)?;
    image.extend_from_slice(back)?;
    Ok(image)
}

// A file after a write that a crash has torn. A choice of 0 moves nothing.
fn torn(
    alloc: Global,
    old: &[u8],
    at: usize,
    bytes: &[u8],
    whole: bool,
    choice: &mut u64,
) -> Result<Vec<u8>, AllocError>
    ensures torn { IfOk result (λ image. Torn at (length bytes.now) old.now image.items) }
    ensures spent { choice.old ≡ 0 → choice.new ≡ 0 }
    ensures unmoved { choice.old ≡ 0 → IfOk result (λ image. image.items ≡ (if whole then overwritten old.now at bytes.now else old.now)) }
{
    if *choice == 0 {
        return unmoved(alloc, old, at, bytes, whole);
    }
    moved(alloc, old, at, bytes, whole, choice)
}

// A disk as calls are made of it again: one of its images, what a read gives, and what is left of
// the choice. Each write begins from all of it or none.
#[derive(Drop)]
struct Replay {
    image: Vec<u8>,
    reads: Vec<u8>,
    whole: bool,
    choice: u64,
}

// Makes one call again. A sync that was done begins the choice anew.
fn replay_call(
    alloc: Global,
    replay: &mut Replay,
    call: &DiskCall,
    choice: u64,
) -> Result<(), AllocError>
    ensures whole { replay.new.whole ≡ replay.old.whole }
    ensures spent { choice ≡ 0 → replay.old.choice ≡ 0 → replay.new.choice ≡ 0 }
    ensures unmoved { OnOk result ((s : MemoryState) → choice ≡ 0 → replay.old.choice ≡ 0 → replay.old.reads.items ≡ s.reads → replay.old.image.items ≡ with_all replay.old.whole s → replay.new.image.items ≡ with_all replay.old.whole (after_call s call.now.what call.now.done)) }
    ensures follows { OnOk result ((s : MemoryState) → Follows s replay.old.image.items replay.old.reads.items → Follows (after_call s call.now.what call.now.done) replay.new.image.items replay.new.reads.items) }
{
    match &call.what {
        CallKind::Write { at, bytes } => {
            let (at, bytes) = (*at as usize, bytes.as_slice());
            replay.image = torn(
                alloc,
                &replay.image,
                at,
                bytes,
                replay.whole,
                &mut replay.choice,
            )?;
            if call.done {
                replay.reads = overwrite(alloc, &replay.reads, at, bytes)?;
            }
        }
        CallKind::Sync => {
            if call.done {
                replay.image = replay.reads.to_vec(alloc)?;
                replay.choice = choice;
            }
        }
        CallKind::Look => {}
    }
    Ok(())
}

// An image that a crash may leave after these calls.
pub(crate) fn crash_image(
    alloc: Global,
    start: &[u8],
    calls: &[DiskCall],
    choice: u64,
) -> Result<Vec<u8>, AllocError>
    ensures crash { IfOk result (λ image. IsCrash (after_calls (fresh start.now) calls.now) image.items) }
    ensures none { choice ≡ 0 → IfOk result (λ image. image.items ≡ (after_calls (fresh start.now) calls.now).sure) }
    ensures whole { choice ≡ 1 → IfOk result (λ image. image.items ≡ (after_calls (fresh start.now) calls.now).whole) }
{
    let moves = choice / 2;
    let mut replay = Replay {
        image: start.to_vec(alloc)?,
        reads: start.to_vec(alloc)?,
        whole: choice % 2 == 1,
        choice: moves,
    };
    let mut rest = calls;
    while let [call, later @ ..] = rest {
        replay_call(alloc, &mut replay, call, moves)?;
        rest = later;
    }
    Ok(replay.image)
}
