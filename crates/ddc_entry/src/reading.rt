//! Entries, read from bytes.

ghost use Rattle.std.specs.Prelude.{◌≡◌, Some, IfSome, IfOk};
ghost use Rattle.ddc_model.specs.declared.entry.Entry.{Entry};
ghost use Rattle.ddc_entry.specs.Spelling.{spelling, IsEntry};
ghost use Rattle.ddc_entry.specs.inside.Reading.{ReadsAs, base_event_at, base_hour_at, base_slot_at, cursor_at, delete_at, entry_at, expire_at, finalise_at, put_at, repin_at, space_at, swept_at, touch_at, upload_at};

use crate::parts::{
    Unread, take_counted_hashes, take_counted_spots, take_eight, take_flag, take_four, take_fresh,
    take_hash, take_op, take_optional_hash, take_optional_spot, take_ref_name, take_space,
    take_spot, take_stored,
};
use ddc_model::{Cursor, CursorBox, Entry, NameBox};
use ddc_names::{NoMemory, RefName};
use std::alloc::Global;

#[tactic(auto, unfolding(crate::specs::inside::Reading::space_at))]
fn space_of(bytes: &[u8]) -> Result<(Entry, &[u8]), Unread>
    ensures { ReadsAs (λ x. (x.0, x.1.now)) result (space_at bytes.now) }
{
    let Some((space, rest)) = take_space(bytes) else {
        return Err(Unread::Refused);
    };
    let (ttl, rest) = take_four(rest)?;
    let (pin, rest) = take_four(rest)?;
    Ok((Entry::Space { space, ttl, pin }, rest))
}

#[tactic(auto, unfolding(crate::specs::inside::Reading::upload_at))]
fn upload_of(alloc: Global, bytes: &[u8]) -> Result<(Entry, &[u8]), Unread>
    ensures { ReadsAs (λ x. (x.0, x.1.now)) result (upload_at bytes.now) }
{
    let Some((space, rest)) = take_space(bytes) else {
        return Err(Unread::Refused);
    };
    let (blob, rest) = take_stored(alloc, rest)?;
    let (hour, rest) = take_four(rest)?;
    Ok((Entry::Upload { space, hour, blob }, rest))
}

#[tactic(auto, unfolding(crate::specs::inside::Reading::repin_at))]
fn repin_of(bytes: &[u8]) -> Result<(Entry, &[u8]), Unread>
    ensures { ReadsAs (λ x. (x.0, x.1.now)) result (repin_at bytes.now) }
{
    let Some((space, rest)) = take_space(bytes) else {
        return Err(Unread::Refused);
    };
    let (hash, rest) = take_hash(rest)?;
    let (hour, rest) = take_four(rest)?;
    Ok((Entry::Repin { space, hash, hour }, rest))
}

#[tactic(auto, unfolding(crate::specs::inside::Reading::put_at))]
fn put_of(alloc: Global, bytes: &[u8]) -> Result<(Entry, &[u8]), Unread>
    ensures { ReadsAs (λ x. (x.0, x.1.now)) result (put_at bytes.now) }
{
    let Some((name, rest)) = take_ref_name(bytes) else {
        return Err(Unread::Refused);
    };
    let (root, rest) = take_hash(rest)?;
    let (fresh, rest) = take_fresh(alloc, rest)?;
    let (whole, rest) = take_flag(rest)?;
    let (hour, rest) = take_four(rest)?;
    let name = NameBox::new(alloc, name)?;
    Ok((
        Entry::Put {
            name,
            root,
            fresh,
            whole,
            hour,
        },
        rest,
    ))
}

#[tactic(auto, unfolding(crate::specs::inside::Reading::finalise_at))]
fn finalise_of(alloc: Global, bytes: &[u8]) -> Result<(Entry, &[u8]), Unread>
    ensures { ReadsAs (λ x. (x.0, x.1.now)) result (finalise_at bytes.now) }
{
    let Some((name, rest)) = take_ref_name(bytes) else {
        return Err(Unread::Refused);
    };
    let (hash, rest) = take_hash(rest)?;
    let (hour, rest) = take_four(rest)?;
    let name = NameBox::new(alloc, name)?;
    Ok((Entry::Finalise { name, hash, hour }, rest))
}

#[tactic(auto, unfolding(crate::specs::inside::Reading::delete_at))]
fn delete_of(alloc: Global, bytes: &[u8]) -> Result<(Entry, &[u8]), Unread>
    ensures { ReadsAs (λ x. (x.0, x.1.now)) result (delete_at bytes.now) }
{
    let Some((name, rest)) = take_ref_name(bytes) else {
        return Err(Unread::Refused);
    };
    let (hour, rest) = take_four(rest)?;
    let name = NameBox::new(alloc, name)?;
    Ok((Entry::Delete { name, hour }, rest))
}

#[tactic(auto, unfolding(crate::specs::inside::Reading::touch_at))]
fn touch_of(alloc: Global, bytes: &[u8]) -> Result<(Entry, &[u8]), Unread>
    ensures { ReadsAs (λ x. (x.0, x.1.now)) result (touch_at bytes.now) }
{
    let Some((name, rest)) = take_ref_name(bytes) else {
        return Err(Unread::Refused);
    };
    let (hour, rest) = take_four(rest)?;
    let name = NameBox::new(alloc, name)?;
    Ok((Entry::Touch { name, hour }, rest))
}

#[tactic(auto, unfolding(crate::specs::inside::Reading::expire_at))]
fn expire_of(alloc: Global, bytes: &[u8]) -> Result<(Entry, &[u8]), Unread>
    ensures { ReadsAs (λ x. (x.0, x.1.now)) result (expire_at bytes.now) }
{
    let Some((space, rest)) = take_space(bytes) else {
        return Err(Unread::Refused);
    };
    let (spots, rest) = take_counted_spots(alloc, rest)?;
    let (hour, rest) = take_four(rest)?;
    Ok((Entry::Expire { space, spots, hour }, rest))
}

#[tactic(auto, unfolding(crate::specs::inside::Reading::swept_at))]
fn swept_of(alloc: Global, bytes: &[u8]) -> Result<(Entry, &[u8]), Unread>
    ensures { ReadsAs (λ x. (x.0, x.1.now)) result (swept_at bytes.now) }
{
    let Some((space, rest)) = take_space(bytes) else {
        return Err(Unread::Refused);
    };
    let (hashes, rest) = take_counted_hashes(alloc, rest)?;
    Ok((Entry::Swept { space, hashes }, rest))
}

#[tactic(auto, unfolding(crate::specs::inside::Reading::cursor_at))]
fn cursor_of(alloc: Global, bytes: &[u8]) -> Result<(Entry, &[u8]), Unread>
    ensures { ReadsAs (λ x. (x.0, x.1.now)) result (cursor_at bytes.now) }
{
    let Some((space, rest)) = take_space(bytes) else {
        return Err(Unread::Refused);
    };
    let (walking, rest) = take_flag(rest)?;
    let (after, rest) = take_eight(rest)?;
    let (top, rest) = take_eight(rest)?;
    let Some((from, rest)) = take_optional_spot(rest) else {
        return Err(Unread::Refused);
    };
    let cursor = Cursor {
        walking,
        after,
        top,
        from,
    };
    let cursor = CursorBox::new(alloc, cursor)?;
    Ok((Entry::Cursor { space, cursor }, rest))
}

#[tactic(auto, unfolding(crate::specs::inside::Reading::base_hour_at))]
fn base_hour_of(bytes: &[u8]) -> Result<(Entry, &[u8]), Unread>
    ensures { ReadsAs (λ x. (x.0, x.1.now)) result (base_hour_at bytes.now) }
{
    let (hour, rest) = take_four(bytes)?;
    Ok((Entry::BaseHour { hour }, rest))
}

#[tactic(auto, unfolding(crate::specs::inside::Reading::base_slot_at))]
fn base_slot_of(alloc: Global, bytes: &[u8]) -> Result<(Entry, &[u8]), Unread>
    ensures { ReadsAs (λ x. (x.0, x.1.now)) result (base_slot_at bytes.now) }
{
    let Some((name, rest)) = take_ref_name(bytes) else {
        return Err(Unread::Refused);
    };
    let (done, rest) = take_optional_hash(rest)?;
    let (pending, rest) = take_optional_hash(rest)?;
    let (seen, rest) = take_four(rest)?;
    let name = NameBox::new(alloc, name)?;
    Ok((
        Entry::BaseSlot {
            name,
            done,
            pending,
            seen,
        },
        rest,
    ))
}

#[tactic(auto, unfolding(crate::specs::inside::Reading::base_event_at))]
fn base_event_of(alloc: Global, bytes: &[u8]) -> Result<(Entry, &[u8]), Unread>
    ensures { ReadsAs (λ x. (x.0, x.1.now)) result (base_event_at bytes.now) }
{
    let Some((space, rest)) = take_space(bytes) else {
        return Err(Unread::Refused);
    };
    let (number, rest) = take_eight(rest)?;
    let Some((spot, rest)) = take_spot(rest) else {
        return Err(Unread::Refused);
    };
    let (op, rest) = take_op(rest)?;
    let name = NameBox::new(alloc, RefName { space, spot })?;
    Ok((Entry::BaseEvent { name, number, op }, rest))
}

#[tactic(auto, unfolding(crate::specs::inside::Reading::entry_at))]
fn take_entry(alloc: Global, bytes: &[u8]) -> Result<(Entry, &[u8]), Unread>
    ensures { ReadsAs (λ x. (x.0, x.1.now)) result (entry_at bytes.now) }
{
    match bytes {
        [0x01, rest @ ..] => space_of(rest),
        [0x02, rest @ ..] => upload_of(alloc, rest),
        [0x03, rest @ ..] => repin_of(rest),
        [0x04, rest @ ..] => put_of(alloc, rest),
        [0x05, rest @ ..] => finalise_of(alloc, rest),
        [0x06, rest @ ..] => delete_of(alloc, rest),
        [0x07, rest @ ..] => touch_of(alloc, rest),
        [0x08, rest @ ..] => expire_of(alloc, rest),
        [0x09, rest @ ..] => swept_of(alloc, rest),
        [0x0a, rest @ ..] => cursor_of(alloc, rest),
        [0x0b, rest @ ..] => base_hour_of(rest),
        [0x0c, rest @ ..] => base_slot_of(alloc, rest),
        [0x0d, rest @ ..] => base_event_of(alloc, rest),
        _ => Err(Unread::Refused),
    }
}

/// The entry that the bytes spell, and `None` where they spell none. Each byte belongs to the spelling:
/// bytes after an entry are refused.
///
/// # Errors
///
/// `NoMemory` where there is none for the links of a blob, the name of a reference, a cursor, or the references or
/// blobs that are taken away.
pub fn read_entry(alloc: Global, bytes: &[u8]) -> Result<Option<Entry>, NoMemory>
    ensures found_is_spelled { IfOk result (λ found. IfSome found (λ e. IsEntry e × (bytes.now ≡ spelling e))) }
    ensures spelled_is_found { IfOk result (λ found. (e : Entry) → IsEntry e → bytes.now ≡ spelling e → found ≡ Some e) }
{
    match take_entry(alloc, bytes) {
        Ok((entry, rest)) => {
            if !rest.is_empty() {
                return Ok(None);
            }
            Ok(Some(entry))
        }
        Err(Unread::Refused) => Ok(None),
        Err(Unread::NoMemory) => Err(NoMemory),
    }
}
