//! The parts of entries, read from the front of some bytes.

ghost use Rattle.std.specs.Prelude.{◌≡◌, option_map};
ghost use Rattle.std.specs.Result.{result_ok};
ghost use Rattle.ddc_names.specs.Names.{name_of};
ghost use Rattle.ddc_entry.specs.declared.parts.Unread.TheVariants.{NoMemory};
ghost use Rattle.ddc_entry.specs.inside.Reading.{ReadsAs, count_at, counted_at, eight_at, flag_at, four_at, hash_at, key_at, kind_at, link_at, many_at, name_at, op_at, optional_at, ref_name_at, sized_at, spot_at, stored_at};

use cb_fields::{Link, LinkKind};
use ddc_model::Stored;
use ddc_names::{Bucket, IoHash, Namespace, RefKey, RefName, RefSpot, Rows};
use replication_log::EventOp;
use std::alloc::{AllocError, AllocFailed, Global};
use std::str;

/// Why a part was not read.
#[derive(Debug, Drop)]
pub enum Unread {
    /// No such part stands at the front.
    Refused,
    NoMemory,
}

impl From<AllocError> for Unread {
    ghost from_gives = { λ _ e. e ≡ NoMemory };

    fn from(_: AllocError) -> Unread {
        Unread::NoMemory
    }
}

impl<T: Drop> From<AllocFailed<T>> for Unread {
    ghost from_gives = { λ _ e. e ≡ NoMemory };

    fn from(_: AllocFailed<T>) -> Unread {
        Unread::NoMemory
    }
}

impl From<ddc_names::NoMemory> for Unread {
    ghost from_gives = { λ _ e. e ≡ NoMemory };

    fn from(_: ddc_names::NoMemory) -> Unread {
        Unread::NoMemory
    }
}

#[tactic(auto, unfolding(crate::specs::inside::Reading::four_at, crate::specs::inside::Reading::bytes_at))]
pub fn take_four(bytes: &[u8]) -> Result<(u32, &[u8]), Unread>
    ensures { ReadsAs (λ x. (x.0, x.1.now)) result (four_at bytes.now) }
{
    match bytes.split_first_chunk::<4>() {
        Some((front, rest)) => Ok((u32::from_le_bytes(*front), rest)),
        None => Err(Unread::Refused),
    }
}

#[tactic(auto, unfolding(crate::specs::inside::Reading::eight_at, crate::specs::inside::Reading::bytes_at))]
pub fn take_eight(bytes: &[u8]) -> Result<(u64, &[u8]), Unread>
    ensures { ReadsAs (λ x. (x.0, x.1.now)) result (eight_at bytes.now) }
{
    match bytes.split_first_chunk::<8>() {
        Some((front, rest)) => Ok((u64::from_le_bytes(*front), rest)),
        None => Err(Unread::Refused),
    }
}

// Names take no memory. They come in an `Option`, which is matched: `?` on a name beside the bytes after
// it has no proof.

// A length byte and so many bytes.
#[tactic(auto, unfolding(crate::specs::inside::Reading::sized_at, crate::specs::inside::Reading::bytes_at))]
fn take_sized(bytes: &[u8]) -> Option<(&[u8], &[u8])>
    ensures { option_map (λ x. (x.0.now, x.1.now)) result ≡ sized_at bytes.now }
{
    match bytes {
        [] => None,
        [len, rest @ ..] => rest.split_at_checked(*len as usize),
    }
}

fn namespace_of(text: &[u8]) -> Option<Namespace>
    ensures { result ≡ result_ok (name_of text.now) }
{
    match str::from_utf8(text) {
        Ok(text) => match Namespace::parse(text) {
            Ok(space) => Some(space),
            Err(_) => None,
        },
        Err(_) => None,
    }
}

fn bucket_of(text: &[u8]) -> Option<Bucket>
    ensures { result ≡ result_ok (name_of text.now) }
{
    match str::from_utf8(text) {
        Ok(text) => match Bucket::parse(text) {
            Ok(bucket) => Some(bucket),
            Err(_) => None,
        },
        Err(_) => None,
    }
}

#[tactic(auto, unfolding(crate::specs::inside::Reading::name_at))]
pub fn take_space(bytes: &[u8]) -> Option<(Namespace, &[u8])>
    ensures { option_map (λ x. (x.0, x.1.now)) result ≡ name_at bytes.now }
{
    let (text, rest) = take_sized(bytes)?;
    match namespace_of(text) {
        Some(space) => Some((space, rest)),
        None => None,
    }
}

#[tactic(auto, unfolding(crate::specs::inside::Reading::name_at))]
fn take_bucket(bytes: &[u8]) -> Option<(Bucket, &[u8])>
    ensures { option_map (λ x. (x.0, x.1.now)) result ≡ name_at bytes.now }
{
    let (text, rest) = take_sized(bytes)?;
    match bucket_of(text) {
        Some(bucket) => Some((bucket, rest)),
        None => None,
    }
}

#[tactic(auto, unfolding(crate::specs::inside::Reading::hash_at, crate::specs::inside::Reading::bytes_at))]
pub fn take_hash(bytes: &[u8]) -> Result<(IoHash, &[u8]), Unread>
    ensures { ReadsAs (λ x. (x.0, x.1.now)) result (hash_at bytes.now) }
{
    match bytes.split_first_chunk::<20>() {
        Some((front, rest)) => Ok((IoHash(*front), rest)),
        None => Err(Unread::Refused),
    }
}

#[tactic(auto, unfolding(crate::specs::inside::Reading::key_at, crate::specs::inside::Reading::bytes_at))]
fn take_key(bytes: &[u8]) -> Option<(RefKey, &[u8])>
    ensures { option_map (λ x. (x.0, x.1.now)) result ≡ key_at bytes.now }
{
    match bytes.split_first_chunk::<20>() {
        Some((front, rest)) => Some((RefKey(*front), rest)),
        None => None,
    }
}

#[tactic(auto, unfolding(crate::specs::inside::Reading::spot_at))]
pub fn take_spot(bytes: &[u8]) -> Option<(RefSpot, &[u8])>
    ensures { option_map (λ x. (x.0, x.1.now)) result ≡ spot_at bytes.now }
{
    let Some((bucket, rest)) = take_bucket(bytes) else {
        return None;
    };
    let (key, rest) = take_key(rest)?;
    Some((RefSpot { bucket, key }, rest))
}

#[tactic(auto, unfolding(crate::specs::inside::Reading::ref_name_at))]
pub fn take_ref_name(bytes: &[u8]) -> Option<(RefName, &[u8])>
    ensures { option_map (λ x. (x.0, x.1.now)) result ≡ ref_name_at bytes.now }
{
    let Some((space, rest)) = take_space(bytes) else {
        return None;
    };
    let Some((spot, rest)) = take_spot(rest) else {
        return None;
    };
    Some((RefName { space, spot }, rest))
}

#[tactic(auto, unfolding(crate::specs::inside::Reading::flag_at))]
pub fn take_flag(bytes: &[u8]) -> Result<(bool, &[u8]), Unread>
    ensures { ReadsAs (λ x. (x.0, x.1.now)) result (flag_at bytes.now) }
{
    match bytes {
        [0, rest @ ..] => Ok((false, rest)),
        [1, rest @ ..] => Ok((true, rest)),
        _ => Err(Unread::Refused),
    }
}

#[tactic(auto, unfolding(crate::specs::inside::Reading::kind_at))]
fn take_kind(bytes: &[u8]) -> Result<(LinkKind, &[u8]), Unread>
    ensures { ReadsAs (λ x. (x.0, x.1.now)) result (kind_at bytes.now) }
{
    match bytes {
        [0, rest @ ..] => Ok((LinkKind::Object, rest)),
        [1, rest @ ..] => Ok((LinkKind::Binary, rest)),
        _ => Err(Unread::Refused),
    }
}

#[tactic(auto, unfolding(crate::specs::inside::Reading::link_at))]
fn take_link(bytes: &[u8]) -> Result<(Link, &[u8]), Unread>
    ensures { ReadsAs (λ x. (x.0, x.1.now)) result (link_at bytes.now) }
{
    let (kind, rest) = take_kind(bytes)?;
    let (hash, rest) = take_hash(rest)?;
    Ok((Link { kind, hash }, rest))
}

// The list takes memory for the links that were read alone, whatever the count says.
fn take_links(alloc: Global, count: u32, bytes: &[u8]) -> Result<(Vec<Link>, &[u8]), Unread>
    ensures { ReadsAs (λ x. (x.0.items, x.1.now)) result (many_at link_at count bytes.now) }
{
    let mut links = Vec::new(alloc);
    let mut rest = bytes;
    for _ in 0..count {
        let (link, behind) = take_link(rest)?;
        links.push(link)?;
        rest = behind;
    }
    Ok((links, rest))
}

#[tactic(auto, unfolding(crate::specs::inside::Reading::counted_at))]
fn take_counted_links(alloc: Global, bytes: &[u8]) -> Result<(Rows<Link>, &[u8]), Unread>
    ensures { ReadsAs (λ x. (x.0, x.1.now)) result (counted_at four_at link_at bytes.now) }
{
    let (count, rest) = take_four(bytes)?;
    let (links, rest) = take_links(alloc, count, rest)?;
    Ok((Rows::of_vec(links), rest))
}

#[tactic(auto, unfolding(crate::specs::inside::Reading::stored_at))]
pub fn take_stored(alloc: Global, bytes: &[u8]) -> Result<(Stored, &[u8]), Unread>
    ensures { ReadsAs (λ x. (x.0, x.1.now)) result (stored_at bytes.now) }
{
    let (hash, rest) = take_hash(bytes)?;
    let (len, rest) = take_eight(rest)?;
    let (start, rest) = take_eight(rest)?;
    let (links, rest) = take_counted_links(alloc, rest)?;
    Ok((
        Stored {
            hash,
            len,
            start,
            links,
        },
        rest,
    ))
}

// The byte 0, or 1 and a blob.
#[tactic(auto, unfolding(crate::specs::inside::Reading::optional_at))]
pub fn take_fresh(alloc: Global, bytes: &[u8]) -> Result<(Option<Stored>, &[u8]), Unread>
    ensures { ReadsAs (λ x. (x.0, x.1.now)) result (optional_at stored_at bytes.now) }
{
    match bytes {
        [0, rest @ ..] => Ok((None, rest)),
        [1, rest @ ..] => {
            let (blob, rest) = take_stored(alloc, rest)?;
            Ok((Some(blob), rest))
        }
        _ => Err(Unread::Refused),
    }
}

// The byte 0, or 1 and a hash.
#[tactic(auto, unfolding(crate::specs::inside::Reading::optional_at))]
pub fn take_optional_hash(bytes: &[u8]) -> Result<(Option<IoHash>, &[u8]), Unread>
    ensures { ReadsAs (λ x. (x.0, x.1.now)) result (optional_at hash_at bytes.now) }
{
    match bytes {
        [0, rest @ ..] => Ok((None, rest)),
        [1, rest @ ..] => {
            let (hash, rest) = take_hash(rest)?;
            Ok((Some(hash), rest))
        }
        _ => Err(Unread::Refused),
    }
}

// The byte 0, or 1 and a spot.
#[tactic(auto, unfolding(crate::specs::inside::Reading::optional_at))]
pub fn take_optional_spot(bytes: &[u8]) -> Option<(Option<RefSpot>, &[u8])>
    ensures { option_map (λ x. (x.0, x.1.now)) result ≡ optional_at spot_at bytes.now }
{
    match bytes {
        [0, rest @ ..] => Some((None, rest)),
        [1, rest @ ..] => {
            let Some((spot, rest)) = take_spot(rest) else {
                return None;
            };
            Some((Some(spot), rest))
        }
        _ => None,
    }
}

// The byte 0 and a hash, or 1.
#[tactic(auto, unfolding(crate::specs::inside::Reading::op_at))]
pub fn take_op(bytes: &[u8]) -> Result<(EventOp, &[u8]), Unread>
    ensures { ReadsAs (λ x. (x.0, x.1.now)) result (op_at bytes.now) }
{
    match bytes {
        [0, rest @ ..] => {
            let (object, rest) = take_hash(rest)?;
            Ok((EventOp::Added(object), rest))
        }
        [1, rest @ ..] => Ok((EventOp::Deleted, rest)),
        _ => Err(Unread::Refused),
    }
}

// A count of 1 to 64.
#[tactic(auto, unfolding(crate::specs::inside::Reading::count_at))]
fn take_count(bytes: &[u8]) -> Result<(u8, &[u8]), Unread>
    ensures { ReadsAs (λ x. (x.0, x.1.now)) result (count_at bytes.now) }
{
    match bytes {
        [count @ 1..=64, rest @ ..] => Ok((*count, rest)),
        _ => Err(Unread::Refused),
    }
}

fn take_spots(alloc: Global, count: u8, bytes: &[u8]) -> Result<(Vec<RefSpot>, &[u8]), Unread>
    ensures { ReadsAs (λ x. (x.0.items, x.1.now)) result (many_at spot_at count bytes.now) }
{
    let mut spots = Vec::new(alloc);
    let mut rest = bytes;
    for _ in 0..count {
        let Some((spot, behind)) = take_spot(rest) else {
            return Err(Unread::Refused);
        };
        spots.push(spot)?;
        rest = behind;
    }
    Ok((spots, rest))
}

fn take_hashes(alloc: Global, count: u8, bytes: &[u8]) -> Result<(Vec<IoHash>, &[u8]), Unread>
    ensures { ReadsAs (λ x. (x.0.items, x.1.now)) result (many_at hash_at count bytes.now) }
{
    let mut hashes = Vec::new(alloc);
    let mut rest = bytes;
    for _ in 0..count {
        let (hash, behind) = take_hash(rest)?;
        hashes.push(hash)?;
        rest = behind;
    }
    Ok((hashes, rest))
}

#[tactic(auto, unfolding(crate::specs::inside::Reading::counted_at))]
pub fn take_counted_spots(alloc: Global, bytes: &[u8]) -> Result<(Rows<RefSpot>, &[u8]), Unread>
    ensures { ReadsAs (λ x. (x.0, x.1.now)) result (counted_at count_at spot_at bytes.now) }
{
    let (count, rest) = take_count(bytes)?;
    let (spots, rest) = take_spots(alloc, count, rest)?;
    Ok((Rows::of_vec(spots), rest))
}

#[tactic(auto, unfolding(crate::specs::inside::Reading::counted_at))]
pub fn take_counted_hashes(alloc: Global, bytes: &[u8]) -> Result<(Rows<IoHash>, &[u8]), Unread>
    ensures { ReadsAs (λ x. (x.0, x.1.now)) result (counted_at count_at hash_at bytes.now) }
{
    let (count, rest) = take_count(bytes)?;
    let (hashes, rest) = take_hashes(alloc, count, rest)?;
    Ok((Rows::of_vec(hashes), rest))
}
