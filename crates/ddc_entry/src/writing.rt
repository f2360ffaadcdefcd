//! Entries, written as bytes.

ghost use Rattle.std.specs.Prelude.{◌≡◌, ◌≤◌, ◌++◌, ◌∷◌, [], length, IfOk, OnOk, IfSome};
ghost use Rattle.std.specs.List.{AllByRecursion, flat_map};
ghost use Rattle.ddc_model.specs.Counts.{added_links, fresh_of};
ghost use Rattle.ddc_model.specs.Limits.{most_links};
ghost use Rattle.ddc_model.specs.declared.entry.Entry.TheVariants.{Space, Upload, Repin, Put, Finalise, Delete, Touch, Expire, Swept, BaseHour, BaseSlot, BaseEvent};
ghost use Rattle.ddc_entry.specs.Spelling.{cursor_bytes, eight_bytes, flag, four_bytes, kind_byte, link_bytes, name, op_bytes, optional, ref_name, spelling, spot, stored_bytes, twenty_bytes, AreTwenty, IsCount, IsCursor, IsEntry, IsHash, IsLink, IsName, IsOp, IsRefName, IsSpot, IsStored, RemovalCountFits};

use cb_fields::{Link, LinkKind};
use ddc_model::{Cursor, Entry, Stored};
use ddc_names::{Bucket, ByteList, IoHash, Namespace, NoMemory, RefName, RefSpot};
use replication_log::EventOp;
use std::alloc::{AllocError, Global};

fn push_four(out: &mut Vec<u8>, number: u32) -> Result<(), AllocError>
    ensures { OnOk result (out.new.items ≡ out.old.items ++ four_bytes number) }
{
    out.extend_from_slice(&number.to_le_bytes())?;
    Ok(())
}

fn push_eight(out: &mut Vec<u8>, number: u64) -> Result<(), AllocError>
    ensures { OnOk result (out.new.items ≡ out.old.items ++ eight_bytes number) }
{
    out.extend_from_slice(&number.to_le_bytes())?;
    Ok(())
}

// A length byte and the text.
fn push_name(out: &mut Vec<u8>, text: &str) -> Result<(), AllocError>
    requires { IsName text.now }
    ensures { OnOk result (out.new.items ≡ out.old.items ++ name text.now) }
{
    out.push(text.len() as u8)?;
    out.extend_from_slice(text.as_bytes())?;
    Ok(())
}

fn push_space(out: &mut Vec<u8>, space: &Namespace) -> Result<(), AllocError>
    ensures bytes { OnOk result (out.new.items ≡ out.old.items ++ name space.now) }
    ensures fits { OnOk result (IsName space.now) }
{
    push_name(out, space.as_str())?;
    Ok(())
}

fn push_bucket(out: &mut Vec<u8>, bucket: &Bucket) -> Result<(), AllocError>
    ensures bytes { OnOk result (out.new.items ≡ out.old.items ++ name bucket.now) }
    ensures fits { OnOk result (IsName bucket.now) }
{
    push_name(out, bucket.as_str())?;
    Ok(())
}

fn push_twenty(out: &mut Vec<u8>, bytes: &[u8; 20]) -> Result<(), AllocError>
    ensures bytes { OnOk result (out.new.items ≡ out.old.items ++ bytes.now) }
    ensures fits { OnOk result (AreTwenty bytes.now) }
{
    out.extend_from_slice(bytes)?;
    Ok(())
}

fn push_spot(out: &mut Vec<u8>, place: &RefSpot) -> Result<(), AllocError>
    ensures bytes { OnOk result (out.new.items ≡ out.old.items ++ spot place.now) }
    ensures fits { OnOk result (IsSpot place.now) }
{
    push_bucket(out, &place.bucket)?;
    push_twenty(out, &place.key.0)?;
    Ok(())
}

fn push_ref_name(out: &mut Vec<u8>, whole: &RefName) -> Result<(), AllocError>
    ensures bytes { OnOk result (out.new.items ≡ out.old.items ++ ref_name whole.now) }
    ensures fits { OnOk result (IsRefName whole.now) }
{
    push_space(out, &whole.space)?;
    push_spot(out, &whole.spot)?;
    Ok(())
}

fn flag_of(yes: bool) -> u8
    ensures { result ≡ flag yes }
{
    if yes { 1 } else { 0 }
}

fn kind_of(kind: LinkKind) -> u8
    ensures { result ≡ kind_byte kind }
{
    match kind {
        LinkKind::Object => 0,
        LinkKind::Binary => 1,
    }
}

fn push_link(out: &mut Vec<u8>, to: &Link) -> Result<(), AllocError>
    ensures bytes { OnOk result (out.new.items ≡ out.old.items ++ link_bytes to.now) }
    ensures fits { OnOk result (IsLink to.now) }
{
    out.push(kind_of(to.kind))?;
    push_twenty(out, &to.hash.0)?;
    Ok(())
}

// The links, without their count.
fn push_links(out: &mut Vec<u8>, links: &[Link]) -> Result<(), AllocError>
    ensures bytes { OnOk result (out.new.items ≡ out.old.items ++ flat_map link_bytes links.now) }
    ensures fits { OnOk result (AllByRecursion IsLink links.now) }
{
    for to in links {
        push_link(out, to)?;
    }
    Ok(())
}

fn push_stored(out: &mut Vec<u8>, blob: &Stored) -> Result<(), AllocError>
    requires { length blob.now.links ≤ most_links }
    ensures bytes { OnOk result (out.new.items ≡ out.old.items ++ stored_bytes blob.now) }
    ensures fits { OnOk result (IsStored blob.now) }
{
    push_twenty(out, &blob.hash.0)?;
    push_eight(out, blob.len)?;
    push_eight(out, blob.start)?;
    push_four(out, blob.links.len() as u32)?;
    push_links(out, blob.links.as_slice())?;
    Ok(())
}

fn push_fresh(out: &mut Vec<u8>, fresh: &Option<Stored>) -> Result<(), AllocError>
    requires { added_links fresh.now ≤ most_links }
    ensures bytes { OnOk result (out.new.items ≡ out.old.items ++ optional stored_bytes fresh.now) }
    ensures fits { OnOk result (IfSome fresh.now IsStored) }
{
    match fresh {
        None => {
            out.push(0)?;
            Ok(())
        }
        Some(blob) => {
            out.push(1)?;
            push_stored(out, blob)?;
            Ok(())
        }
    }
}

fn push_optional_hash(out: &mut Vec<u8>, hash: &Option<IoHash>) -> Result<(), AllocError>
    ensures bytes { OnOk result (out.new.items ≡ out.old.items ++ optional twenty_bytes hash.now) }
    ensures fits { OnOk result (IfSome hash.now IsHash) }
{
    match hash {
        None => {
            out.push(0)?;
            Ok(())
        }
        Some(hash) => {
            out.push(1)?;
            push_twenty(out, &hash.0)?;
            Ok(())
        }
    }
}

fn push_optional_spot(out: &mut Vec<u8>, place: &Option<RefSpot>) -> Result<(), AllocError>
    ensures bytes { OnOk result (out.new.items ≡ out.old.items ++ optional spot place.now) }
    ensures fits { OnOk result (IfSome place.now IsSpot) }
{
    match place {
        None => {
            out.push(0)?;
            Ok(())
        }
        Some(place) => {
            out.push(1)?;
            push_spot(out, place)?;
            Ok(())
        }
    }
}

fn push_op(out: &mut Vec<u8>, op: &EventOp) -> Result<(), AllocError>
    ensures bytes { OnOk result (out.new.items ≡ out.old.items ++ op_bytes op.now) }
    ensures fits { OnOk result (IsOp op.now) }
{
    match op {
        EventOp::Added(object) => {
            out.push(0)?;
            push_twenty(out, &object.0)?;
            Ok(())
        }
        EventOp::Deleted => {
            out.push(1)?;
            Ok(())
        }
    }
}

fn push_cursor_fields(out: &mut Vec<u8>, cursor: &Cursor) -> Result<(), AllocError>
    ensures bytes { OnOk result (out.new.items ≡ out.old.items ++ cursor_bytes cursor.now) }
    ensures fits { OnOk result (IsCursor cursor.now) }
{
    out.push(flag_of(cursor.walking))?;
    push_eight(out, cursor.after)?;
    push_eight(out, cursor.top)?;
    push_optional_spot(out, &cursor.from)?;
    Ok(())
}

// The spots, without their count.
fn push_spots(out: &mut Vec<u8>, spots: &[RefSpot]) -> Result<(), AllocError>
    ensures bytes { OnOk result (out.new.items ≡ out.old.items ++ flat_map spot spots.now) }
    ensures fits { OnOk result (AllByRecursion IsSpot spots.now) }
{
    for place in spots {
        push_spot(out, place)?;
    }
    Ok(())
}

// The hashes, without their count.
fn push_hashes(out: &mut Vec<u8>, hashes: &[IoHash]) -> Result<(), AllocError>
    ensures bytes { OnOk result (out.new.items ≡ out.old.items ++ flat_map twenty_bytes hashes.now) }
    ensures fits { OnOk result (AllByRecursion IsHash hashes.now) }
{
    for hash in hashes {
        push_twenty(out, &hash.0)?;
    }
    Ok(())
}

fn push_space_entry(
    out: &mut Vec<u8>,
    space: &Namespace,
    ttl: u32,
    pin: u32,
) -> Result<(), AllocError>
    ensures bytes { OnOk result (out.new.items ≡ out.old.items ++ spelling (Space space.now ttl pin)) }
    ensures fits { OnOk result (IsEntry (Space space.now ttl pin)) }
{
    out.push(0x01)?;
    push_space(out, space)?;
    push_four(out, ttl)?;
    push_four(out, pin)?;
    Ok(())
}

fn push_upload(
    out: &mut Vec<u8>,
    space: &Namespace,
    blob: &Stored,
    hour: u32,
) -> Result<(), AllocError>
    requires { length blob.now.links ≤ most_links }
    ensures bytes { OnOk result (out.new.items ≡ out.old.items ++ spelling (Upload space.now hour blob.now)) }
    ensures fits { OnOk result (IsEntry (Upload space.now hour blob.now)) }
{
    out.push(0x02)?;
    push_space(out, space)?;
    push_stored(out, blob)?;
    push_four(out, hour)?;
    Ok(())
}

fn push_repin(
    out: &mut Vec<u8>,
    space: &Namespace,
    hash: &IoHash,
    hour: u32,
) -> Result<(), AllocError>
    ensures bytes { OnOk result (out.new.items ≡ out.old.items ++ spelling (Repin space.now hash.now hour)) }
    ensures fits { OnOk result (IsEntry (Repin space.now hash.now hour)) }
{
    out.push(0x03)?;
    push_space(out, space)?;
    push_twenty(out, &hash.0)?;
    push_four(out, hour)?;
    Ok(())
}

fn push_put(
    out: &mut Vec<u8>,
    name: &RefName,
    root: &IoHash,
    fresh: &Option<Stored>,
    whole: bool,
    hour: u32,
) -> Result<(), AllocError>
    requires { added_links fresh.now ≤ most_links }
    ensures bytes { OnOk result (out.new.items ≡ out.old.items ++ spelling (Put name.now root.now fresh.now whole hour)) }
    ensures fits { OnOk result (IsEntry (Put name.now root.now fresh.now whole hour)) }
{
    out.push(0x04)?;
    push_ref_name(out, name)?;
    push_twenty(out, &root.0)?;
    push_fresh(out, fresh)?;
    out.push(flag_of(whole))?;
    push_four(out, hour)?;
    Ok(())
}

fn push_finalise(
    out: &mut Vec<u8>,
    name: &RefName,
    hash: &IoHash,
    hour: u32,
) -> Result<(), AllocError>
    ensures bytes { OnOk result (out.new.items ≡ out.old.items ++ spelling (Finalise name.now hash.now hour)) }
    ensures fits { OnOk result (IsEntry (Finalise name.now hash.now hour)) }
{
    out.push(0x05)?;
    push_ref_name(out, name)?;
    push_twenty(out, &hash.0)?;
    push_four(out, hour)?;
    Ok(())
}

fn push_delete(out: &mut Vec<u8>, name: &RefName, hour: u32) -> Result<(), AllocError>
    ensures bytes { OnOk result (out.new.items ≡ out.old.items ++ spelling (Delete name.now hour)) }
    ensures fits { OnOk result (IsEntry (Delete name.now hour)) }
{
    out.push(0x06)?;
    push_ref_name(out, name)?;
    push_four(out, hour)?;
    Ok(())
}

fn push_touch(out: &mut Vec<u8>, name: &RefName, hour: u32) -> Result<(), AllocError>
    ensures bytes { OnOk result (out.new.items ≡ out.old.items ++ spelling (Touch name.now hour)) }
    ensures fits { OnOk result (IsEntry (Touch name.now hour)) }
{
    out.push(0x07)?;
    push_ref_name(out, name)?;
    push_four(out, hour)?;
    Ok(())
}

fn push_expire(
    out: &mut Vec<u8>,
    space: &Namespace,
    spots: &[RefSpot],
    hour: u32,
) -> Result<(), AllocError>
    requires { IsCount (length spots.now) }
    ensures bytes { OnOk result (out.new.items ≡ out.old.items ++ spelling (Expire space.now spots.now hour)) }
    ensures fits { OnOk result (IsEntry (Expire space.now spots.now hour)) }
{
    out.push(0x08)?;
    push_space(out, space)?;
    out.push(spots.len() as u8)?;
    push_spots(out, spots)?;
    push_four(out, hour)?;
    Ok(())
}

fn push_swept(out: &mut Vec<u8>, space: &Namespace, hashes: &[IoHash]) -> Result<(), AllocError>
    requires { IsCount (length hashes.now) }
    ensures bytes { OnOk result (out.new.items ≡ out.old.items ++ spelling (Swept space.now hashes.now)) }
    ensures fits { OnOk result (IsEntry (Swept space.now hashes.now)) }
{
    out.push(0x09)?;
    push_space(out, space)?;
    out.push(hashes.len() as u8)?;
    push_hashes(out, hashes)?;
    Ok(())
}

fn push_cursor(out: &mut Vec<u8>, space: &Namespace, cursor: &Cursor) -> Result<(), AllocError>
    ensures bytes { OnOk result (out.new.items ≡ out.old.items ++ spelling (Entry.Cursor space.now cursor.now)) }
    ensures fits { OnOk result (IsEntry (Entry.Cursor space.now cursor.now)) }
{
    out.push(0x0a)?;
    push_space(out, space)?;
    push_cursor_fields(out, cursor)?;
    Ok(())
}

fn push_base_hour(out: &mut Vec<u8>, hour: u32) -> Result<(), AllocError>
    ensures bytes { OnOk result (out.new.items ≡ out.old.items ++ spelling (BaseHour hour)) }
    ensures fits { OnOk result (IsEntry (BaseHour hour)) }
{
    out.push(0x0b)?;
    push_four(out, hour)?;
    Ok(())
}

fn push_base_slot(
    out: &mut Vec<u8>,
    name: &RefName,
    done: &Option<IoHash>,
    pending: &Option<IoHash>,
    seen: u32,
) -> Result<(), AllocError>
    ensures bytes { OnOk result (out.new.items ≡ out.old.items ++ spelling (BaseSlot name.now done.now pending.now seen)) }
    ensures fits { OnOk result (IsEntry (BaseSlot name.now done.now pending.now seen)) }
{
    out.push(0x0c)?;
    push_ref_name(out, name)?;
    push_optional_hash(out, done)?;
    push_optional_hash(out, pending)?;
    push_four(out, seen)?;
    Ok(())
}

// The number stands between the namespace and the spot.
fn push_base_event(
    out: &mut Vec<u8>,
    name: &RefName,
    number: u64,
    op: &EventOp,
) -> Result<(), AllocError>
    ensures bytes { OnOk result (out.new.items ≡ out.old.items ++ spelling (BaseEvent name.now number op.now)) }
    ensures fits { OnOk result (IsEntry (BaseEvent name.now number op.now)) }
{
    out.push(0x0d)?;
    push_space(out, &name.space)?;
    push_eight(out, number)?;
    push_spot(out, &name.spot)?;
    push_op(out, op)?;
    Ok(())
}

fn push_entry(out: &mut Vec<u8>, entry: &Entry) -> Result<(), AllocError>
    requires few_links { added_links (fresh_of entry.now) ≤ most_links }
    requires count_fits { RemovalCountFits entry.now }
    ensures bytes { OnOk result (out.new.items ≡ out.old.items ++ spelling entry.now) }
    ensures fits { OnOk result (IsEntry entry.now) }
{
    match entry {
        Entry::Space { space, ttl, pin } => push_space_entry(out, space, *ttl, *pin)?,
        Entry::Upload { space, hour, blob } => push_upload(out, space, blob, *hour)?,
        Entry::Repin { space, hash, hour } => push_repin(out, space, hash, *hour)?,
        Entry::Put {
            name,
            root,
            fresh,
            whole,
            hour,
        } => push_put(out, name.get(), root, fresh, *whole, *hour)?,
        Entry::Finalise { name, hash, hour } => push_finalise(out, name.get(), hash, *hour)?,
        Entry::Delete { name, hour } => push_delete(out, name.get(), *hour)?,
        Entry::Touch { name, hour } => push_touch(out, name.get(), *hour)?,
        Entry::Expire { space, spots, hour } => push_expire(out, space, spots.as_slice(), *hour)?,
        Entry::Swept { space, hashes } => push_swept(out, space, hashes.as_slice())?,
        Entry::Cursor { space, cursor } => push_cursor(out, space, cursor.get())?,
        Entry::BaseHour { hour } => push_base_hour(out, *hour)?,
        Entry::BaseSlot {
            name,
            done,
            pending,
            seen,
        } => push_base_slot(out, name.get(), done, pending, *seen)?,
        Entry::BaseEvent { name, number, op } => push_base_event(out, name.get(), *number, op)?,
    }
    Ok(())
}

/// The spelling of an entry. Its conditions are that a blob which the entry adds has at most 4,194,304
/// links, and that an entry which takes away several references or blobs names 1 to 64 of them.
///
/// # Errors
///
/// `NoMemory` where there is none for the bytes.
pub fn write_entry(alloc: Global, entry: &Entry) -> Result<ByteList, NoMemory>
    requires few_links { added_links (fresh_of entry.now) ≤ most_links }
    requires count_fits { RemovalCountFits entry.now }
    ensures bytes { IfOk result (λ bytes. bytes ≡ spelling entry.now) }
    ensures entry { OnOk result (IsEntry entry.now) }
{
    let mut out = Vec::new(alloc);
    push_entry(&mut out, entry)?;
    Ok(ByteList::of_vec(out))
}
