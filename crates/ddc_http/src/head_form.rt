// What a request head asks for.
ghost use Rattle.std.specs.Prelude.{◌≡◌, length, map, All, option_map};
ghost use Rattle.std.specs.List.{position};
ghost use Rattle.std.specs.Option.{option_zip};
ghost use Rattle.std.specs.Result.{result_ok};
ghost use Rattle.httparse.specs.Spans.{IsHeaderWithin, header_bytes};
ghost use Rattle.ddc_names.specs.Names.{name_of, key_of, hash_of};
ghost use Rattle.ddc_protocol.specs.HeadForms.{is_slash, cut_text, space_and_hash, spot_of, spot_in, ref_named, finalize_hash, spot_and_hash_in, ref_and_hash, blob_form, ref_form, finalise_form, refs_form, target_form, request_form};

use crate::fields::{is_absent, is_of_type, is_without_body, put_length};
use ddc_model::MOST_BLOB_BYTES;
use ddc_names::{Bucket, IoHash, Namespace, RefKey, RefName, RefSpot};
use ddc_protocol::RequestForm;
use httparse::spans::HeaderSpan;
use std::str;

/// The most bytes of an object that is put under a reference.
const MOST_OBJECT_BYTES: u64 = 16_777_216;

fn space_of(text: &[u8]) -> Option<Namespace>
    ensures { result ≡ result_ok (name_of text.now) }
{
    match str::from_utf8(text) {
        Ok(text) => Namespace::parse(text).ok(),
        Err(_) => None,
    }
}

fn bucket_of(text: &[u8]) -> Option<Bucket>
    ensures { result ≡ result_ok (name_of text.now) }
{
    match str::from_utf8(text) {
        Ok(text) => Bucket::parse(text).ok(),
        Err(_) => None,
    }
}

fn key_of(text: &[u8]) -> Option<RefKey>
    ensures { result ≡ result_ok (key_of text.now) }
{
    match str::from_utf8(text) {
        Ok(text) => RefKey::parse(text).ok(),
        Err(_) => None,
    }
}

fn hash_of(text: &[u8]) -> Option<IoHash>
    ensures { result ≡ hash_of text.now }
{
    match str::from_utf8(text) {
        Ok(text) => IoHash::parse(text),
        Err(_) => None,
    }
}

fn slash_of(text: &[u8]) -> Option<usize>
    ensures { result ≡ position is_slash text.now }
{
    text.iter().position(|byte| *byte == b'/')
}

// What stands before and after the first slash.
fn cut_text(text: &[u8]) -> Option<(&[u8], &[u8])>
    ensures { option_map (λ parts. (parts.0.now, parts.1.now)) result ≡ cut_text text.now }
{
    match slash_of(text) {
        Some(slash) => Some((&text[..slash], &text[slash + 1..])),
        None => None,
    }
}

fn space_and_hash(text: &[u8]) -> Option<(Namespace, IoHash)>
    ensures { result ≡ space_and_hash text.now }
{
    let (space, hash) = cut_text(text)?;
    space_of(space).zip(hash_of(hash))
}

fn spot_of(bucket: &[u8], key: &[u8]) -> Option<RefSpot>
    ensures { result ≡ spot_of (option_zip (result_ok (name_of bucket.now)) (result_ok (key_of key.now))) }
{
    let (bucket, key) = bucket_of(bucket).zip(key_of(key))?;
    Some(RefSpot { bucket, key })
}

fn spot_named(text: &[u8]) -> Option<RefSpot>
    ensures { result ≡ spot_in (cut_text text.now) }
{
    let (bucket, key) = cut_text(text)?;
    spot_of(bucket, key)
}

fn ref_named(text: &[u8]) -> Option<RefName>
    ensures { result ≡ ref_named text.now }
{
    let (space, spot) = cut_text(text)?;
    let (space, spot) = space_of(space).zip(spot_named(spot))?;
    Some(RefName { space, spot })
}

fn finalize_hash(text: &[u8]) -> Option<IoHash>
    ensures { result ≡ finalize_hash text.now }
{
    let prefix = b"finalize/".as_slice();
    if text.starts_with(prefix) {
        hash_of(&text[prefix.len()..])
    } else {
        None
    }
}

fn spot_and_hash(text: &[u8]) -> Option<(RefSpot, IoHash)>
    ensures { result ≡ spot_and_hash_in (cut_text text.now) }
{
    let (bucket, rest) = cut_text(text)?;
    let (key, rest) = cut_text(rest)?;
    spot_of(bucket, key).zip(finalize_hash(rest))
}

fn ref_and_hash(text: &[u8]) -> Option<(RefName, IoHash)>
    ensures { result ≡ ref_and_hash text.now }
{
    let (space, rest) = cut_text(text)?;
    let (space, (spot, hash)) = space_of(space).zip(spot_and_hash(rest))?;
    Some((RefName { space, spot }, hash))
}

fn blob_form(
    method: &[u8],
    buf: &[u8],
    headers: &[HeaderSpan],
    blob: Option<(Namespace, IoHash)>,
) -> Option<RequestForm>
    requires { All (IsHeaderWithin (length buf.now)) headers.now }
    ensures { result ≡ blob_form method.now (map (header_bytes buf.now) headers.now) blob }
{
    let (space, hash) = blob?;
    if method == b"PUT".as_slice() && is_of_type(b"application/octet-stream", buf, headers) {
        let size = put_length(MOST_BLOB_BYTES, buf, headers)?;
        Some(RequestForm::PutBlob(space, hash, size))
    } else if method == b"GET".as_slice() && is_without_body(buf, headers) {
        Some(RequestForm::GetBlob(space, hash))
    } else {
        None
    }
}

fn ref_form(
    method: &[u8],
    buf: &[u8],
    headers: &[HeaderSpan],
    name: Option<RefName>,
) -> Option<RequestForm>
    requires { All (IsHeaderWithin (length buf.now)) headers.now }
    ensures { result ≡ ref_form method.now (map (header_bytes buf.now) headers.now) name }
{
    let name = name?;
    if method == b"PUT".as_slice() && is_of_type(b"application/x-ue-cb", buf, headers) {
        let size = put_length(MOST_OBJECT_BYTES, buf, headers)?;
        Some(RequestForm::PutRef(name, size))
    } else if method == b"GET".as_slice() && is_without_body(buf, headers) {
        Some(RequestForm::GetRef(name))
    } else {
        None
    }
}

fn finalise_form(
    buf: &[u8],
    headers: &[HeaderSpan],
    named: Option<(RefName, IoHash)>,
) -> Option<RequestForm>
    requires { All (IsHeaderWithin (length buf.now)) headers.now }
    ensures { result ≡ finalise_form (map (header_bytes buf.now) headers.now) named }
{
    let (name, hash) = named?;
    if is_without_body(buf, headers) {
        Some(RequestForm::Finalise(name, hash))
    } else {
        None
    }
}

fn refs_form(method: &[u8], text: &[u8], buf: &[u8], headers: &[HeaderSpan]) -> Option<RequestForm>
    requires { All (IsHeaderWithin (length buf.now)) headers.now }
    ensures { result ≡ refs_form method.now (map (header_bytes buf.now) headers.now) text.now }
{
    if method == b"POST".as_slice() {
        finalise_form(buf, headers, ref_and_hash(text))
    } else {
        ref_form(method, buf, headers, ref_named(text))
    }
}

fn target_form(
    method: &[u8],
    target: &[u8],
    buf: &[u8],
    headers: &[HeaderSpan],
) -> Option<RequestForm>
    requires { All (IsHeaderWithin (length buf.now)) headers.now }
    ensures { result ≡ target_form method.now (map (header_bytes buf.now) headers.now) target.now }
{
    let blobs = b"/api/v1/blobs/".as_slice();
    let refs = b"/api/v1/refs/".as_slice();
    if target.starts_with(blobs) {
        blob_form(method, buf, headers, space_and_hash(&target[blobs.len()..]))
    } else if target.starts_with(refs) {
        refs_form(method, &target[refs.len()..], buf, headers)
    } else {
        None
    }
}

/// What a head of this method, target and these fields asks for, where it is of a form that is answered.
pub fn request_form(
    method: &[u8],
    target: &[u8],
    buf: &[u8],
    headers: &[HeaderSpan],
) -> Option<RequestForm>
    requires { All (IsHeaderWithin (length buf.now)) headers.now }
    ensures { result ≡ request_form method.now target.now (map (header_bytes buf.now) headers.now) }
{
    if !is_absent(buf, headers, b"transfer-encoding")
        || !is_absent(buf, headers, b"x-jupiter-iohash")
    {
        return None;
    }
    target_form(method, target, buf, headers)
}
