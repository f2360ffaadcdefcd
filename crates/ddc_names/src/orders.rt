//! The orders of names, which are those of the definitions.

ghost use Rattle.std.specs.Prelude.{◌≡◌};
ghost use Rattle.ddc_names.specs.Orders.{io_hash_cmp, name_cmp, key_cmp, spot_cmp, ref_name_cmp};

use crate::{Bucket, IoHash, Namespace, RefKey, RefName, RefSpot};
use std::cmp::Ordering;

/// Hashes are ordered by their bytes.
pub fn order_of_hashes(a: &IoHash, b: &IoHash) -> Ordering
    ensures { result ≡ io_hash_cmp a.now b.now }
{
    a.cmp(b)
}

/// Namespaces are ordered by their texts' bytes.
pub fn order_of_namespaces(a: &Namespace, b: &Namespace) -> Ordering
    ensures { result ≡ name_cmp a.now b.now }
{
    a.cmp(b)
}

/// Buckets are ordered by their texts' bytes.
pub fn order_of_buckets(a: &Bucket, b: &Bucket) -> Ordering
    ensures { result ≡ name_cmp a.now b.now }
{
    a.cmp(b)
}

/// Keys are ordered by their bytes.
pub fn order_of_keys(a: &RefKey, b: &RefKey) -> Ordering
    ensures { result ≡ key_cmp a.now b.now }
{
    a.cmp(b)
}

/// Spots are ordered by bucket, and then by key.
pub fn order_of_spots(a: &RefSpot, b: &RefSpot) -> Ordering
    ensures { result ≡ spot_cmp a.now b.now }
{
    a.cmp(b)
}

/// References are ordered by namespace, and then by spot.
pub fn order_of_references(a: &RefName, b: &RefName) -> Ordering
    ensures { result ≡ ref_name_cmp a.now b.now }
{
    a.cmp(b)
}
