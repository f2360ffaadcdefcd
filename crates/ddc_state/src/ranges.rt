//! Ranges of the keys of ordered maps.

ghost use Rattle.std.specs.Prelude.{◌≡◌};
ghost use Rattle.std.specs.Map.{keys_of};
ghost use Rattle.std.specs.List.Sorted.{IsStrictlySortedBy};
ghost use Rattle.std.specs.declared.ops.Bound.TheVariants.{Unbounded};
ghost use Rattle.std.specs.BTreeMap.Range.{entries_between};
ghost use Rattle.ddc_state.specs.inside.Ranges.{start_of, first_key};
ghost use Rattle.ddc_model.specs.Entries.{ascends};

use std::cmp::Ordering;
use std::collections::BTreeMap;
use std::ops::Bound;

/// Where the keys after another one begin, or all keys.
pub(crate) fn start_after<K>(after: Option<K>) -> Bound<K>
    ensures { result ≡ start_of after }
{
    match after {
        Some(key) => Bound::Excluded(key),
        None => Bound::Unbounded,
    }
}

/// The first key of the range that begins so.
pub(crate) fn first_from<K: Ord + Copy, V>(map: &BTreeMap<K, V>, start: Bound<K>) -> Option<K>
    ensures first { result ≡ first_key (entries_between K.cmp start Unbounded map.now.entries) }
    ensures ordered { IsStrictlySortedBy K.cmp (keys_of map.now.entries) }
{
    for (key, _) in map.range((start, Bound::Unbounded)) {
        return Some(*key);
    }
    None
}

/// Whether each of these keys stands after the one before it.
pub(crate) fn is_ascending<K: Ord>(keys: &[K]) -> bool
    ensures { result ≡ ascends K.cmp keys.now }
{
    for i in 1..keys.len() {
        match keys[i - 1].cmp(&keys[i]) {
            Ordering::Less => {}
            _ => return false,
        }
    }
    true
}
