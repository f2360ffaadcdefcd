//! What an entry adds.

ghost use Rattle.std.specs.Prelude.{◌≡◌, option_copied};
ghost use Rattle.ddc_model.specs.Counts.{fresh_of};

use ddc_model::{Entry, Stored};

/// The blob that an entry adds.
pub fn fresh_of(entry: &Entry) -> Option<&Stored>
    ensures { option_copied result ≡ fresh_of entry.now }
{
    match entry {
        Entry::Upload { blob, .. } => Some(blob),
        Entry::Put { fresh, .. } => fresh.as_ref(),
        _ => None,
    }
}
