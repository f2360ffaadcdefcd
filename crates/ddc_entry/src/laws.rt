// Laws of the spellings.
ghost use Rattle.std.specs.Prelude.{◌≡◌, ◌≤◌, Some, IfOk};
ghost use Rattle.ddc_model.specs.Counts.{added_links, fresh_of};
ghost use Rattle.ddc_model.specs.Limits.{most_links};
ghost use Rattle.ddc_entry.specs.Laws.{OneEntry};
ghost use Rattle.ddc_entry.specs.Spelling.{RemovalCountFits};

use crate::{read_entry, write_entry};
use ddc_model::Entry;
use ddc_names::NoMemory;
use std::alloc::Global;

/// Two entries with one spelling are the same.
pub fn one_entry()
    ensures { OneEntry }
{}

/// What is written is read again.
pub fn written_then_read(alloc: Global, entry: &Entry) -> Result<Option<Entry>, NoMemory>
    requires few_links { added_links (fresh_of entry.now) ≤ most_links }
    requires count_fits { RemovalCountFits entry.now }
    ensures { IfOk result (λ found. found ≡ Some entry.now) }
{
    let bytes = write_entry(alloc, entry)?;
    read_entry(alloc, bytes.as_slice())
}
