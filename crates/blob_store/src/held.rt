//! The extent that has the middle unit of a range, where there is one.

ghost use Rattle.std.specs.Prelude.{◌≡◌, ◌^◌};
ghost use Rattle.blob_store.specs.declared.held.Held.TheVariants.{Taken};
ghost use Rattle.blob_store.specs.inside.Areas.{listed_held};
ghost use Rattle.blob_store.specs.inside.Runs.{AreInOrder, next_after, first_gap, end_of};
ghost use Rattle.blob_store.specs.inside.Spans.{span_of};

use crate::span::Span;
use ddc_model::Extent;

// Whether an extent has the middle unit, and which. With `units` first it takes 16 bytes, where `Option<Extent>` takes 24.
#[derive(Clone, Copy)]
pub(crate) enum Held {
    Free,
    Taken { units: u32, start: u64 },
}

impl Held {
    pub(crate) fn of(extent: Extent) -> Held
        ensures { result ≡ Taken extent.units extent.start }
    {
        Held::Taken {
            units: extent.units,
            start: extent.start,
        }
    }
}

// The span of that extent.
pub(crate) fn span_of_held(held: Held) -> Option<Span>
    requires { AreInOrder 0 (2 ^ 51) (listed_held held) }
    ensures { result ≡ span_of (listed_held held) }
{
    match held {
        Held::Free => None,
        Held::Taken { units, start } => Some(Span {
            first: start,
            last: start + units as u64,
            gap: 0,
        }),
    }
}

// The extent, where it ends after a unit.
pub(crate) fn next_held(held: Held, at: u64) -> Option<Extent>
    requires { AreInOrder 0 (2 ^ 51) (listed_held held) }
    ensures { result ≡ next_after at (listed_held held) }
{
    match held {
        Held::Taken { units, start } if at < start + units as u64 => Some(Extent { start, units }),
        _ => None,
    }
}

// The given unit, where so many units from it on are free before the extent.
pub(crate) fn gap_before(held: Held, from: u64, units: u64) -> Option<u64>
    requires { AreInOrder from (2 ^ 51) (listed_held held) }
    ensures { result ≡ first_gap from units (listed_held held) }
{
    match held {
        Held::Taken { start, .. } if units <= start - from => Some(from),
        _ => None,
    }
}

// The unit after the extent, or the given one.
pub(crate) fn end_of_held(held: Held, from: u64) -> u64
    requires { AreInOrder from (2 ^ 51) (listed_held held) }
    ensures { result ≡ end_of from (listed_held held) }
{
    match held {
        Held::Free => from,
        Held::Taken { units, start } => start + units as u64,
    }
}
