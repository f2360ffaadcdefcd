//! The claimed extents among the units of a range.

ghost use Rattle.std.specs.Prelude.{◌≡◌, ◌≢◌, ℕ, ◌+◌, ◌-◌, ◌/◌, ◌^◌, ◌<◌, ◌≤◌, ◌++◌, [], ◌∷◌, length, Some, OnOk, OnErr, IfOk, IfSome, IfNone};
ghost use Rattle.std.specs.Ordering.{nat_cmp};
ghost use Rattle.std.specs.FinMap.{find, put};
ghost use Rattle.blob_store.specs.inside.Areas.{extents_in, listed_held, middle_unit, IsPlaced, AreSpanned};
ghost use Rattle.blob_store.specs.inside.Runs.{AreInOrder, MissesAll, LiesWithin, without, next_after, first_gap, end_of};
ghost use Rattle.blob_store.specs.inside.Spans.{span_of};

use crate::held::{Held, end_of_held, gap_before, next_held, span_of_held};
use crate::span::{Span, join, span_of_two};
use ddc_model::Extent;
use ddc_names::NoMemory;
use std::alloc::Global;

// The claimed extents among the units of a range: none, one, or two and more, for which the range is parted at its middle
// unit. With `units` first it takes 16 bytes; an `Extent` in it would make that 24.
#[derive(Drop)]
#[cycle(area)]
pub(crate) enum Area {
    Empty,
    One { units: u32, start: u64 },
    Parted(Box<PartedArea>),
}

// The extent that has the middle unit, and those on the two sides of that unit. The span is that of all of them.
#[derive(Drop)]
#[cycle(area)]
pub(crate) struct PartedArea {
    held: Held,
    span: Span,
    left: Area,
    right: Area,
}

// The middle unit of a range.
fn middle_of(low: u64, high: u64) -> u64
    requires { low ≤ high }
    ensures { result ≡ middle_unit low high }
{
    low + (high - low) / 2
}

// The span of the extents before a middle unit, at it and after it, of which there is one or more.
fn span_of_parts(left: &Area, held: Held, right: &Area) -> Span
    requires left { AreSpanned left.now }
    requires right { AreSpanned right.now }
    requires some { 1 ≤ length (extents_in left.now ++ (listed_held held ++ extents_in right.now)) }
    requires ordered { AreInOrder 0 (2 ^ 51) (extents_in left.now ++ (listed_held held ++ extents_in right.now)) }
    ensures { Some result ≡ span_of (extents_in left.now ++ (listed_held held ++ extents_in right.now)) }
{
    match join(left.span(), join(span_of_held(held), right.span())) {
        Some(span) => span,
        None => unreachable!(),
    }
}

// The extent before a middle unit, at it or after it, where there is but one.
fn only_of_parts(left: &Area, held: Held, right: &Area) -> Option<Extent>
    requires left { AreSpanned left.now }
    requires right { AreSpanned right.now }
    ensures one { IfSome result (λ extent. extents_in left.now ++ (listed_held held ++ extents_in right.now) ≡ (extent.start, extent.units) ∷ []) }
    ensures not_one { IfNone result (length (extents_in left.now ++ (listed_held held ++ extents_in right.now)) ≢ 1) }
{
    match (left, held, right) {
        (&Area::One { units, start }, Held::Free, Area::Empty)
        | (Area::Empty, Held::Taken { units, start }, Area::Empty)
        | (Area::Empty, Held::Free, &Area::One { units, start }) => Some(Extent { start, units }),
        _ => None,
    }
}

impl Area {
    fn span(&self) -> Option<Span>
        requires spanned { AreSpanned self.now }
        requires ordered { AreInOrder 0 (2 ^ 51) (extents_in self.now) }
        ensures { result ≡ span_of (extents_in self.now) }
    {
        match *self {
            Area::Empty => None,
            Area::One { units, start } => span_of_held(Held::Taken { units, start }),
            Area::Parted(ref parted) => Some(parted.span),
        }
    }

    // The unit after the last extent, or `from` where there is none.
    pub(crate) fn end_after(&self, from: u64) -> u64
        requires spanned { AreSpanned self.now }
        requires ordered { AreInOrder 0 (2 ^ 51) (extents_in self.now) }
        ensures { result ≡ end_of from (extents_in self.now) }
    {
        match self.span() {
            Some(span) => span.last,
            None => from,
        }
    }

    // The area of one extent.
    fn of(extent: Extent) -> Area
        ensures one { extents_in result ≡ (extent.start, extent.units) ∷ [] }
        ensures placed { (low high : ℕ) → LiesWithin low high extent → IsPlaced low high result }
        ensures spanned { AreSpanned result }
    {
        Area::One {
            units: extent.units,
            start: extent.start,
        }
    }

    // The area of two extents, one after the other.
    fn of_two(
        alloc: Global,
        low: u64,
        high: u64,
        first: Extent,
        last: Extent,
    ) -> Result<Area, NoMemory>
        requires first { LiesWithin low high first }
        requires last { LiesWithin low high last }
        requires follows { first.start + first.units ≤ last.start }
        requires bound { high ≤ 2 ^ 51 }
        ensures two { IfOk result (λ area. extents_in area ≡ (first.start, first.units) ∷ (last.start, last.units) ∷ []) }
        ensures placed { IfOk result (λ area. IsPlaced low high area) }
        ensures spanned { IfOk result (λ area. AreSpanned area) }
    {
        let middle = middle_of(low, high);
        let mut held = Held::Free;
        let mut left = Area::Empty;
        let mut right = Area::Empty;
        if middle < first.start {
            right = Area::of_two(alloc, middle + 1, high, first, last)?;
        } else if last.start + last.units as u64 <= middle {
            left = Area::of_two(alloc, low, middle, first, last)?;
        } else if middle < first.start + first.units as u64 {
            held = Held::of(first);
            right = Area::of(last);
        } else if last.start <= middle {
            left = Area::of(first);
            held = Held::of(last);
        } else {
            left = Area::of(first);
            right = Area::of(last);
        }
        let span = span_of_two(first, last);
        let parted = PartedArea {
            held,
            span,
            left,
            right,
        };
        Ok(Area::Parted(Box::new(alloc, parted)?))
    }

    // The area of an extent and of another one.
    fn of_both(
        alloc: Global,
        low: u64,
        high: u64,
        one: Extent,
        extent: Extent,
    ) -> Result<Area, NoMemory>
        requires one { LiesWithin low high one }
        requires within { LiesWithin low high extent }
        requires free { MissesAll extent ((one.start, one.units) ∷ []) }
        requires bound { high ≤ 2 ^ 51 }
        ensures both { IfOk result (λ area. extents_in area ≡ put nat_cmp extent.start extent.units ((one.start, one.units) ∷ [])) }
        ensures placed { IfOk result (λ area. IsPlaced low high area) }
        ensures spanned { IfOk result (λ area. AreSpanned area) }
    {
        if extent.start < one.start {
            return Area::of_two(alloc, low, high, extent, one);
        }
        Area::of_two(alloc, low, high, one, extent)
    }

    // Adds an extent that overlaps none.
    pub(crate) fn insert(
        &mut self,
        alloc: Global,
        low: u64,
        high: u64,
        extent: Extent,
    ) -> Result<(), NoMemory>
        requires placed { IsPlaced low high self.old }
        requires spanned { AreSpanned self.old }
        requires within { LiesWithin low high extent }
        requires free { MissesAll extent (extents_in self.old) }
        requires bound { high ≤ 2 ^ 51 }
        ensures ok { OnOk result (extents_in self.new ≡ put nat_cmp extent.start extent.units (extents_in self.old)) }
        ensures err { OnErr result (extents_in self.new ≡ extents_in self.old) }
        ensures placed { IsPlaced low high self.new }
        ensures spanned { AreSpanned self.new }
    {
        let middle = middle_of(low, high);
        match self {
            Area::Empty => *self = Area::of(extent),
            Area::One { units, start } => {
                let one = Extent {
                    start: *start,
                    units: *units,
                };
                *self = Area::of_both(alloc, low, high, one, extent)?;
            }
            Area::Parted(parted) => {
                let parted: &mut PartedArea = parted;
                if middle < extent.start {
                    parted.right.insert(alloc, middle + 1, high, extent)?;
                } else if extent.start + extent.units as u64 <= middle {
                    parted.left.insert(alloc, low, middle, extent)?;
                } else {
                    parted.held = Held::of(extent);
                }
                parted.span = span_of_parts(&parted.left, parted.held, &parted.right);
            }
        }
        Ok(())
    }

    // Takes an extent out. An area of one or none keeps no memory.
    pub(crate) fn remove(&mut self, low: u64, high: u64, extent: Extent)
        requires placed { IsPlaced low high self.old }
        requires spanned { AreSpanned self.old }
        requires there { find nat_cmp extent.start (extents_in self.old) ≡ Some extent.units }
        requires bound { high ≤ 2 ^ 51 }
        ensures gone { extents_in self.new ≡ without extent.start (extents_in self.old) }
        ensures placed { IsPlaced low high self.new }
        ensures spanned { AreSpanned self.new }
    {
        let middle = middle_of(low, high);
        let Area::Parted(parted) = self else {
            *self = Area::Empty;
            return;
        };
        let parted: &mut PartedArea = parted;
        if middle < extent.start {
            parted.right.remove(middle + 1, high, extent);
        } else if extent.start + extent.units as u64 <= middle {
            parted.left.remove(low, middle, extent);
        } else {
            parted.held = Held::Free;
        }
        if let Some(one) = only_of_parts(&parted.left, parted.held, &parted.right) {
            *self = Area::of(one);
            return;
        }
        parted.span = span_of_parts(&parted.left, parted.held, &parted.right);
    }

    // The first extent that ends after a unit.
    pub(crate) fn next_after(&self, at: u64) -> Option<Extent>
        requires spanned { AreSpanned self.now }
        requires ordered { AreInOrder 0 (2 ^ 51) (extents_in self.now) }
        ensures { result ≡ next_after at (extents_in self.now) }
    {
        let parted = match *self {
            Area::Empty => return None,
            Area::One { units, start } => return next_held(Held::Taken { units, start }, at),
            Area::Parted(ref parted) => parted,
        };
        let parted: &PartedArea = parted;
        if parted.span.last <= at {
            return None;
        }
        if let Some(extent) = parted.left.next_after(at) {
            return Some(extent);
        }
        if let Some(extent) = next_held(parted.held, at) {
            return Some(extent);
        }
        parted.right.next_after(at)
    }

    // The first place from a unit on where so many units are free before an extent.
    pub(crate) fn first_gap(&self, from: u64, count: u64) -> Option<u64>
        requires spanned { AreSpanned self.now }
        requires ordered { AreInOrder from (2 ^ 51) (extents_in self.now) }
        ensures { result ≡ first_gap from count (extents_in self.now) }
    {
        let parted = match *self {
            Area::Empty => return None,
            Area::One { units, start } => {
                return gap_before(Held::Taken { units, start }, from, count);
            }
            Area::Parted(ref parted) => parted,
        };
        let parted: &PartedArea = parted;
        if count <= parted.span.first - from {
            return Some(from);
        }
        if parted.span.gap < count {
            return None;
        }
        if let Some(start) = parted.left.first_gap(from, count) {
            return Some(start);
        }
        let from = parted.left.end_after(from);
        if let Some(start) = gap_before(parted.held, from, count) {
            return Some(start);
        }
        parted
            .right
            .first_gap(end_of_held(parted.held, from), count)
    }
}
