//! What a search needs to know of some extents to pass over them.

ghost use Rattle.std.specs.Prelude.{◌≡◌, ◌+◌, ◌≤◌, ◌^◌, [], ◌∷◌, Some};
ghost use Rattle.blob_store.specs.inside.Spans.{SpanFollows, spans_joined, span_of};

use ddc_model::Extent;

// Of extents one after another: the first unit of the first, the unit after the last, and the most units that are free
// between two of them.
#[derive(Clone, Copy, Debug, PartialEq, Eq)]
pub(crate) struct Span {
    pub(crate) first: u64,
    pub(crate) last: u64,
    pub(crate) gap: u64,
}

// The span of two extents, one after the other.
pub(crate) fn span_of_two(first: Extent, last: Extent) -> Span
    requires follows { first.start + first.units ≤ last.start }
    requires bound { last.start + last.units ≤ 2 ^ 51 }
    ensures { Some result ≡ span_of ((first.start, first.units) ∷ (last.start, last.units) ∷ []) }
{
    Span {
        first: first.start,
        last: last.start + last.units as u64,
        gap: last.start - (first.start + first.units as u64),
    }
}

// The span of some extents and of others after them.
pub(crate) fn join(front: Option<Span>, back: Option<Span>) -> Option<Span>
    requires { SpanFollows front back }
    ensures { result ≡ spans_joined front back }
{
    let Some(front) = front else {
        return back;
    };
    let Some(back) = back else {
        return Some(front);
    };
    Some(Span {
        first: front.first,
        last: back.last,
        gap: front.gap.max(back.first - front.last).max(back.gap),
    })
}
