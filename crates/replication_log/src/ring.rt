//! The ring of events that a log has.

ghost use Rattle.std.specs.Prelude.{◌≡◌, ◌++◌, ◌∷◌, [], ◌+◌, ◌^◌, ◌<◌, ◌≤◌, min, length, take, drop, OnOk, OnErr, IfOk};
ghost use Rattle.std.specs.VecDeque.{deque_len, deque_capacity};
ghost use Rattle.replication_log.specs.Logs.{newest};
ghost use Rattle.replication_log.specs.Several.{with_each};

use crate::{Event, EventOp};
use ddc_names::{NoMemory, RefSpot, Rows};
use std::alloc::Global;
use std::collections::VecDeque;

/// Adds an event at the end. Where there are `kept` of them, the first one goes, and no memory is taken.
pub(crate) fn push_newest(
    events: &mut VecDeque<Event>,
    kept: u32,
    event: Event,
) -> Result<(), NoMemory>
    requires some { 1 ≤ kept }
    requires few { deque_len events.old ≤ kept }
    ensures ok { OnOk result (events.new.items ≡ newest kept (events.old.items ++ event ∷ [])) }
    ensures err { OnErr result (events.new.items ≡ events.old.items) }
    ensures only_while_it_grows { OnErr result (length events.old.items < kept) }
{
    if events.len() < kept as usize {
        events.push_back(event)?;
        return Ok(());
    }
    events.pop_front();
    events.push_back_reserved(event);
    Ok(())
}

/// Adds an event with this op for each of these references, with the numbers after `last`: all of them or none.
pub(crate) fn push_each(
    events: &mut VecDeque<Event>,
    kept: u32,
    last: u64,
    spots: &[RefSpot],
    op: EventOp,
) -> Result<(), NoMemory>
    requires some { 1 ≤ kept }
    requires few { deque_len events.old ≤ kept }
    requires numbers { last + length spots.now < 2 ^ 64 }
    ensures ok { OnOk result (events.new.items ≡ (with_each (record { kept = kept; last = last; events = events.old.items }) op spots.now).events) }
    ensures err { OnErr result (events.new.items ≡ events.old.items) }
    ensures only_while_it_grows { OnErr result (length events.old.items < kept) }
{
    reserve_newest(events, kept, spots.len())?;
    let mut number = last;
    for spot in spots {
        number += 1;
        let spot = *spot;
        push_reserved(events, kept, Event { number, spot, op });
    }
    Ok(())
}

// Takes the room for so many more events, of which no more than `kept` stand at once.
fn reserve_newest(events: &mut VecDeque<Event>, kept: u32, count: usize) -> Result<(), NoMemory>
    requires { deque_len events.old ≤ kept }
    ensures items { events.new.items ≡ events.old.items }
    ensures len { deque_len events.new ≡ deque_len events.old }
    ensures room { OnOk result (min kept (deque_len events.old + count) ≤ deque_capacity events.new) }
    ensures only_while_it_grows { OnErr result (deque_len events.old < kept) }
{
    let more = count.min(kept as usize - events.len());
    events.reserve(more)?;
    Ok(())
}

// Adds an event for which there is room. Where there are `kept` of them, the first one goes.
fn push_reserved(events: &mut VecDeque<Event>, kept: u32, event: Event)
    requires some { 1 ≤ kept }
    requires few { deque_len events.old ≤ kept }
    requires room { min kept (deque_len events.old + 1) ≤ deque_capacity events.old }
    ensures items { events.new.items ≡ newest kept (events.old.items ++ event ∷ []) }
    ensures len { deque_len events.new ≡ min kept (deque_len events.old + 1) }
    ensures capacity { deque_capacity events.new ≡ deque_capacity events.old }
{
    if events.len() >= kept as usize {
        events.pop_front();
    }
    events.push_back_reserved(event);
}

/// The first `count` of the events from the place `start` on.
pub(crate) fn first_events(
    alloc: Global,
    events: &VecDeque<Event>,
    start: usize,
    count: usize,
) -> Result<Rows<Event>, NoMemory>
    requires { start ≤ deque_len events.now }
    ensures { IfOk result (λ rows. rows ≡ take count (drop start events.now.items)) }
{
    let end = start + count.min(events.len() - start);
    let page = events.range(start..end).copied().collect(alloc)?;
    Ok(Rows::of_vec(page))
}
