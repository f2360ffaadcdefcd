//! The logs of namespaces.

ghost use Rattle.std.specs.Prelude.{◌≡◌, ◌+◌, ◌^◌, ◌<◌, ◌≤◌, true, length, OnOk, OnErr};
ghost use Rattle.std.specs.FinMap as map;
ghost use Rattle.replication_log.specs.Logs.{can_follow, with_event};
ghost use Rattle.ddc_state.specs.inside.Noted.{log_in, with_deletions};

use crate::spaces::SpaceTable;
use ddc_names::{Namespace, NoMemory, RefSpot};
use replication_log::{Event, EventLog, EventOp};
use std::alloc::Global;

/// Adds an event to the log of a namespace. A new log keeps `kept` events.
pub(crate) fn add_event(
    alloc: Global,
    logs: &mut SpaceTable<EventLog>,
    kept: u32,
    space: &Namespace,
    event: Event,
) -> Result<(), NoMemory>
    requires some { 1 ≤ kept }
    requires follows { can_follow (log_in logs.old kept space.now) event.number ≡ true }
    ensures ok { OnOk result (logs.new ≡ map.insert logs.old space.now (with_event (log_in logs.old kept space.now) event)) }
    ensures err { OnErr result (logs.new ≡ logs.old) }
{
    if let Some(log) = logs.get_mut(space) {
        log.restore(event)?;
        return Ok(());
    }
    let mut log = EventLog::new(alloc, kept);
    log.restore(event)?;
    logs.set(space, log)?;
    Ok(())
}

/// Adds an event for each of these references, which serve nothing any more: all of them or none.
pub(crate) fn add_deletions(
    alloc: Global,
    logs: &mut SpaceTable<EventLog>,
    kept: u32,
    space: &Namespace,
    spots: &[RefSpot],
) -> Result<(), NoMemory>
    requires some { 1 ≤ kept }
    requires numbers { (log_in logs.old kept space.now).last + length spots.now < 2 ^ 64 }
    ensures ok { OnOk result (logs.new ≡ with_deletions logs.old kept space.now spots.now) }
    ensures err { OnErr result (logs.new ≡ logs.old) }
{
    if spots.is_empty() {
        return Ok(());
    }
    if let Some(log) = logs.get_mut(space) {
        log.append_all(spots, EventOp::Deleted)?;
        return Ok(());
    }
    let mut log = EventLog::new(alloc, kept);
    log.append_all(spots, EventOp::Deleted)?;
    logs.set(space, log)?;
    Ok(())
}
