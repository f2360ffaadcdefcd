//! A log that keeps three events, whose answers are counted by hand.

ghost use Rattle.std.specs.Prelude.{◌≡◌};

use ddc_names::{Bucket, IoHash, RefKey, RefSpot};
use replication_log::{Event, EventLog, EventOp, LogFault};
use std::alloc::Global;
use std::test::Fail;

fn event_of(bucket: Bucket, number: u8) -> Event
    ensures { result.number ≡ number }
{
    Event {
        number: number as u64,
        spot: RefSpot {
            bucket,
            key: RefKey([number; 20]),
        },
        op: EventOp::Added(IoHash([number; 20])),
    }
}

// The last event of those after this number, with how many they are.
fn last_after(
    alloc: Global,
    log: &EventLog,
    number: u64,
) -> Result<Option<(usize, Event)>, LogFault> {
    let page = log.incremental(alloc, number, 9)?;
    Ok(page.as_slice().last().map(|event| (page.len(), *event)))
}

#[test]
fn a_log_gives_the_events_that_it_keeps(rt: HostRuntime) -> Result<(), Fail> {
    let bucket = Bucket::parse("maps")?;
    let mut log = EventLog::new(rt.alloc(), 3);
    assert!(rt; log.restore(event_of(bucket, 1)).is_ok());
    for number in [2, 3, 4, 5] {
        let event = event_of(bucket, number);
        assert!(rt; log.last() < 5);
        assert!(rt; log.append(event.spot, event.op) == Ok(event.number));
    }
    assert_eq!(rt; log.oldest(), 3);
    let last = Some((2, event_of(bucket, 5)));
    assert!(rt; last_after(rt.alloc(), &log, 3) == Ok(last));
    let trimmed = Err(LogFault::Trimmed { oldest: 3 });
    assert!(rt; last_after(rt.alloc(), &log, 1) == trimmed);
    let ahead = Err(LogFault::Ahead { last: 5 });
    assert!(rt; last_after(rt.alloc(), &log, 6) == ahead);
    Ok(())
}

#[test]
fn events_are_added_together(rt: HostRuntime) -> Result<(), Fail> {
    let bucket = Bucket::parse("maps")?;
    let mut log = EventLog::new(rt.alloc(), 3);
    let spots = [
        event_of(bucket, 1).spot,
        event_of(bucket, 2).spot,
        event_of(bucket, 3).spot,
        event_of(bucket, 4).spot,
    ];
    assert!(rt; log.can_follow(40));
    assert!(rt; log.append_all(&spots, EventOp::Deleted).is_ok());
    assert_eq!(rt; (log.oldest(), log.last()), (2, 4));
    assert!(rt; log.can_follow(5));
    assert!(rt; !log.can_follow(4));
    let last = Event {
        op: EventOp::Deleted,
        ..event_of(bucket, 4)
    };
    assert!(rt; last_after(rt.alloc(), &log, 1) == Ok(Some((3, last))));
    Ok(())
}
