//! The log.

ghost use Rattle.std.specs.Prelude.{◌≡◌, ◌+◌, ◌-◌, ◌^◌, ◌<◌, ◌≤◌, length, true, OnOk, OnErr, IfOk};
ghost use Rattle.replication_log.specs.declared.event.Event.{Event};
ghost use Rattle.replication_log.specs.Logs.{empty_log, with_event, oldest_of, IsLog, can_follow};
ghost use Rattle.replication_log.specs.Several.{with_each};
ghost use Rattle.replication_log.specs.LogPages.{ReadsOn};

use crate::ring::{first_events, push_each, push_newest};
use crate::{Event, EventOp, LogFault};
use ddc_names::{NoMemory, RefSpot, Rows};
use std::alloc::Global;
use std::collections::VecDeque;
use std::marker::Model;

/// The last events of a namespace, with consecutive numbers. Contracts see how many are kept at most, the number of the
/// last one, and the events that the log has.
#[derive(Drop)]
pub struct EventLog {
    kept: u32,
    last: u64,
    events: VecDeque<Event>,
}

impl Model for EventLog {
    ghost use Rattle.replication_log.specs.Logs.{Log, coded_log, IsLog};

    ghost Value = { Log };

    ghost coded = { coded_log };

    ghost view = { λ log. record { kept = log.kept; last = log.last; events = log.events.items } };

    ghost invariant = { λ log. IsLog (record { kept = log.kept; last = log.last; events = log.events.items }) };
}

impl EventLog {
    /// A log of no events that keeps the last `kept` ones, and holds no memory yet.
    pub fn new(alloc: Global, kept: u32) -> EventLog
        requires { 1 ≤ kept }
        ensures { result ≡ empty_log kept }
    {
        EventLog {
            kept,
            last: 0,
            events: VecDeque::new(alloc),
        }
    }

    /// Adds an event with the next number, and gives that number. Where the log then has more events than it keeps, the
    /// oldest one goes.
    ///
    /// # Errors
    ///
    /// `NoMemory` where the log has fewer events than it keeps and can't grow. It is then as before.
    pub fn append(&mut self, spot: RefSpot, op: EventOp) -> Result<u64, NoMemory>
        requires { self.old.last < 2 ^ 64 - 1 }
        ensures number { IfOk result (λ number. number ≡ self.old.last + 1) }
        ensures ok { OnOk result (self.new ≡ with_event self.old (record { number = self.old.last + 1; spot = spot; op = op })) }
        ensures err { OnErr result (self.new ≡ self.old) }
        ensures only_while_it_grows { OnErr result (length self.old.events < self.old.kept) }
    {
        let number = self.last + 1;
        self.restore(Event { number, spot, op })?;
        Ok(number)
    }

    /// Adds an event with this op for each of these references, with the next numbers: all of them or none. Where the log
    /// then has more events than it keeps, the oldest ones go.
    ///
    /// # Errors
    ///
    /// `NoMemory` where the log has fewer events than it keeps and can't grow. It is then as before.
    pub fn append_all(&mut self, spots: &[RefSpot], op: EventOp) -> Result<(), NoMemory>
        requires { self.old.last + length spots.now < 2 ^ 64 }
        ensures ok { OnOk result (self.new ≡ with_each self.old op spots.now) }
        ensures err { OnErr result (self.new ≡ self.old) }
        ensures only_while_it_grows { OnErr result (length self.old.events < self.old.kept) }
    {
        let (kept, last) = (self.kept, self.last);
        push_each(&mut self.events, kept, last, spots, op)?;
        self.last = last + spots.len() as u64;
        Ok(())
    }

    /// Adds an event that was read back: any one to a log of no events, else the one with the next number.
    ///
    /// # Errors
    ///
    /// `NoMemory` where the log has fewer events than it keeps and can't grow. It is then as before.
    pub fn restore(&mut self, event: Event) -> Result<(), NoMemory>
        requires { can_follow self.old event.number ≡ true }
        ensures ok { OnOk result (self.new ≡ with_event self.old event) }
        ensures err { OnErr result (self.new ≡ self.old) }
        ensures only_while_it_grows { OnErr result (length self.old.events < self.old.kept) }
    {
        let (kept, number) = (self.kept, event.number);
        push_newest(&mut self.events, kept, event)?;
        self.last = number;
        Ok(())
    }

    /// Whether an event with this number can be added: any number from 1 on to a log of no events, else the next one.
    pub fn can_follow(&self, number: u64) -> bool
        ensures { result ≡ can_follow self.now number }
    {
        if self.events.is_empty() && 1 <= number {
            return true;
        }
        match self.last.checked_add(1) {
            Some(next) => number == next,
            None => false,
        }
    }

    /// The number of the last event, and 0 where the log never had one.
    pub fn last(&self) -> u64
        ensures number { result ≡ self.now.last }
        ensures law { IsLog self.now }
    {
        self.last
    }

    /// The number of the oldest event that the log has, and `last + 1` where it has none.
    pub fn oldest(&self) -> u64
        ensures number { result ≡ oldest_of self.now }
        ensures law { IsLog self.now }
    {
        match self.events.front() {
            Some(event) => event.number,
            None => self.last + 1,
        }
    }

    /// The first `count` events after the number `after`, for a reader that has read up to it.
    ///
    /// # Errors
    ///
    /// `Ahead` where `after` is greater than the last number, `Trimmed` where the event `after + 1` has gone, and else
    /// `NoMemory` where there is none for the events.
    pub fn incremental(
        &self,
        alloc: Global,
        after: u64,
        count: u32,
    ) -> Result<Rows<Event>, LogFault>
        ensures { ReadsOn self.now after count result }
    {
        let last = self.last;
        if after > last {
            return Err(LogFault::Ahead { last });
        }
        let oldest = self.oldest();
        if after < oldest - 1 {
            return Err(LogFault::Trimmed { oldest });
        }
        let start = (after - (oldest - 1)) as usize;
        match first_events(alloc, &self.events, start, count as usize) {
            Ok(page) => Ok(page),
            Err(NoMemory) => Err(LogFault::NoMemory),
        }
    }
}
