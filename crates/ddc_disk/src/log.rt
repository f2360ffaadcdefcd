//! What a disk in memory keeps, and how a call changes it.

ghost use Rattle.std.specs.Prelude.{◌≡◌, not, MatchResult};
ghost use Rattle.ddc_disk.specs.Disk.{overwritten};
ghost use Rattle.ddc_disk.specs.Memory.{memory_history, is_next_listed, noted, starves, AfterCall, AfterTooFar, IsCounted};
ghost use Rattle.ddc_disk.specs.declared.call.CallKind.TheVariants.{Write, Sync, Look};

use crate::bytes::overwrite;
use crate::call::{CallKind, DiskCall};
use ddc_names::{Failed, Rows};
use std::alloc::Global;

#[derive(Debug, Drop)]
pub(crate) struct Log {
    pub(crate) alloc: Global,
    pub(crate) start: Vec<u8>,
    pub(crate) failing: Rows<u64>,
    pub(crate) calls: Rows<DiskCall>,
    pub(crate) moment: u64,
    // How many of the calls were listed.
    pub(crate) failed: u64,
    pub(crate) starved: u64,
    // What a read gives.
    pub(crate) bytes: Vec<u8>,
}

// Counts a call that found no memory.
fn starve(log: &mut Log) -> Failed
    ensures counted { memory_history log.new ≡ starves (memory_history log.old) }
    ensures bytes { log.new.bytes ≡ log.old.bytes }
    ensures failed { IsCounted log.old → IsCounted log.new }
{
    log.starved = log.starved.saturating_add(1);
    Failed
}

// Adds a call at the next moment, and says whether it is done.
pub(crate) fn note(log: &mut Log, what: CallKind) -> Result<bool, Failed>
    ensures noted { MatchResult result (λ done. (done ≡ not (is_next_listed (memory_history log.old))) × (memory_history log.new ≡ noted (memory_history log.old) what done)) (λ _. memory_history log.new ≡ starves (memory_history log.old)) }
    ensures bytes { log.new.bytes ≡ log.old.bytes }
    ensures failed { IsCounted log.old → IsCounted log.new }
{
    if log.moment == u64::MAX {
        return Err(starve(log));
    }
    let number = log.calls.len() as u64;
    let done = !log.failing.as_slice().contains(&number);
    let call = DiskCall {
        moment: log.moment + 1,
        what,
        done,
    };
    if log.calls.push(call).is_err() {
        return Err(starve(log));
    }
    log.moment += 1;
    if !done {
        log.failed = log.failed.saturating_add(1);
    }
    Ok(done)
}

// A call that changes nothing but the list.
pub(crate) fn look(log: &mut Log) -> Result<(), Failed>
    ensures after { AfterCall (memory_history log.old) Look result (memory_history log.new) }
    ensures bytes { log.new.bytes ≡ log.old.bytes }
    ensures failed { IsCounted log.old → IsCounted log.new }
{
    match note(log, CallKind::Look) {
        Ok(true) => Ok(()),
        _ => Err(Failed),
    }
}

pub(crate) fn sync_log(log: &mut Log) -> Result<(), Failed>
    ensures after { AfterCall (memory_history log.old) Sync result (memory_history log.new) }
    ensures bytes { log.new.bytes ≡ log.old.bytes }
    ensures failed { IsCounted log.old → IsCounted log.new }
{
    match note(log, CallKind::Sync) {
        Ok(true) => Ok(()),
        _ => Err(Failed),
    }
}

pub(crate) fn write_log(log: &mut Log, at: u64, bytes: &[u8]) -> Result<(), Failed>
    ensures after { AfterCall (memory_history log.old) (Write at bytes.now) result (memory_history log.new) }
    ensures bytes { MatchResult result (λ _. log.new.bytes.items ≡ overwritten log.old.bytes.items at bytes.now) (λ _. log.new.bytes.items ≡ log.old.bytes.items) }
    ensures failed { IsCounted log.old → IsCounted log.new }
{
    let Ok(copy) = Vec::from_slice(log.alloc, bytes) else {
        return Err(starve(log));
    };
    let Ok(next) = overwrite(log.alloc, &log.bytes, at as usize, bytes) else {
        return Err(starve(log));
    };
    let what = CallKind::Write {
        at,
        bytes: Rows::of_vec(copy),
    };
    match note(log, what) {
        Ok(true) => {
            log.bytes = next;
            Ok(())
        }
        _ => Err(Failed),
    }
}

// A write whose range doesn't fit u64.
pub(crate) fn refuse(log: &mut Log) -> Failed
    ensures after { AfterTooFar (memory_history log.old) (memory_history log.new) }
    ensures bytes { log.new.bytes ≡ log.old.bytes }
    ensures failed { IsCounted log.old → IsCounted log.new }
{
    match note(log, CallKind::Look) {
        Ok(true) => starve(log),
        _ => Failed,
    }
}
