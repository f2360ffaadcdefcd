//! What a disk in memory is made of.

ghost use Rattle.std.specs.Prelude.{◌≡◌, ◌<◌, ◌^◌, IsTrue, length};
ghost use Rattle.ddc_disk.specs.Memory.{memory_history, reads_now, all_by, IsCounted};

use crate::log::Log;

/// A disk in memory, which keeps a list of all calls. Contracts see its history.
#[derive(Debug, Drop)]
pub struct MemDisk {
    pub(crate) log: Log,
    ghost in_order: { IsTrue (all_by log.moment log.calls) },
    ghost as_read: { log.bytes.items ≡ reads_now (memory_history log) },
    ghost counted: { IsCounted log },
    ghost small: { length log.bytes.items < 2 ^ 64 },
}
