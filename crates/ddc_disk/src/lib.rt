//! Disks: what a read gives, what a crash may leave, and when.
//!
//! Between two syncs each range that was written, and what lies past the old end, may hold any bytes
//! after a crash; other bytes stay. After a sync that succeeds a crash leaves what a read gives.
#![tactic(auto)]

ghost use Rattle.std.specs.Prelude.{◌≡◌, ◌+◌, ◌^◌, ◌≤◌, ◌<◌, ℕ, Bool, IsTrue, IsSome, List, length, slice_index, EachIndex, Some, IfSome, IfOk, OnOk, IsErr};
ghost use Rattle.ddc_names.specs.Causes.{HasCause};
ghost use Rattle.ddc_disk.specs.Disk.{Meaning, IsImage, EachImage, overwritten, Tears, IsCalm, Waits, Continues, Rests, EachSince, MayTear, IsSure};

use ddc_names::Failed;

mod bytes;
mod call;
mod devices;
mod file;
mod log;
mod mem_disk;
mod memory;
mod tear;

pub use devices::{Devices, HeldDevices};
pub use file::FileDisk;
pub use mem_disk::MemDisk;

/// A file on a device that may fail and crash. Each call that answers `Failed` raises the count of
/// faults, and each call that is Ok leaves it as it was: what fails is never tried again unseen.
pub trait Disk {
    /// What the disk holds, where it tells that; its count of faults; its moment, and the images that
    /// a crash at each moment may leave.
    ghost meaning: { Self → Meaning };

    /// Whether disks of this type tell what they hold.
    ghost tells: { Bool };

    /// Reads what stands from a place on. Bytes past the end read as 0.
    ///
    /// # Errors
    ///
    /// `Failed` where the disk failed. What the buffer then holds is open.
    fn read(&mut self, at: u64, into: &mut [u8]) -> Result<(), Failed>
        ensures bytes { OnOk result (IfSome (meaning self.old).held (λ file. EachIndex into.new (λ k. slice_index into.new k ≡ slice_index file (at + k)))) }
        ensures held { (meaning self.new).held ≡ (meaning self.old).held }
        ensures calm { IsCalm (meaning self.old).line (meaning self.new).line }
        ensures time { Continues (meaning self.old).line (meaning self.new).line }
        ensures cause { HasCause (meaning self.old).faults (meaning self.new).faults result };

    /// Writes bytes at a place, also past the end. Until a sync that succeeds, a crash may leave any
    /// bytes in the range and past the old end, also where the write failed.
    ///
    /// # Errors
    ///
    /// `Failed` where the disk failed, and where the range doesn't fit u64. Nothing is written then.
    fn write_at(&mut self, at: u64, bytes: &[u8]) -> Result<(), Failed>
        ensures written { OnOk result (IfSome (meaning self.old).held (λ file. (meaning self.new).held ≡ Some (overwritten file at bytes.now))) }
        ensures crash { Tears at (length bytes.now) (meaning self.old).line (meaning self.new).line }
        ensures too_far { 2 ^ 64 ≤ at + length bytes.now → IsErr result × ((meaning self.new).held ≡ (meaning self.old).held) × IsCalm (meaning self.old).line (meaning self.new).line }
        ensures time { Continues (meaning self.old).line (meaning self.new).line }
        ensures cause { HasCause (meaning self.old).faults (meaning self.new).faults result };

    /// Makes sure of all that was written: afterwards a crash leaves what a read gives.
    ///
    /// # Errors
    ///
    /// `Failed` where the disk failed. Nothing is settled then.
    fn sync(&mut self) -> Result<(), Failed>
        ensures durable { OnOk result (IfSome (meaning self.old).held (λ file. EachImage (meaning self.new).line (λ image. image ≡ file))) }
        ensures held { (meaning self.new).held ≡ (meaning self.old).held }
        ensures calm { IsCalm (meaning self.old).line (meaning self.new).line }
        ensures time { Continues (meaning self.old).line (meaning self.new).line }
        ensures cause { HasCause (meaning self.old).faults (meaning self.new).faults result };

    /// The file's end, in bytes.
    ///
    /// # Errors
    ///
    /// `Failed` where the disk failed.
    fn len(&mut self) -> Result<u64, Failed>
        ensures len { IfOk result (λ n. IfSome (meaning self.old).held (λ file. n ≡ length file)) }
        ensures held { (meaning self.new).held ≡ (meaning self.old).held }
        ensures calm { IsCalm (meaning self.old).line (meaning self.new).line }
        ensures time { Continues (meaning self.old).line (meaning self.new).line }
        ensures cause { HasCause (meaning self.old).faults (meaning self.new).faults result };

    /// How often the disk has failed. The count stands still at 2^64 - 1. This is no device call.
    fn faults(&self) -> u64
        ensures { result ≡ (meaning self.now).faults };

    /// The disk's moment, on a clock that the devices of a store share. This is no device call.
    fn moment(&self) -> u64
        ensures { result ≡ (meaning self.now).line.moment };

    /// Tells the disk that it is this moment, unless its own is later. This is no device call.
    fn wait_until(&mut self, now: u64)
        ensures { Waits now (meaning self.old) (meaning self.new) };

    /// What a disk reads as is one of its images.
    ghost reads: { (d : Self) (file : List ℕ) → (meaning d).held ≡ Some file → IsImage (meaning d).line file };

    /// A disk of a type that tells what it holds, tells it.
    ghost told: { (d : Self) → IsTrue tells → IsSome (meaning d).held };

    /// The file's end fits u64.
    ghost small: { (d : Self) (file : List ℕ) → (meaning d).held ≡ Some file → length file < 2 ^ 64 };

    /// Time alone changes nothing.
    ghost rests: { (d : Self) → Rests (meaning d).line };
}

/// Writes bytes at a place and makes sure of them.
///
/// # Errors
///
/// `Failed` where the write or the sync failed. The bytes may then be there, or be torn.
pub fn write_sure<D: Disk>(disk: &mut D, at: u64, bytes: &[u8]) -> Result<(), Failed>
    ensures durable { OnOk result (IfSome (D.meaning disk.old).held (λ file. IsSure (D.meaning disk.new) (overwritten file at bytes.now))) }
    ensures any_moment { EachSince (D.meaning disk.old).line (D.meaning disk.new).line (MayTear at (length bytes.now) (D.meaning disk.old).line) }
    ensures fits { OnOk result (at + length bytes.now < 2 ^ 64) }
    ensures cause { HasCause (D.meaning disk.old).faults (D.meaning disk.new).faults result }
{
    disk.write_at(at, bytes)?;
    disk.sync()
}
