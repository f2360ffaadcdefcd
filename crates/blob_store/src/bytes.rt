//! The bytes of blobs in the blob file.

ghost use Rattle.std.specs.Prelude.{◌≡◌, ℕ, List, [], ◌+◌, ◌*◌, ◌<◌, length, IsOk, OnOk, IfSome};
ghost use Rattle.ddc_names.specs.Causes.{HasCause};
ghost use Rattle.ddc_disk.specs.Disk.{EachImage, EachSince, IsSure, MayTear, IsCalm, Continues, overwritten};
ghost use Rattle.blob_store.specs.Bytes.{first_byte, LieIn, bytes_from, HasBlobBytes, MayChange};

use ddc_disk::{Disk, write_sure};
use ddc_model::Extent;
use ddc_names::Failed;
use io_hash::Whole;

/// Writes the bytes of a blob to its extent and makes sure of them: one write, and one sync. For no bytes it calls
/// nothing.
///
/// # Errors
///
/// `Failed` where the write or the sync failed. A crash may then leave any bytes in the extent.
pub fn write_blob<D: Disk>(disk: &mut D, extent: Extent, whole: &Whole) -> Result<(), Failed>
    requires { LieIn extent 0 (length whole.now) }
    ensures durable { 0 < length whole.now → OnOk result (IfSome (D.meaning disk.old).held (λ file. IsSure (D.meaning disk.new) (overwritten file (first_byte extent) whole.now))) }
    ensures bytes { 0 < length whole.now → OnOk result (IfSome (D.meaning disk.old).held (λ _. EachImage (D.meaning disk.new).line (λ image. HasBlobBytes image (first_byte extent) whole.now))) }
    ensures empty { whole.now ≡ [] → IsOk result × (disk.new ≡ disk.old) }
    ensures torn { EachSince (D.meaning disk.old).line (D.meaning disk.new).line (MayTear (first_byte extent) (length whole.now) (D.meaning disk.old).line) }
    ensures in_extent { EachSince (D.meaning disk.old).line (D.meaning disk.new).line (MayChange extent (D.meaning disk.old).line) }
    ensures cause { HasCause (D.meaning disk.old).faults (D.meaning disk.new).faults result }
{
    let bytes = whole.bytes();
    if bytes.is_empty() {
        return Ok(());
    }
    write_sure(disk, extent.start * 4096, bytes)
}

/// Reads from the extent's byte `at` on. Bytes past the end of the file read as 0.
///
/// # Errors
///
/// `Failed` where the disk failed. What the buffer then holds is open.
pub fn read_piece<D: Disk>(
    disk: &mut D,
    extent: Extent,
    at: u64,
    into: &mut [u8],
) -> Result<(), Failed>
    requires { LieIn extent at (length into.old) }
    ensures bytes { OnOk result (IfSome (D.meaning disk.old).held (λ file. into.new ≡ bytes_from file (first_byte extent + at) (length into.old))) }
    ensures held { (D.meaning disk.new).held ≡ (D.meaning disk.old).held }
    ensures calm { IsCalm (D.meaning disk.old).line (D.meaning disk.new).line }
    ensures time { Continues (D.meaning disk.old).line (D.meaning disk.new).line }
    ensures cause { HasCause (D.meaning disk.old).faults (D.meaning disk.new).faults result }
{
    disk.read(extent.start * 4096 + at, into)
}
