//! How a journal is made anew, over whatever its file held.

ghost use Rattle.std.specs.Prelude.{◌≡◌, ◌⊎◌, ◌<◌, ◌^◌, [], ℕ, List, false, length, IfErr, IfOk, IfSome, OnOk, ◌≤◌};
ghost use Rattle.ddc_names.specs.Causes.{HasCause};
ghost use Rattle.ddc_disk.specs.Disk.{EachSince, IsImage, IsSure};
ghost use Rattle.ddc_journal.specs.Journal.{front_size, head_bytes, is_made, rank, IsReady, NotMadeOrEmpty};
ghost use Rattle.ddc_journal.specs.inside.Closing.{AreItems, IsClosed, IsFilled, IsRemade, IsSureOf, IsUnmade};
ghost use Rattle.ddc_journal.specs.declared.fault.JournalFault.TheVariants.{DiskFailed};

use crate::kind::{FRONT, GATE, SINGLE_VERSION};
use crate::{Journal, JournalFault};
use ddc_disk::{Disk, write_sure};
use ddc_names::Failed;

// The first 20 bytes of a journal.
fn head(version: u32, generation: u64) -> [u8; 20]
    ensures { result ≡ head_bytes version generation }
{
    let [p, q, r, s] = version.to_le_bytes();
    let [a, b, c, d, e, f, g, h] = generation.to_le_bytes();
    [
        68, 68, 67, 74, 76, 79, 71, 10, p, q, r, s, a, b, c, d, e, f, g, h,
    ]
}

// Closes a file that ends before its gate: first what stands before the gate is sure, and names no
// generation.
fn close_short<D: Disk>(disk: &mut D) -> Result<(), Failed>
    ensures any_moment { (file : List ℕ) → IsSure (D.meaning disk.old) file → length file < 21 → EachSince (D.meaning disk.old).line (D.meaning disk.new).line IsUnmade }
    ensures closed { OnOk result ((file : List ℕ) → IsSure (D.meaning disk.old) file → length file < 21 → IsClosed (D.meaning disk.new)) }
    ensures past { EachSince (D.meaning disk.old).line (D.meaning disk.new).line (λ _. Unit {0}) }
    ensures cause { HasCause (D.meaning disk.old).faults (D.meaning disk.new).faults result }
{
    write_sure(disk, 0, &[0; 20])?;
    write_sure(disk, GATE, &[0])?;
    Ok(())
}

// Closes a file that has a gate, where the gate is open.
fn close_long<D: Disk>(disk: &mut D) -> Result<(), Failed>
    ensures any_moment { (file : List ℕ) → IsSure (D.meaning disk.old) file → 21 ≤ length file → EachSince (D.meaning disk.old).line (D.meaning disk.new).line (λ image. rank image ≤ rank file) }
    ensures closed { OnOk result ((file : List ℕ) → IsSure (D.meaning disk.old) file → 21 ≤ length file → IsClosed (D.meaning disk.new)) }
    ensures past { EachSince (D.meaning disk.old).line (D.meaning disk.new).line (λ _. Unit {0}) }
    ensures cause { HasCause (D.meaning disk.old).faults (D.meaning disk.new).faults result }
{
    let mut gate = [0];
    disk.read(GATE, &mut gate)?;
    if gate[0] == 1 {
        write_sure(disk, GATE, &[0])?;
    }
    Ok(())
}

// Closes a file, so that it isn't made.
pub(crate) fn close<D: Disk>(disk: &mut D) -> Result<(), Failed>
    ensures any_moment { (file : List ℕ) → IsSure (D.meaning disk.old) file → EachSince (D.meaning disk.old).line (D.meaning disk.new).line (λ image. rank image ≤ rank file) }
    ensures closed { OnOk result ((file : List ℕ) → IsSure (D.meaning disk.old) file → IsClosed (D.meaning disk.new)) }
    ensures past { EachSince (D.meaning disk.old).line (D.meaning disk.new).line (λ _. Unit {0}) }
    ensures cause { HasCause (D.meaning disk.old).faults (D.meaning disk.new).faults result }
{
    if disk.len()? < FRONT {
        close_short(disk)?;
    } else {
        close_long(disk)?;
    }
    Ok(())
}

// Writes all of a journal but its gate.
fn fill<D: Disk>(disk: &mut D, version: u32, generation: u64, items: &[u8]) -> Result<(), Failed>
    ensures any_moment { IsClosed (D.meaning disk.old) → EachSince (D.meaning disk.old).line (D.meaning disk.new).line IsUnmade }
    ensures filled { OnOk result (IsClosed (D.meaning disk.old) → IsFilled (D.meaning disk.new) version generation items.now) }
    ensures past { EachSince (D.meaning disk.old).line (D.meaning disk.new).line (λ _. Unit {0}) }
    ensures cause { HasCause (D.meaning disk.old).faults (D.meaning disk.new).faults result }
{
    disk.write_at(0, &head(version, generation))?;
    write_sure(disk, FRONT, items)?;
    Ok(())
}

// Makes a journal of these items over the old file, of which the disk is sure.
pub(crate) fn remake<D: Disk>(
    disk: &mut D,
    version: u32,
    generation: u64,
    items: &[u8],
) -> Result<(), Failed>
    ensures any_moment { (file : List ℕ) (bodies : List (List ℕ)) → IsSure (D.meaning disk.old) file → AreItems generation bodies items.now → EachSince (D.meaning disk.old).line (D.meaning disk.new).line (IsRemade version generation bodies file) }
    ensures made { OnOk result ((file : List ℕ) (bodies : List (List ℕ)) → IsSure (D.meaning disk.old) file → AreItems generation bodies items.now → IsSureOf (D.meaning disk.new) version generation bodies) }
    ensures past { EachSince (D.meaning disk.old).line (D.meaning disk.new).line (λ _. Unit {0}) }
    ensures cause { HasCause (D.meaning disk.old).faults (D.meaning disk.new).faults result }
{
    close(disk)?;
    fill(disk, version, generation, items)?;
    write_sure(disk, GATE, &[1])?;
    Ok(())
}

// Makes an empty journal that stands alone.
fn make<D: Disk>(disk: &mut D, generation: u64) -> Result<(), Failed>
    ensures any_moment { 0 < generation → generation < 2 ^ 64 → IfSome (D.meaning disk.old).held (λ file. is_made file ≡ false → EachSince (D.meaning disk.old).line (D.meaning disk.new).line (λ image. IsImage (D.meaning disk.old).line image ⊎ NotMadeOrEmpty generation image)) }
    ensures ready { OnOk result (0 < generation → generation < 2 ^ 64 → IfSome (D.meaning disk.old).held (λ _. IsReady (D.meaning disk.new) generation [] front_size)) }
    ensures past { EachSince (D.meaning disk.old).line (D.meaning disk.new).line (λ _. Unit {0}) }
    ensures cause { HasCause (D.meaning disk.old).faults (D.meaning disk.new).faults result }
{
    disk.sync()?;
    remake(disk, SINGLE_VERSION, generation, &[0])?;
    Ok(())
}

impl Journal {
    /// Makes an empty journal, over whatever the file held. The generation is at least 1.
    ///
    /// # Errors
    ///
    /// `DiskFailed` alone. The file may then not be made, or be an empty journal.
    pub fn create<D: Disk>(disk: &mut D, generation: u64) -> Result<Journal, JournalFault>
        requires { 0 < generation }
        ensures any_moment { IfSome (D.meaning disk.old).held (λ file. is_made file ≡ false → EachSince (D.meaning disk.old).line (D.meaning disk.new).line (λ image. IsImage (D.meaning disk.old).line image ⊎ NotMadeOrEmpty generation image)) }
        ensures ready { OnOk result (IfSome (D.meaning disk.old).held (λ _. IsReady (D.meaning disk.new) generation [] front_size)) }
        ensures place { IfOk result (λ journal. journal ≡ front_size) }
        ensures past { EachSince (D.meaning disk.old).line (D.meaning disk.new).line (λ _. Unit {0}) }
        ensures failed { IfErr result (λ fault. fault ≡ DiskFailed) }
        ensures cause { HasCause (D.meaning disk.old).faults (D.meaning disk.new).faults result }
    {
        if make(disk, generation).is_err() {
            return Err(JournalFault::DiskFailed);
        }
        Ok(Journal::at(FRONT))
    }
}
