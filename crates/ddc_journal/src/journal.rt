//! The journal, and how a body is appended.

ghost use Rattle.std.specs.Prelude.{◌≡◌, ◌++◌, ◌∷◌, ◌+◌, ◌<◌, ◌^◌, [], List, ℕ, length, OnOk, OnErr, IfErr};
ghost use Rattle.ddc_names.specs.Causes.{HasCause};
ghost use Rattle.ddc_disk.specs.Disk.{EachSince};
ghost use Rattle.ddc_journal.specs.Journal.{framed, item_head, journal_bytes, IsEither, IsReady, LoadsEither, StandsAs};
ghost use Rattle.ddc_journal.specs.inside.Closing.{IsSureOf};
ghost use Rattle.ddc_journal.specs.declared.fault.JournalFault.TheVariants.{DiskFailed};

use crate::{Framed, JournalFault};
use ddc_disk::{Disk, write_sure};
use ddc_names::Failed;
use std::marker::Model;

/// An open journal. Contracts see the place of its closing gate.
#[derive(Debug, Drop)]
pub struct Journal {
    end: u64,
}

impl Model for Journal {
    ghost use Rattle.std.specs.Prelude.{ℕ};

    ghost Value = { ℕ };

    ghost view = { λ journal. journal.end };
}

// Writes an item after the closing gate, and then opens the gate.
pub(crate) fn append_at<D: Disk>(disk: &mut D, gate: u64, bytes: &[u8]) -> Result<(), Failed>
    ensures any_moment { (version generation : ℕ) (bodies : List (List ℕ)) (body : List ℕ) → bytes.now ≡ framed body ++ 0 ∷ [] → length body < 2 ^ 32 → StandsAs (D.meaning disk.old) version generation bodies gate
        → EachSince (D.meaning disk.old).line (D.meaning disk.new).line (IsEither version generation bodies body) }
    ensures ready { OnOk result ((version generation : ℕ) (bodies : List (List ℕ)) (body : List ℕ) → bytes.now ≡ framed body ++ 0 ∷ [] → length body < 2 ^ 32 → StandsAs (D.meaning disk.old) version generation bodies gate
        → IsSureOf (D.meaning disk.new) version generation (bodies ++ body ∷ []) × (gate + length bytes.now ≡ length (journal_bytes version generation (bodies ++ body ∷ [])))) }
    ensures past { EachSince (D.meaning disk.old).line (D.meaning disk.new).line (λ _. Unit {0}) }
    ensures fits { OnOk result (gate + length bytes.now < 2 ^ 64) }
    ensures cause { HasCause (D.meaning disk.old).faults (D.meaning disk.new).faults result }
{
    write_sure(disk, gate.saturating_add(1), bytes)?;
    write_sure(disk, gate, &[1])?;
    Ok(())
}

impl Journal {
    pub(crate) fn at(end: u64) -> Journal
        ensures { result ≡ end }
    {
        Journal { end }
    }

    /// Adds a body after the others, by four device calls, and takes no memory.
    ///
    /// # Errors
    ///
    /// `DiskFailed` alone. A crash may then leave the body or not: load the journal before it is used
    /// again.
    pub fn append<D: Disk>(&mut self, disk: &mut D, item: &Framed) -> Result<(), JournalFault>
        ensures any_moment { (generation : ℕ) (bodies : List (List ℕ)) → IsReady (D.meaning disk.old) generation bodies self.old
            → EachSince (D.meaning disk.old).line (D.meaning disk.new).line (LoadsEither generation bodies item.now) }
        ensures ready { OnOk result ((generation : ℕ) (bodies : List (List ℕ)) → IsReady (D.meaning disk.old) generation bodies self.old
            → IsReady (D.meaning disk.new) generation (bodies ++ item.now ∷ []) self.new) }
        ensures past { EachSince (D.meaning disk.old).line (D.meaning disk.new).line (λ _. Unit {0}) }
        ensures moved { OnOk result (self.new ≡ self.old + item_head + length item.now) }
        ensures kept { OnErr result (self.new ≡ self.old) }
        ensures failed { IfErr result (λ fault. fault ≡ DiskFailed) }
        ensures cause { HasCause (D.meaning disk.old).faults (D.meaning disk.new).faults result }
    {
        let bytes = item.as_bytes();
        if append_at(disk, self.end, bytes).is_err() {
            return Err(JournalFault::DiskFailed);
        }
        self.end += bytes.len() as u64;
        Ok(())
    }
}
