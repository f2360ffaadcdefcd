//! Sweep lists.

ghost use Rattle.std.specs.Prelude.{◌≡◌, ◌↔◌, ◌≤◌, false, not, [], IfOk, OnOk, OnErr};
ghost use Rattle.ddc_names.specs.declared.hash.IoHash.{IoHash};
ghost use Rattle.cb_fields.specs.declared.links.Link.{Link};
ghost use Rattle.cb_fields.specs.declared.links.LinkKind.TheVariants.{Binary};
ghost use Rattle.collector.specs.declared.phase.Phase.TheVariants.{Sweeping};
ghost use Rattle.collector.specs.Marks.{is_safe};
ghost use Rattle.collector.specs.Sweeping.{IsPhase, is_loose, AreFirst, AreUnreached, is_none};
ghost use Rattle.collector.specs.inside.Sweeps.{with_loose};

use crate::Collection;
use ddc_names::{IoHash, NoMemory, Rows};
use ddc_state::Index;
use std::alloc::Global;

impl Collection {
    /// The first `limit` blobs that are there and of which neither node is marked or grey, in the order of their
    /// hashes, or all where they are fewer. Where there is none, the collection is done.
    ///
    /// # Errors
    ///
    /// `NoMemory` where there is none for the list. The collection is then as before.
    pub fn sweep_list(
        &mut self,
        alloc: Global,
        index: &Index,
        limit: u32,
    ) -> Result<Rows<IoHash>, NoMemory>
        requires phase { IsPhase self.old Sweeping }
        requires limit { 1 ≤ limit }
        ensures first { IfOk result (AreFirst (is_loose index.now.state self.old) limit) }
        ensures unreached { IfOk result (AreUnreached index.now.state self.old) }
        ensures none_left { IfOk result (λ hashes. (hashes ≡ []) ↔ ((hash : IoHash) → is_loose index.now.state self.old hash ≡ false)) }
        ensures ended { IfOk result (λ hashes. self.new ≡ record self.old { ended = is_none hashes }) }
        ensures err { OnErr result (self.new ≡ self.old) }
    {
        let hashes = self.loose_blobs(alloc, index, limit as usize)?;
        self.end_if(hashes.len() == 0);
        Ok(hashes)
    }

    // The first loose blobs.
    fn loose_blobs(
        &self,
        alloc: Global,
        index: &Index,
        limit: usize,
    ) -> Result<Rows<IoHash>, NoMemory>
        ensures { IfOk result (AreFirst (is_loose index.now.state self.now) limit) }
    {
        let space = self.space();
        let mut hashes = Rows::new(alloc);
        let mut last = None;
        for _ in 0..u64::MAX {
            if hashes.len() >= limit {
                return Ok(hashes);
            }
            let Some(hash) = index.next_blob(&space, last) else {
                return Ok(hashes);
            };
            self.push_loose(&mut hashes, hash)?;
            last = Some(hash);
        }
        Err(NoMemory)
    }

    // Adds a hash, where neither node of it is marked or grey.
    fn push_loose(&self, hashes: &mut Rows<IoHash>, hash: IoHash) -> Result<(), NoMemory>
        ensures { let node : Link = record { kind = Binary; hash = hash } in OnOk result (hashes.new ≡ with_loose (not (is_safe self.now node)) hashes.old hash) }
    {
        if !self.is_loose(&hash) {
            return Ok(());
        }
        hashes.push(hash)?;
        Ok(())
    }
}
