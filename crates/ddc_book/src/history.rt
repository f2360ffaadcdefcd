//! The steps of a store, and what is counted of them.

ghost use Rattle.std.specs.Prelude.{◌≡◌, ◌++◌, ◌∷◌, [], true, None, Some, length, IfOk, OnErr, OnOk};
ghost use Rattle.ddc_model.specs.declared.entry.Step.TheVariants.{Loaded, Change, Broke};
ghost use Rattle.ddc_model.specs.Counts.{added_links, fresh_of};
ghost use Rattle.ddc_model.specs.Entries.{after, legal};
ghost use Rattle.ddc_model.specs.History.{broken_by, no_room, past_of};

use ddc_model::{Entry, Limits, Step};
use ddc_names::{NoMemory, Rows};
use ddc_opening::fresh_of;
use ddc_state::Index;
use std::alloc::Global;
use std::marker::Model;

// Contracts see the list of the steps. The counts are those since the opening. Where the store isn't broken, there is
// room for one step more, so that it can be noted without memory that it broke.
#[derive(Drop)]
pub(crate) struct History {
    steps: Vec<Step>,
    entries: u64,
    links: u64,
    broken: Option<u64>,
}

impl Model for History {
    ghost use Rattle.std.specs.Prelude.{List, vec_len, vec_capacity};
    ghost use Rattle.ddc_model.specs.declared.entry.Step.{Step};
    ghost use Rattle.ddc_book.specs.inside.Tallies.{IsTallied};

    ghost Value = { List Step };

    ghost view = { λ h. h.steps.items };

    ghost invariant = { λ h. IsTallied h.steps.items h.entries h.links h.broken (vec_len h.steps) (vec_capacity h.steps) };
}

impl History {
    /// The history of a store that is opened now, with what these steps left.
    pub(crate) fn opened(steps: Vec<Step>, limits: Limits, faults: u64) -> Result<History, NoMemory>
        requires { broken_by steps.items ≡ None }
        ensures { IfOk result (λ history. history ≡ steps.items ++ Loaded limits faults ∷ []) }
    {
        let mut steps = steps;
        steps.reserve(2)?;
        steps.push_reserved(Step::Loaded { limits, faults });
        Ok(History {
            steps,
            entries: 0,
            links: 0,
            broken: None,
        })
    }

    /// Makes an entry, and its step.
    ///
    /// # Errors
    ///
    /// `NoMemory`, and all is as before.
    pub(crate) fn make(
        &mut self,
        alloc: Global,
        index: &mut Index,
        entry: Entry,
    ) -> Result<(), NoMemory>
        requires unbroken { broken_by self.old ≡ None }
        requires legal { legal index.old.state entry ≡ true }
        requires room { no_room index.old.state (past_of self.old) entry ≡ None }
        ensures index { OnOk result (index.new.state ≡ after index.old.state entry) }
        ensures steps { OnOk result (self.new ≡ self.old ++ Change entry ∷ []) }
        ensures reads { index.new.reads ≡ index.old.reads }
        ensures err { OnErr result ((index.new ≡ index.old) × (self.new ≡ self.old)) }
    {
        // an entry that has room keeps the counts within these, which have 64 bits
        let _limits = index.limits();
        self.steps.reserve(2)?;
        index.apply(alloc, &entry)?;
        self.entries += 1;
        self.links += added_links_of(&entry);
        self.steps.push_reserved(Step::Change(entry));
        Ok(())
    }

    /// Notes that a call failed at the disks, where its entry was made or none was.
    pub(crate) fn note_broken(&mut self, changed: bool, before: u64, now: u64)
        requires { broken_by self.old ≡ None }
        ensures { self.new ≡ self.old ++ Broke changed before now ∷ [] }
    {
        self.steps.push_reserved(Step::Broke {
            changed,
            before,
            now,
        });
        self.broken = Some(now);
    }

    pub(crate) fn as_slice(&self) -> &[Step]
        ensures { result.now ≡ self.now }
    {
        &self.steps
    }

    pub(crate) fn len(&self) -> usize
        ensures { result ≡ length self.now }
    {
        self.steps.len()
    }

    /// How many entries were made since the opening.
    pub(crate) fn entries(&self) -> u64
        ensures { result ≡ (past_of self.now).entries }
    {
        self.entries
    }

    /// How many links they added.
    pub(crate) fn links(&self) -> u64
        ensures { result ≡ (past_of self.now).links }
    {
        self.links
    }

    /// The count of faults at which the store broke.
    pub(crate) fn broken(&self) -> Option<u64>
        ensures { result ≡ broken_by self.now }
    {
        self.broken
    }

    pub(crate) fn into_rows(self) -> Rows<Step>
        ensures { result ≡ self }
    {
        Rows::of_vec(self.steps)
    }
}

// How many links an entry adds.
pub(crate) fn added_links_of(entry: &Entry) -> u64
    ensures { result ≡ added_links (fresh_of entry.now) }
{
    match fresh_of(entry) {
        Some(blob) => blob.links.len() as u64,
        None => 0,
    }
}
