//! The nodes of one kind, by the numbers of their blobs.

ghost use Rattle.std.specs.Prelude.{◌≡◌, ℕ, ◌+◌, ◌≤◌, ◌<◌, ◌++◌, ◌∷◌, [], set, true, false, OnOk, OnErr, IfNone, IfSome, length, slice_index_or};
ghost use Rattle.collector.specs.Marks.{white};
ghost use Rattle.collector.specs.inside.Tables.{grey_at, greyed, taken};

use ddc_names::NoMemory;
use std::alloc::Global;
use std::marker::Model;

/// How a node is marked.
#[derive(Clone, Copy, Debug, PartialEq, Eq)]
pub(crate) struct NodeMark {
    pub(crate) marked: bool,
    pub(crate) grey: bool,
}

// Contracts see the marks by number, and for how many nodes more there is room. The grey ones are listed too.
#[derive(Drop)]
pub(crate) struct Nodes {
    marks: Vec<NodeMark>,
    grey: Vec<u32>,
    spare: usize,
}

impl Model for Nodes {
    ghost use Rattle.std.specs.Prelude.{◌≡◌, ◌+◌, ◌≤◌, ◌<◌, ◌^◌, length};
    ghost use Rattle.std.specs.Vec.{vec_capacity};
    ghost use Rattle.collector.specs.inside.Tables.{NodesView, AreListed, count_grey, coded_nodes};

    ghost Value = { NodesView };

    ghost coded = { coded_nodes };

    ghost view = { λ n. record { marks = n.marks.items; spare = n.spare } };

    ghost invariant = { λ n. record { listed : AreListed n.marks.items n.grey.items; counted : length n.grey.items ≡ count_grey n.marks.items; room : length n.marks.items + n.spare ≤ vec_capacity n.marks; grey_room : length n.marks.items + n.spare ≤ vec_capacity n.grey; numbers : length n.marks.items + n.spare < 2 ^ 32 } };
}

impl Nodes {
    pub(crate) fn new(alloc: Global) -> Nodes
        ensures marks { result.marks ≡ [] }
        ensures spare { result.spare ≡ 0 }
    {
        Nodes {
            marks: Vec::new(alloc),
            grey: Vec::new(alloc),
            spare: 0,
        }
    }

    // Takes the memory of so many nodes more at once.
    pub(crate) fn grow(&mut self, count: usize) -> Result<(), NoMemory>
        ensures { self.new ≡ self.old }
    {
        self.marks.reserve_exact(count)?;
        self.grey.reserve_exact(count)?;
        Ok(())
    }

    // Takes room for one node more.
    pub(crate) fn reserve_one(&mut self) -> Result<(), NoMemory>
        ensures marks { self.new.marks ≡ self.old.marks }
        ensures ok { OnOk result (self.new.spare ≡ self.old.spare + 1) }
        ensures err { OnErr result (self.new.spare ≡ self.old.spare) }
    {
        if self.marks.len() + self.spare >= u32::MAX as usize {
            return Err(NoMemory);
        }
        let spare = self.spare + 1;
        self.marks.reserve(spare)?;
        self.grey
            .reserve(self.marks.len() - self.grey.len() + spare)?;
        self.spare = spare;
        Ok(())
    }

    // Adds a white node, with the next number.
    pub(crate) fn add(&mut self)
        requires { 1 ≤ self.old.spare }
        ensures marks { self.new.marks ≡ self.old.marks ++ white ∷ [] }
        ensures spare { self.new.spare + 1 ≡ self.old.spare }
    {
        let white = NodeMark {
            marked: false,
            grey: false,
        };
        let Ok(()) = self.marks.push(white) else {
            unreachable!();
        };
        self.spare -= 1;
    }

    // The mark of a node.
    pub(crate) fn mark(&self, number: u32) -> NodeMark
        requires { number < length self.now.marks }
        ensures { result ≡ slice_index_or self.now.marks number white }
    {
        self.marks[number as usize]
    }

    // Makes a node grey.
    pub(crate) fn shade(&mut self, number: u32)
        requires { number < length self.old.marks }
        ensures marks { self.new.marks ≡ set self.old.marks number (greyed (slice_index_or self.old.marks number white)) }
        ensures spare { self.new.spare ≡ self.old.spare }
    {
        let at = number as usize;
        if self.marks[at].grey {
            return;
        }
        let Ok(()) = self.grey.push(number) else {
            unreachable!();
        };
        self.marks[at] = NodeMark {
            marked: self.marks[at].marked,
            grey: true,
        };
    }

    // Takes a grey node, and marks it.
    pub(crate) fn take(&mut self) -> Option<u32>
        ensures spare { self.new.spare ≡ self.old.spare }
        ensures none { IfNone result (self.new.marks ≡ self.old.marks) }
        ensures none_grey { IfNone result ((number : ℕ) → grey_at self.old.marks number ≡ false) }
        ensures number { IfSome result (λ number. number < length self.old.marks) }
        ensures was_grey { IfSome result (λ number. grey_at self.old.marks number ≡ true) }
        ensures marks { IfSome result (λ number. self.new.marks ≡ set self.old.marks number taken) }
    {
        let number = self.grey.pop()?;
        self.marks[number as usize] = NodeMark {
            marked: true,
            grey: false,
        };
        Some(number)
    }

    // Whether no node is grey.
    pub(crate) fn is_idle(&self) -> bool
        ensures yes { result ≡ true → (number : ℕ) → grey_at self.now.marks number ≡ false }
        ensures no { result ≡ false → (number : ℕ) × (number < length self.now.marks) × (grey_at self.now.marks number ≡ true) }
    {
        self.grey.is_empty()
    }
}
