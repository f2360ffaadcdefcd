//! The walk.

ghost use Rattle.std.specs.Prelude.{◌≡◌, ◌+◌, ◌≤◌, ◌↔◌, [], ◌∷◌, IsTrue, IfOk, OnOk, length};
ghost use Rattle.std.specs.List.Sorted.{IsStrictlySortedBy};
ghost use Rattle.ddc_names.specs.Orders.{io_hash_cmp};
ghost use Rattle.ddc_model.specs.Closure.{links_in};
ghost use Rattle.needs_resolver.specs.Walking.{IsMet, AreMet, IsObjectRead, AreRead, met_of, most_reads};

use cb_fields::{Link, LinkKind};
use ddc_names::{IoHash, Namespace, NoMemory, Rows};
use ddc_state::Index;
use std::alloc::Global;
use std::collections::BTreeSet;

// What a walk has met: the objects that are there, the hashes that aren't, and which of the objects are still to be
// read.
#[derive(Drop)]
pub(crate) struct ClosureWalk {
    seen: BTreeSet<IoHash>,
    absent: BTreeSet<IoHash>,
    work: Vec<IoHash>,
}

impl ClosureWalk {
    pub(crate) fn new(alloc: Global) -> ClosureWalk
        ensures seen { result.seen.keys ≡ [] }
        ensures absent { result.absent.keys ≡ [] }
        ensures work { result.work.items ≡ [] }
    {
        ClosureWalk {
            seen: BTreeSet::new(alloc),
            absent: BTreeSet::new(alloc),
            work: Vec::new(alloc),
        }
    }

    // A walk that has met this object, and needn't read it.
    pub(crate) fn with_root(alloc: Global, root: IoHash) -> Result<ClosureWalk, NoMemory>
        ensures seen { IfOk result (λ walk. walk.seen.keys ≡ root ∷ []) }
        ensures absent { IfOk result (λ walk. walk.absent.keys ≡ []) }
        ensures work { IfOk result (λ walk. walk.work.items ≡ []) }
    {
        let mut walk = ClosureWalk::new(alloc);
        walk.seen.insert(root)?;
        Ok(walk)
    }

    // Meets a node: an absent hash is noted, and an object that is met for the first time is to be read.
    pub(crate) fn meet(
        &mut self,
        index: &Index,
        space: &Namespace,
        node: Link,
    ) -> Result<(), NoMemory>
        ensures met { OnOk result (IsMet (links_in index.now.state space.now) node (met_of self.old) (met_of self.new)) }
        ensures less { OnOk result (most_reads index.now.state space.now (met_of self.new) ≤ most_reads index.now.state space.now (met_of self.old)) }
    {
        if self.seen.contains(&node.hash) {
            return Ok(());
        }
        match index.blob(space, &node.hash) {
            None => {
                self.absent.insert(node.hash)?;
            }
            Some(_) => match node.kind {
                LinkKind::Binary => {}
                LinkKind::Object => {
                    self.seen.insert(node.hash)?;
                    self.work.push(node.hash)?;
                }
            },
        }
        Ok(())
    }

    pub(crate) fn meet_all(
        &mut self,
        index: &Index,
        space: &Namespace,
        nodes: &[Link],
    ) -> Result<(), NoMemory>
        ensures met { OnOk result (AreMet (links_in index.now.state space.now) nodes.now (length nodes.now) (met_of self.old) (met_of self.new)) }
        ensures less { OnOk result (most_reads index.now.state space.now (met_of self.new) ≤ most_reads index.now.state space.now (met_of self.old)) }
    {
        for node in nodes {
            self.meet(index, space, *node)?;
        }
        Ok(())
    }

    // Meets what an object links to.
    fn read(&mut self, index: &mut Index, space: &Namespace, held: IoHash) -> Result<(), NoMemory>
        ensures same { index.new.state ≡ index.old.state }
        ensures counted { index.new.reads ≤ index.old.reads + 1 }
        ensures read { OnOk result (IsObjectRead (links_in index.old.state space.now) held (met_of self.old) (met_of self.new)) }
        ensures less { OnOk result (most_reads index.old.state space.now (met_of self.new) ≤ most_reads index.old.state space.now (met_of self.old)) }
    {
        let (index, links) = index.links(space, &held);
        self.meet_all(index, space, links)?;
        Ok(())
    }

    // Reads the objects that were met, and those that are met by that.
    pub(crate) fn read_all(&mut self, index: &mut Index, space: &Namespace) -> Result<(), NoMemory>
        ensures same { index.new.state ≡ index.old.state }
        ensures counted { index.new.reads ≤ index.old.reads + most_reads index.old.state space.now (met_of self.old) }
        ensures left { OnOk result (index.new.reads + most_reads index.old.state space.now (met_of self.new) ≤ index.old.reads + most_reads index.old.state space.now (met_of self.old)) }
        ensures read { OnOk result (AreRead (links_in index.old.state space.now) (met_of self.old) (met_of self.new)) }
        ensures done { OnOk result (self.new.work.items ≡ []) }
    {
        while let Some(held) = self.work.pop() {
            self.read(index, space, held)?;
        }
        Ok(())
    }

    // Whether all that was met is there.
    pub(crate) fn is_whole(&self) -> bool
        ensures { IsTrue result ↔ (length self.now.absent.keys ≡ 0) }
    {
        self.absent.is_empty()
    }

    // The absent hashes, in order.
    pub(crate) fn absent(&self, alloc: Global) -> Result<Rows<IoHash>, NoMemory>
        ensures same { IfOk result (λ list. list ≡ self.now.absent.keys) }
        ensures ordered { IfOk result (λ list. IsStrictlySortedBy io_hash_cmp list) }
    {
        let list = self.absent.iter().copied().collect(alloc)?;
        Ok(Rows::of_vec(list))
    }
}
