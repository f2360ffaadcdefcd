//! Marking turns.

ghost use Rattle.std.specs.Prelude.{◌≡◌, ◌+◌, ◌≤◌, ◌<◌, true, cond, length};
ghost use Rattle.std.specs.List.{Contains};
ghost use Rattle.cb_fields.specs.declared.links.Link.{Link};
ghost use Rattle.ddc_model.specs.Closure.{links_in, LeadsTo};
ghost use Rattle.collector.specs.Marks.{NoneGrey, knows, is_safe};
ghost use Rattle.collector.specs.Cover.{AllKnown, StaysCoveredIn};
ghost use Rattle.collector.specs.Turns.{AreTaken};
ghost use Rattle.collector.specs.inside.Steps.{AreMetBy, AreSafeTo, TakesOne};

use crate::Collection;
use cb_fields::{Link, LinkKind};
use ddc_state::Index;

impl Collection {
    /// Takes grey nodes and marks them, until none is left or `limit` were taken, and tells how many were taken.
    pub fn mark_turn(&mut self, index: &mut Index, limit: u32) -> u32
        requires { AllKnown index.old.state self.old }
        ensures state { index.new.state ≡ index.old.state }
        ensures reads { index.new.reads ≤ index.old.reads + result }
        ensures taken { AreTaken (links_in index.old.state self.old.space) self.old result self.new }
        ensures at_most { result ≤ limit }
        ensures all { result < limit → NoneGrey self.new }
        ensures cover { StaysCoveredIn index.old.state self.old self.new }
    {
        let mut taken = 0;
        while taken < limit {
            if !self.take_one(index) {
                return taken;
            }
            taken += 1;
        }
        taken
    }

    // Takes a grey node, and tells whether there was one.
    fn take_one(&mut self, index: &mut Index) -> bool
        ensures state { index.new.state ≡ index.old.state }
        ensures reads { index.new.reads ≤ index.old.reads + cond result 1 0 }
        ensures taken { TakesOne (links_in index.old.state self.old.space) self.old result self.new }
    {
        let Some(node) = self.pick() else {
            return false;
        };
        self.follow(index, node);
        true
    }

    // Makes those attachments of an object grey that are known and not safe.
    fn follow(&mut self, index: &mut Index, node: Link)
        ensures state { index.new.state ≡ index.old.state }
        ensures reads { index.new.reads ≤ index.old.reads + 1 }
        ensures met { AreMetBy (LeadsTo (links_in index.old.state self.old.space) node) self.old self.new }
        ensures safe { (other : Link) → LeadsTo (links_in index.old.state self.old.space) node other → knows self.old other.hash ≡ true → is_safe self.new other ≡ true }
    {
        match node.kind {
            LinkKind::Binary => {}
            LinkKind::Object => {
                let space = self.space();
                let (_, links) = index.links(&space, &node.hash);
                self.meet_all(links);
            }
        }
    }

    // Makes those of some nodes grey that are known and not safe.
    fn meet_all(&mut self, links: &[Link])
        ensures met { AreMetBy (Contains links.now) self.old self.new }
        ensures safe { AreSafeTo (length links.now) links.now self.new }
    {
        for link in links {
            self.meet(*link);
        }
    }
}
