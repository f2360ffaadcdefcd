//! The room that the numbers of events have.

ghost use Rattle.std.specs.Prelude.{◌≡◌, ◌≤◌};
ghost use Rattle.std.specs.FinMap as map;
ghost use Rattle.ddc_model.specs.State.{done_of, log_of};
ghost use Rattle.ddc_model.specs.Entries.{count_added, count_all_deleted, count_deleted, has_numbers};

use super::Index;
use super::legal::{is_object, name_of};
use ddc_names::{IoHash, Namespace, RefName, RefSpot};

impl Index {
    pub(super) fn has_room_to_add(&self, name: &RefName, object: &IoHash) -> bool
        ensures { result ≡ has_numbers self.now.state name.now.space (count_added (done_of (map.get self.now.state.slots name.now)) object.now) }
    {
        self.has_numbers(&name.space, count_of_added(self.done(name), object))
    }

    pub(super) fn has_room_to_delete(&self, name: &RefName) -> bool
        ensures { result ≡ has_numbers self.now.state name.now.space (count_deleted (done_of (map.get self.now.state.slots name.now))) }
    {
        self.has_numbers(&name.space, self.count_of_deleted(name))
    }

    pub(super) fn has_room_to_expire(&self, space: &Namespace, spots: &[RefSpot]) -> bool
        ensures { result ≡ has_numbers self.now.state space.now (count_all_deleted self.now.state space.now spots.now) }
    {
        let mut count = 0;
        for spot in spots {
            count += self.count_of_deleted(&name_of(space, spot));
        }
        self.has_numbers(space, count)
    }

    // The number of the last event of a namespace, and 0 where it never noted one.
    pub(super) fn last_number(&self, space: &Namespace) -> u64
        ensures { result ≡ (log_of self.now.state space.now).last }
    {
        match self.logs.get(space) {
            Some(log) => log.last(),
            None => 0,
        }
    }

    fn has_numbers(&self, space: &Namespace, count: u64) -> bool
        ensures { result ≡ has_numbers self.now.state space.now count }
    {
        count <= u64::MAX - self.last_number(space)
    }

    // How many events note that a reference is taken away.
    fn count_of_deleted(&self, name: &RefName) -> u64
        ensures count { result ≡ count_deleted (done_of (map.get self.now.state.slots name.now)) }
        ensures one { result ≤ 1 }
    {
        match self.done(name) {
            Some(_) => 1,
            None => 0,
        }
    }
}

// How many events note that a reference serves an object, where it served this one before.
fn count_of_added(old: Option<IoHash>, object: &IoHash) -> u64
    ensures { result ≡ count_added old object.now }
{
    if is_object(old, object) { 0 } else { 1 }
}
