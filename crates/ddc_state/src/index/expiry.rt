//! References that are taken away together.

ghost use Rattle.std.specs.Prelude.{◌≡◌, ◌+◌, ◌^◌, ◌<◌, true, length, OnOk, OnErr, IfOk};
ghost use Rattle.ddc_names.specs.Orders.{spot_cmp};
ghost use Rattle.ddc_model.specs.State.{log_of};
ghost use Rattle.ddc_model.specs.Entries.{after, ascends, count_all_deleted, has_numbers};
ghost use Rattle.ddc_model.specs.declared.entry.Entry.TheVariants.{Expire};
ghost use Rattle.ddc_state.specs.Views.{in_state};
ghost use Rattle.ddc_state.specs.inside.Noted.{with_deletions};
ghost use Rattle.ddc_state.specs.inside.Expired.{served_of, without_slots_of};

use super::Index;
use super::legal::name_of;
use crate::logs::add_deletions;
use ddc_names::{Namespace, NoMemory, RefSpot, Rows};
use std::alloc::Global;

impl Index {
    // The events are noted first: all of them, or none for want of memory. To take references away takes none.
    pub(super) fn apply_expire(
        &mut self,
        alloc: Global,
        space: &Namespace,
        spots: &[RefSpot],
        hour: u32,
    ) -> Result<(), NoMemory>
        requires ordered { ascends spot_cmp spots.now ≡ true }
        requires numbers { has_numbers self.old.state space.now (count_all_deleted self.old.state space.now spots.now) ≡ true }
        ensures ok { OnOk result (self.new ≡ in_state self.old (after self.old.state (Expire space.now spots.now hour))) }
        ensures err { OnErr result (self.new ≡ self.old) }
    {
        let served = self.served_of(alloc, space, spots)?;
        self.note_deletions(alloc, space, served.as_slice())?;
        self.drop_slots(space, spots);
        self.raise(hour);
        Ok(())
    }

    // Notes that these references serve nothing any more.
    fn note_deletions(
        &mut self,
        alloc: Global,
        space: &Namespace,
        spots: &[RefSpot],
    ) -> Result<(), NoMemory>
        requires { (log_of self.old.state space.now).last + length spots.now < 2 ^ 64 }
        ensures ok { OnOk result (self.new ≡ in_state self.old (record self.old.state { logs = with_deletions self.old.state.logs self.old.state.limits.kept space.now spots.now })) }
        ensures err { OnErr result (self.new ≡ self.old) }
    {
        let kept = self.limits.kept;
        add_deletions(alloc, &mut self.logs, kept, space, spots)?;
        Ok(())
    }

    // Those of these references that serve an object.
    fn served_of(
        &self,
        alloc: Global,
        space: &Namespace,
        spots: &[RefSpot],
    ) -> Result<Rows<RefSpot>, NoMemory>
        ensures { IfOk result (λ served. served ≡ served_of self.now.state.slots space.now spots.now) }
    {
        let mut served = Rows::new(alloc);
        for spot in spots {
            if self.serves(&name_of(space, spot)) {
                served.push(*spot)?;
            }
        }
        Ok(served)
    }

    fn drop_slots(&mut self, space: &Namespace, spots: &[RefSpot])
        ensures { self.new ≡ without_slots_of space.now self.old spots.now }
    {
        for spot in spots {
            self.drop_slot(&name_of(space, spot));
        }
    }
}
