//! The events that changes note.

ghost use Rattle.std.specs.Prelude.{◌≡◌, true, OnOk, OnErr};
ghost use Rattle.replication_log.specs.Logs.{can_follow};
ghost use Rattle.ddc_model.specs.State.{log_of};
ghost use Rattle.ddc_model.specs.Entries.{count_added, count_deleted, has_numbers, noted_added, noted_deleted, with_noted, with_numbered};
ghost use Rattle.ddc_state.specs.Views.{in_state};
ghost use Rattle.ddc_state.specs.inside.Noted.{noted_where};

use super::Index;
use super::legal::is_object;
use crate::logs::add_event;
use ddc_names::{IoHash, NoMemory, RefName};
use replication_log::{Event, EventOp};
use std::alloc::Global;

impl Index {
    // Notes an event of a reference with this number.
    pub(super) fn note_numbered(
        &mut self,
        alloc: Global,
        name: &RefName,
        number: u64,
        op: EventOp,
    ) -> Result<(), NoMemory>
        requires { can_follow (log_of self.old.state name.now.space) number ≡ true }
        ensures ok { OnOk result (self.new ≡ in_state self.old (with_numbered self.old.state name.now number op)) }
        ensures err { OnErr result (self.new ≡ self.old) }
    {
        let spot = name.spot;
        let kept = self.limits.kept;
        let event = Event { number, spot, op };
        add_event(alloc, &mut self.logs, kept, &name.space, event)?;
        Ok(())
    }

    // Notes an event of a reference with the next number.
    fn note(&mut self, alloc: Global, name: &RefName, op: EventOp) -> Result<(), NoMemory>
        requires { has_numbers self.old.state name.now.space 1 ≡ true }
        ensures ok { OnOk result (self.new ≡ in_state self.old (with_noted self.old.state name.now op)) }
        ensures err { OnErr result (self.new ≡ self.old) }
    {
        let last = self.last_number(&name.space);
        self.note_numbered(alloc, name, last + 1, op)?;
        Ok(())
    }

    // Notes that a reference serves an object, where it didn't serve this one before.
    pub(super) fn note_added(
        &mut self,
        alloc: Global,
        name: &RefName,
        old: Option<IoHash>,
        object: &IoHash,
    ) -> Result<(), NoMemory>
        requires { has_numbers self.old.state name.now.space (count_added old object.now) ≡ true }
        ensures ok { OnOk result (self.new ≡ in_state self.old (noted_added self.old.state name.now old object.now)) }
        ensures err { OnErr result (self.new ≡ self.old) }
    {
        if is_object(old, object) {
            return Ok(());
        }
        self.note(alloc, name, EventOp::Added(*object))?;
        Ok(())
    }

    // Notes the same after a put, where the put finalises its object.
    pub(super) fn note_put(
        &mut self,
        alloc: Global,
        name: &RefName,
        old: Option<IoHash>,
        root: &IoHash,
        whole: bool,
    ) -> Result<(), NoMemory>
        requires { whole ≡ true → has_numbers self.old.state name.now.space (count_added old root.now) ≡ true }
        ensures ok { OnOk result (self.new ≡ in_state self.old (noted_where whole self.old.state name.now old root.now)) }
        ensures err { OnErr result (self.new ≡ self.old) }
    {
        if whole {
            self.note_added(alloc, name, old, root)?;
        }
        Ok(())
    }

    // Notes that a reference serves nothing any more, where it served this object.
    pub(super) fn note_deleted(
        &mut self,
        alloc: Global,
        name: &RefName,
        old: Option<IoHash>,
    ) -> Result<(), NoMemory>
        requires { has_numbers self.old.state name.now.space (count_deleted old) ≡ true }
        ensures ok { OnOk result (self.new ≡ in_state self.old (noted_deleted self.old.state name.now old)) }
        ensures err { OnErr result (self.new ≡ self.old) }
    {
        if old.is_some() {
            self.note(alloc, name, EventOp::Deleted)?;
        }
        Ok(())
    }
}
