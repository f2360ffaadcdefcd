//! The bodies of a journal, and the state that they lead to.

ghost use Rattle.std.specs.Prelude.{◌≡◌, ◌≤◌, ◌^◌, [], IfErr, IfOk};
ghost use Rattle.ddc_model.specs.State.{empty_state};
ghost use Rattle.ddc_model.specs.Sound.{AreWhole};
ghost use Rattle.ddc_opening.specs.inside.Replaying.{AreReplayed, MakesOrNot, ReplayFault};

use crate::OpenFault;
use ddc_entry::read_entry;
use ddc_model::{Limits, Step};
use ddc_names::{ByteList, NoMemory, Rows};
use ddc_state::Index;
use needs_resolver::first_unsound;
use std::alloc::Global;

// How many bytes stand before the first item of a journal file: its head and its gate.
const FRONT: u64 = 21;
// How many bytes stand before a body: its gate and its length.
const ITEM_HEAD: u64 = 5;

// What some bodies lead to, and the changes that they are.
#[derive(Drop)]
pub(crate) struct Replayed {
    pub(crate) index: Index,
    pub(crate) steps: Vec<Step>,
}

impl Replayed {
    // Nothing yet.
    fn new(alloc: Global, limits: Limits) -> Replayed
        requires kept { 1 ≤ limits.kept }
        requires units { limits.units ≤ 2 ^ 51 }
        ensures state { result.index.state ≡ empty_state limits }
        ensures steps { result.steps.items ≡ [] }
    {
        Replayed {
            index: Index::new(alloc, limits),
            steps: Vec::new(alloc),
        }
    }

    // Makes the change of a body, or tells that it is none.
    fn make(&mut self, alloc: Global, body: &[u8]) -> Result<bool, NoMemory>
        ensures { IfOk result (λ made. MakesOrNot body.now self.old.index.state self.new.index.state self.old.steps.items self.new.steps.items made) }
    {
        let Some(entry) = read_entry(alloc, body)? else {
            return Ok(false);
        };
        if !self.index.fits(&entry) {
            return Ok(false);
        }
        self.index.apply(alloc, &entry)?;
        self.steps.push(Step::Change(entry))?;
        Ok(true)
    }
}

// Makes the changes of all the bodies of the file with this number. Each body goes once its change is made.
fn replay_all(
    alloc: Global,
    limits: Limits,
    bodies: Rows<ByteList>,
    file: u8,
) -> Result<Replayed, OpenFault>
    requires kept { 1 ≤ limits.kept }
    requires units { limits.units ≤ 2 ^ 51 }
    ensures replayed { IfOk result (λ replay. AreReplayed limits bodies replay.index.state replay.steps.items) }
    ensures fault { IfErr result (λ fault. ReplayFault limits bodies file fault) }
{
    let mut replay = Replayed::new(alloc, limits);
    // After the changes stand the opening and, where the store breaks, the note of it.
    let room = bodies.len().saturating_add(2);
    if replay.steps.reserve_exact(room).is_err() {
        return Err(OpenFault::NoMemory);
    }
    let mut at = FRONT;
    for body in bodies.into_vec() {
        match replay.make(alloc, body.as_slice()) {
            Ok(true) => {}
            Ok(false) => return Err(OpenFault::Corrupt { file, at }),
            Err(NoMemory) => return Err(OpenFault::NoMemory),
        }
        at = at
            .saturating_add(ITEM_HEAD)
            .saturating_add(body.len() as u64);
    }
    Ok(replay)
}

// Makes the changes of all the bodies, and sees that each finalised reference is whole.
pub(crate) fn replay(
    alloc: Global,
    limits: Limits,
    bodies: Rows<ByteList>,
    file: u8,
) -> Result<Replayed, OpenFault>
    requires kept { 1 ≤ limits.kept }
    requires units { limits.units ≤ 2 ^ 51 }
    ensures replayed { IfOk result (λ replay. AreReplayed limits bodies replay.index.state replay.steps.items) }
    ensures whole { IfOk result (λ replay. AreWhole replay.index.state) }
    ensures fault { IfErr result (λ fault. ReplayFault limits bodies file fault) }
{
    let mut replay = replay_all(alloc, limits, bodies, file)?;
    match first_unsound(alloc, &mut replay.index) {
        Ok(None) => Ok(replay),
        Ok(Some(name)) => Err(OpenFault::Unsound { name }),
        Err(NoMemory) => Err(OpenFault::NoMemory),
    }
}
