//! Whether the closure of each finalised reference is whole.
//!
//! One walk goes on from one reference of a namespace to the next, so that the links of an object are read once,
//! whatever is shared. Another namespace has a walk of its own.

ghost use Rattle.std.specs.Prelude.{◌≡◌, ◌+◌, ◌≤◌, false, true, IfOk, OnOk};
ghost use Rattle.std.specs.FinMap as map;
ghost use Rattle.ref_store.specs.Nexts.{is_behind};
ghost use Rattle.ddc_model.specs.State.{State};
ghost use Rattle.ddc_model.specs.Closure.{links_in};
ghost use Rattle.ddc_model.specs.Sound.{FirstUnsound};
ghost use Rattle.needs_resolver.specs.Walking.{IsIdle, met_of, most_reads};
ghost use Rattle.needs_resolver.specs.Unsound.{Lacks, IsIdleAfter, reads_after};

use crate::closure_walk::ClosureWalk;
use cb_fields::{Link, LinkKind};
use ddc_names::{NoMemory, RefName};
use ddc_state::Index;
use ref_store::Slot;
use std::alloc::Global;
use std::cmp::Ordering;

/// The first reference, by name, that is finalised while a blob of its object's closure isn't stored.
///
/// # Errors
///
/// `NoMemory` where there is none for a walk. The index keeps its state all the same.
pub fn first_unsound(alloc: Global, index: &mut Index) -> Result<Option<RefName>, NoMemory>
    ensures same { index.new.state ≡ index.old.state }
    ensures found { IfOk result (λ found. FirstUnsound index.old.state found) }
    ensures each_blob_is_read_once_at_most { index.new.reads ≤ index.old.reads + map.len index.old.state.blobs }
{
    let mut walk = ClosureWalk::new(alloc);
    let mut last: Option<RefName> = None;
    while let Some((name, slot)) = index.refs().next(last.as_ref()) {
        go_on(alloc, &mut walk, last, &name);
        if lacks(&mut walk, index, &name, &slot)? {
            return Ok(Some(name));
        }
        last = Some(name);
    }
    Ok(None)
}

// Begins the walk anew where the next reference is of another namespace.
fn go_on(alloc: Global, walk: &mut ClosureWalk, last: Option<RefName>, name: &RefName)
    ensures idle { (s : State) → IsIdleAfter s last (met_of walk.old) → IsIdle (links_in s name.now.space) (met_of walk.new) }
    ensures left { (s : State) → IsIdleAfter s last (met_of walk.old) → is_behind last name.now ≡ true → most_reads s name.now.space (met_of walk.new) ≤ reads_after s last (met_of walk.old) }
{
    if let Some(before) = last {
        match before.space.cmp(&name.space) {
            Ordering::Equal => {}
            _ => *walk = ClosureWalk::new(alloc),
        }
    }
}

// Whether a reference is finalised and a blob of its closure isn't there. Where none is absent, the walk can go on.
fn lacks(
    walk: &mut ClosureWalk,
    index: &mut Index,
    name: &RefName,
    slot: &Slot,
) -> Result<bool, NoMemory>
    requires { IsIdle (links_in index.old.state name.now.space) (met_of walk.old) }
    ensures same { index.new.state ≡ index.old.state }
    ensures counted { index.new.reads ≤ index.old.reads + most_reads index.old.state name.now.space (met_of walk.old) }
    ensures left { OnOk result (index.new.reads + most_reads index.old.state name.now.space (met_of walk.new) ≤ index.old.reads + most_reads index.old.state name.now.space (met_of walk.old)) }
    ensures lacks { IfOk result (λ lacks. Lacks index.old.state name.now slot.now lacks) }
    ensures idle { IfOk result (λ lacks. lacks ≡ false → IsIdle (links_in index.old.state name.now.space) (met_of walk.new)) }
{
    match slot.done {
        None => Ok(false),
        Some(root) => {
            let first = Link {
                kind: LinkKind::Object,
                hash: root,
            };
            walk.meet(index, &name.space, first)?;
            walk.read_all(index, &name.space)?;
            Ok(!walk.is_whole())
        }
    }
}
