//! What is missing of a closure.

ghost use Rattle.std.specs.Prelude.{◌≡◌, ◌+◌, ◌≤◌, IfOk};
ghost use Rattle.std.specs.FinMap as map;
ghost use Rattle.ddc_model.specs.Closure.{AreNeeds, links_in, with_links};

use crate::closure_walk::ClosureWalk;
use cb_fields::{Link, LinkKind};
use ddc_names::{IoHash, Namespace, NoMemory, Rows};
use ddc_state::Index;
use std::alloc::Global;

/// What is missing of the closure of an object, ascending and each hash once. Where the object itself isn't stored,
/// that is its own hash alone.
///
/// # Errors
///
/// `NoMemory` where there is none for the walk or the list. The index keeps its state all the same.
pub fn needs(
    alloc: Global,
    index: &mut Index,
    space: &Namespace,
    root: IoHash,
) -> Result<Rows<IoHash>, NoMemory>
    ensures same { index.new.state ≡ index.old.state }
    ensures needs { IfOk result (λ needs. AreNeeds (links_in index.old.state space.now) root needs) }
    ensures each_blob_is_read_once_at_most { index.new.reads ≤ index.old.reads + map.len index.old.state.blobs }
{
    let mut walk = ClosureWalk::new(alloc);
    let first = Link {
        kind: LinkKind::Object,
        hash: root,
    };
    walk.meet(index, space, first)?;
    walk.read_all(index, space)?;
    let needs = walk.absent(alloc)?;
    Ok(needs)
}

/// What will be missing of the closure of an object once a blob with these links is stored under its hash: ascending,
/// and each hash once. The links of a blob that has the hash already aren't looked at.
///
/// # Errors
///
/// `NoMemory` where there is none for the walk or the list. The index keeps its state all the same.
pub fn needs_with(
    alloc: Global,
    index: &mut Index,
    space: &Namespace,
    root: IoHash,
    fresh: &[Link],
) -> Result<Rows<IoHash>, NoMemory>
    ensures same { index.new.state ≡ index.old.state }
    ensures needs { IfOk result (λ needs. AreNeeds (with_links (links_in index.old.state space.now) root fresh.now) root needs) }
    ensures each_blob_is_read_once_at_most { index.new.reads ≤ index.old.reads + map.len index.old.state.blobs }
{
    let mut walk = ClosureWalk::with_root(alloc, root)?;
    walk.meet_all(index, space, fresh)?;
    walk.read_all(index, space)?;
    let needs = walk.absent(alloc)?;
    Ok(needs)
}
