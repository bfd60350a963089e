//! Where two lists of ids part.
ghost use Rattle.std.specs.Prelude.{◌≡◌, ◌≤◌, ◌+◌, ◌++◌, ◌⊎◌, Some, false, length, slice_get, slice_range, IfOk, IfSome, IfNone, OnOk};
ghost use Rattle.ax_trees.specs.Lists.{contains};
ghost use Rattle.ax_client.specs.Parted.{AreParts};

use ax_base::{Ids, NoMemory, NodeId};
use std::alloc::Global;

// A look costs about what one look-up by id costs.
const NEAR: usize = 32;

/// The place of an id among the next 32 ids of a list from a place on; `None` where it isn't among them.
pub fn place_near(ids: &[NodeId], from: usize, id: NodeId) -> Option<usize>
    requires { from ≤ length ids.now }
    ensures from { IfSome result (λ p. from ≤ p) }
    ensures found { IfSome result (λ p. slice_get ids.now p ≡ Some id) }
    ensures none { IfNone result (contains (slice_range ids.now from (from + 32)) id ≡ false) }
{
    let end = near_end(ids.len(), from);
    let mut at = from;
    while at < end {
        if ids[at] == id {
            return Some(at);
        }
        at += 1;
    }
    None
}

/// Where the next 32 of so many ids end.
fn near_end(len: usize, from: usize) -> usize
    requires { from ≤ len }
    ensures above { from ≤ result }
    ensures within { result ≤ len }
    ensures near { result ≤ from + 32 }
    ensures all { (result ≡ len) ⊎ (result ≡ from + 32) }
{
    if len - from <= NEAR { len } else { from + NEAR }
}

/// What is left of an old and of a new list without ids that stand in both.
#[derive(Drop)]
pub(crate) struct Parts {
    pub gone: Ids,
    pub come: Ids,
}

/// Two lists without ids that stand in both in the same order. Small changes leave little: of ids that were put in, taken
/// out or moved, each leaves itself alone. Linear in both.
pub(crate) fn part(alloc: Global, old: &[NodeId], new: &[NodeId]) -> Result<Parts, NoMemory>
    ensures { IfOk result (λ p. AreParts old.now new.now p.gone p.come) }
{
    let mut gone = Ids::new(alloc);
    let mut come = Ids::new(alloc);
    let mut passed = 0;
    for id in new {
        if let Some(place) = place_near(old, passed, *id) {
            push_all(&mut gone, &old[passed..place])?;
            passed = place + 1;
            continue;
        }
        come.push(*id)?;
    }
    push_all(&mut gone, &old[passed..])?;
    Ok(Parts { gone, come })
}

// Most often there are none.
fn push_all(ids: &mut Ids, more: &[NodeId]) -> Result<(), NoMemory>
    ensures { OnOk result (ids.new ≡ ids.old ++ more.now) }
{
    if more.is_empty() {
        return Ok(());
    }
    ids.extend_from_slice(more)
}
