//! Lists of children as sets, and what of one list another has.

ghost use Rattle.std.specs.Prelude.{◌≡◌, ℕ, [], IfOk, nat_eq};
ghost use Rattle.std.specs.HashSet as bag;
ghost use Rattle.ax_trees.specs.Lists.{contains};
ghost use Rattle.ax_tree.specs.UpdateRule.{first_repeated};
ghost use Rattle.ax_mirror.specs.Steps.{unlisted};

use ax_base::{Ids, NoMemory, NodeId};
use std::alloc::Global;
use std::collections::HashSet;

/// The ids of a list.
pub fn set_of(ids: &Ids, alloc: Global) -> Result<HashSet<NodeId>, NoMemory>
    ensures { IfOk result (λ s. (z : ℕ) → bag.contains nat_eq s z ≡ contains ids.now z) }
{
    let mut set = HashSet::new(alloc);
    for id in ids.as_slice() {
        match set.insert(*id) {
            Ok(_) => {}
            Err(_) => return Err(NoMemory),
        }
    }
    Ok(set)
}

/// The first id that stands earlier in the list.
pub fn first_repeated(ids: &Ids, alloc: Global) -> Result<Option<NodeId>, NoMemory>
    ensures { IfOk result (λ o. o ≡ first_repeated [] ids.now) }
{
    let mut set = HashSet::new(alloc);
    for id in ids.as_slice() {
        match set.insert(*id) {
            Ok(true) => {}
            Ok(false) => return Ok(Some(*id)),
            Err(_) => return Err(NoMemory),
        }
    }
    Ok(None)
}

/// Those ids that aren't in the set, in their order.
pub fn outside(ids: &Ids, set: &HashSet<NodeId>, alloc: Global) -> Result<Ids, NoMemory>
    ensures { IfOk result (λ js. js ≡ unlisted (bag.contains nat_eq set.now) ids.now) }
{
    let mut out = Ids::new(alloc);
    for id in ids.as_slice() {
        if set.contains(id) {
            continue;
        }
        out.push(*id)?;
    }
    Ok(out)
}
