//! Walks up a tree.
ghost use Rattle.std.specs.Prelude.{◌≡◌, IfOk};
ghost use Rattle.ax_trees.specs.Trees.{has};
ghost use Rattle.ax_trees.specs.Nodes.{below, chain, depth};

use ax_base::{Ids, NoMemory, NodeId};
use ax_tree::TreeView;
use std::alloc::Global;

/// How many nodes stand on the way from the root to an id, both counted: the root is at 1, and an id that isn't there at
/// 0. Climbs, so it costs the depth.
pub fn depth<T: TreeView>(t: &T, id: NodeId) -> usize
    ensures { result ≡ depth (T.tree t.now).trees id }
{
    // Both are asked for what they say: the tree is well formed, and no chain has more nodes than the tree.
    let _ = t.root();
    let _ = t.count();
    match t.node(id) {
        Some(_) => {}
        None => return 0,
    }
    let mut depth = 1;
    let mut at = id;
    while let Some(above) = t.parent(at) {
        at = above;
        depth += 1;
    }
    depth
}

/// The ids from the root to an id; none where the id isn't there. Costs the depth.
pub fn chain<T: TreeView>(alloc: Global, t: &T, id: NodeId) -> Result<Ids, NoMemory>
    ensures { IfOk result (λ ids. ids ≡ chain (T.tree t.now).trees id) }
{
    let _ = t.root();
    let mut chain = Ids::new(alloc);
    match t.node(id) {
        Some(_) => {}
        None => return Ok(chain),
    }
    let mut climbed = Ids::new(alloc);
    climbed.push(id)?;
    let mut at = id;
    while let Some(above) = t.parent(at) {
        climbed.push(above)?;
        at = above;
    }
    chain.push_reversed(&climbed)?;
    Ok(chain)
}

/// Whether an id stands below `over`. No id stands below itself. Climbs, so it costs the depth.
pub fn is_below<T: TreeView>(t: &T, id: NodeId, over: NodeId) -> bool
    ensures { result ≡ has (below (T.tree t.now).trees over) id }
{
    let _ = t.root();
    let mut at = id;
    while let Some(above) = t.parent(at) {
        if above == over {
            return true;
        }
        at = above;
    }
    false
}
