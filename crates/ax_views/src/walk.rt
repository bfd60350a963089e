//! Walks down a tree.
ghost use Rattle.std.specs.Prelude.{◌≡◌, IfOk};
ghost use Rattle.ax_trees.specs.Trees.{height};
ghost use Rattle.ax_trees.specs.Nodes.{below, pre};

use ax_base::{Ids, NoMemory, NodeId};
use ax_tree::TreeView;
use std::alloc::Global;

/// The ids of a node and of all below it, in pre-order; none where the id isn't there. Costs the nodes that it lists.
pub fn pre<T: TreeView>(alloc: Global, t: &T, id: NodeId) -> Result<Ids, NoMemory>
    ensures { IfOk result (λ ids. ids ≡ pre (T.tree t.now).trees id) }
{
    let _ = t.root();
    let mut out = Ids::new(alloc);
    match t.node(id) {
        Some(_) => {}
        None => return Ok(out),
    }
    let mut stack = Ids::new(alloc);
    stack.push(id)?;
    while let Some(next) = stack.pop() {
        if let Some(node) = t.node(next) {
            out.push(next)?;
            stack.push_reversed(&node.children)?;
        }
    }
    Ok(out)
}

/// How many nodes the longest chain has that stands wholly below a node; 0 where none stands there. Costs the nodes below.
/// It takes no memory but the machine's stack, which gets as deep as these nodes are, so an answer doesn't hang on memory.
pub fn height_below<T: TreeView>(t: &T, id: NodeId) -> usize
    ensures { result ≡ height (below (T.tree t.now).trees id) }
{
    // Both are asked for what they say: the tree is well formed, and no chain has more nodes than the tree.
    let _ = t.root();
    let _ = t.count();
    let node = match t.node(id) {
        Some(node) => node,
        None => return 0,
    };
    let mut high = 0;
    for child in node.children.as_slice() {
        let with_child = height_below(t, *child) + 1;
        if with_child > high {
            high = with_child;
        }
    }
    high
}
