//! Reach from an id, and whether it is plain.
ghost use Rattle.std.specs.Prelude.{◌≡◌, [], ◌∷◌, ◌++◌, ◌&&◌, if◌then◌else◌, filter, reverse, IfOk, IsTrue, OnOk};
ghost use Rattle.ax_trees.specs.Trees.{has};
ghost use Rattle.ax_trees.specs.Nodes.{below, tree_at};
ghost use Rattle.ax_tree.specs.SerialRule.{from_root, goes_on, reached_fit, stand_under};
ghost use Rattle.ax_lca.specs.Reached.{all_under, ids_of, is_under};

use ax_base::{Ids, NoMemory, NodeId};
use ax_client::{ClientTree, place_near};
use ax_marks::Marks;
use ax_tree::TreeView;
use std::alloc::Global;

/// What is reached from `x`, in pre-order, and whether each child of a reached node that the client has stands under that
/// node there. Reach goes on through the children that the client doesn't have or that are marked. Costs the reached nodes
/// with their child lists; of the children that the client lists in the same order, only the marks are looked up.
pub fn reach<T: TreeView>(
    alloc: Global,
    s: &T,
    c: &ClientTree,
    m: &Marks,
    x: NodeId,
) -> Result<(Ids, bool), NoMemory>
    requires { IsTrue (has (T.tree s.now).trees x) }
    ensures ids { IfOk result (λ p. p.0 ≡ ids_of (from_root (goes_on c.now.tree m.now) (tree_at (T.tree s.now).trees x))) }
    ensures fits { IfOk result (λ p. p.1 ≡ (stand_under c.now.tree x (below (T.tree s.now).trees x) && reached_fit c.now.tree (goes_on c.now.tree m.now) (below (T.tree s.now).trees x))) }
{
    let _ = s.root();
    let mut ids = Ids::new(alloc);
    let mut stack = Ids::new(alloc);
    let mut fits = true;
    stack.push(x)?;
    while let Some(next) = stack.pop() {
        if let Some(node) = s.node(next) {
            ids.push(next)?;
            let here = push_reached(alloc, c, m, next, node.children.as_slice(), &mut stack)?;
            fits = both(fits, here);
        }
    }
    Ok((ids, fits))
}

fn both(a: bool, b: bool) -> bool
    ensures { result ≡ (a && b) }
{
    if a { b } else { false }
}

/// Puts the children through which reach goes on on the stack, the last one first, and tells whether those that the client
/// has stand under `over` there. Of the children that the client lists there in the same order, only the marks are asked.
fn push_reached(
    alloc: Global,
    c: &ClientTree,
    m: &Marks,
    over: NodeId,
    children: &[NodeId],
    stack: &mut Ids,
) -> Result<bool, NoMemory>
    ensures pushed { OnOk result (stack.new ≡ stack.old ++ reverse (filter (goes_on c.now.tree m.now) children.now)) }
    ensures fits { IfOk result (λ b. b ≡ all_under c.now.tree over children.now) }
{
    let held = c.children(over);
    let mut going = Ids::new(alloc);
    let mut fits = true;
    let mut passed = 0;
    for child in children {
        if let Some(place) = place_near(held, passed, *child) {
            push_if(&mut going, *child, m.has(*child))?;
            passed = place + 1;
            continue;
        }
        push_if(&mut going, *child, goes_on(c, m, *child))?;
        fits = both(fits, fits_under(c, over, *child));
    }
    stack.push_reversed(&going)?;
    Ok(fits)
}

fn push_if(stack: &mut Ids, id: NodeId, wanted: bool) -> Result<(), NoMemory>
    ensures { OnOk result (stack.new ≡ stack.old ++ (if wanted then id ∷ [] else [])) }
{
    if wanted {
        return stack.push(id);
    }
    Ok(())
}

/// Whether the client doesn't have the id, or it stands under `over` there.
fn fits_under(c: &ClientTree, over: NodeId, id: NodeId) -> bool
    ensures { result ≡ is_under c.now.tree over id }
{
    let _ = c.root();
    if !c.holds(id) {
        return true;
    }
    match c.parent(id) {
        Some(above) => above == over,
        None => false,
    }
}

fn goes_on(c: &ClientTree, m: &Marks, id: NodeId) -> bool
    ensures { result ≡ goes_on c.now.tree m.now id }
{
    if !c.holds(id) {
        return true;
    }
    m.has(id)
}
