//! The ids of a list in pre-order: marked upwards, and walked downwards.
ghost use Rattle.std.specs.Prelude.{◌≡◌, ℕ, IfOk, OnOk, filter, nat_eq, reverse, true, ◌++◌};
ghost use Rattle.std.specs.HashMap.{get};
ghost use Rattle.std.specs.HashSet as bag;
ghost use Rattle.ax_trees.specs.Trees.{ids, has};
ghost use Rattle.ax_trees.specs.Lists.{contains};
ghost use Rattle.ax_trees.specs.Nodes.{children};
ghost use Rattle.ax_order.specs.Marks.{IsMarking, is_marked};

use crate::marks::{Branches, Marks, branches_at, mark};
use ax_base::{Ids, NoMemory, NodeId};
use ax_tree::TreeView;
use std::alloc::Global;
use std::collections::{HashMap, HashSet};

/// Those of the ids that stand in the tree, each once, in pre-order. Costs the ids times their depth, and the child lists
/// of nodes where the ways to them part.
pub fn in_order<T: TreeView>(alloc: Global, t: &T, some: &[NodeId]) -> Result<Ids, NoMemory>
    ensures { IfOk result (λ out. out ≡ filter (contains some.now) (ids (T.tree t.now).trees)) }
{
    let set = set_of(alloc, some)?;
    let marks = marks_of(alloc, t, some)?;
    let marked = marked_in_order(alloc, t, &marks)?;
    let out = inside(alloc, marked.as_slice(), &set)?;
    Ok(out)
}

/// The ids of a list, as a set.
pub fn set_of(alloc: Global, ids: &[NodeId]) -> Result<HashSet<NodeId>, NoMemory>
    ensures { IfOk result (λ s. (z : ℕ) → bag.contains nat_eq s z ≡ contains ids.now z) }
{
    let mut set = HashSet::new(alloc);
    for id in ids {
        match set.insert(*id) {
            Ok(_) => {}
            Err(_) => return Err(NoMemory),
        }
    }
    Ok(set)
}

/// Those ids that are in the set, in their order.
fn inside(alloc: Global, ids: &[NodeId], set: &HashSet<NodeId>) -> Result<Ids, NoMemory>
    ensures { IfOk result (λ out. out ≡ filter (bag.contains nat_eq set.now) ids.now) }
{
    let mut out = Ids::new(alloc);
    for id in ids {
        if set.contains(id) {
            out.push(*id)?;
            continue;
        }
    }
    Ok(out)
}

/// Marks on those of the ids that stand in the tree, and on all ids above them. Costs the ids times their depth.
pub fn marks_of<T: TreeView>(alloc: Global, t: &T, ids: &[NodeId]) -> Result<Marks, NoMemory>
    ensures marking { IfOk result (λ m. IsMarking (T.tree t.now).trees (get nat_eq m)) }
    ensures marked { IfOk result (λ m. (z : ℕ) → contains ids.now z ≡ true → has (T.tree t.now).trees z ≡ true → is_marked (get nat_eq m) z ≡ true) }
{
    let mut marks = HashMap::new(alloc);
    for id in ids {
        mark(t, &mut marks, *id)?;
    }
    Ok(marks)
}

/// The marked ids in pre-order.
fn marked_in_order<T: TreeView>(alloc: Global, t: &T, marks: &Marks) -> Result<Ids, NoMemory>
    requires { IsMarking (T.tree t.now).trees (get nat_eq marks.now) }
    ensures { IfOk result (λ out. out ≡ filter (is_marked (get nat_eq marks.now)) (ids (T.tree t.now).trees)) }
{
    let mut out = Ids::new(alloc);
    let Some(root) = t.root() else {
        return Ok(out);
    };
    match branches_at(marks, root) {
        Some(_) => {}
        None => return Ok(out),
    }
    let mut stack = Ids::new(alloc);
    stack.push(root)?;
    while let Some(next) = stack.pop() {
        out.push(next)?;
        push_branches(alloc, t, marks, next, &mut stack)?;
    }
    Ok(out)
}

/// Puts the marked children of a node on the stack, the last one first.
fn push_branches<T: TreeView>(
    alloc: Global,
    t: &T,
    marks: &Marks,
    id: NodeId,
    stack: &mut Ids,
) -> Result<(), NoMemory>
    requires { IsMarking (T.tree t.now).trees (get nat_eq marks.now) }
    ensures { OnOk result (stack.new ≡ stack.old ++ reverse (filter (is_marked (get nat_eq marks.now)) (children (T.tree t.now).trees id))) }
{
    let _ = t.root();
    let Some(branches) = branches_at(marks, id) else {
        return Ok(());
    };
    match branches {
        Branches::Nothing => Ok(()),
        Branches::One(child) => {
            stack.push(child)?;
            Ok(())
        }
        Branches::Several => push_marked(alloc, t, marks, id, stack),
    }
}

fn push_marked<T: TreeView>(
    alloc: Global,
    t: &T,
    marks: &Marks,
    id: NodeId,
    stack: &mut Ids,
) -> Result<(), NoMemory>
    ensures { OnOk result (stack.new ≡ stack.old ++ reverse (filter (is_marked (get nat_eq marks.now)) (children (T.tree t.now).trees id))) }
{
    let Some(node) = t.node(id) else {
        return Ok(());
    };
    let marked = marked_among(alloc, marks, node.children.as_slice())?;
    stack.push_reversed(&marked)?;
    Ok(())
}

/// Those ids that are marked, in their order.
fn marked_among(alloc: Global, marks: &Marks, ids: &[NodeId]) -> Result<Ids, NoMemory>
    ensures { IfOk result (λ out. out ≡ filter (is_marked (get nat_eq marks.now)) ids.now) }
{
    let mut out = Ids::new(alloc);
    for id in ids {
        match branches_at(marks, *id) {
            Some(_) => out.push(*id)?,
            None => {}
        }
    }
    Ok(out)
}
