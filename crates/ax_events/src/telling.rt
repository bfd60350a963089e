//! The events between two trees.
ghost use Rattle.std.specs.Prelude.{◌≡◌, ◌++◌, IfOk, OnOk, flat_map, map, nat_eq, true};
ghost use Rattle.std.specs.HashSet as bag;
ghost use Rattle.ax_trees.specs.Trees.{has};
ghost use Rattle.ax_tree.specs.Tree.{as_node};
ghost use Rattle.ax_rules.specs.Events.{events_of, tops_new_part, at_node};
ghost use Rattle.ax_order.specs.Touched.{NamesChanges};
ghost use Rattle.ax_events.specs.Told.{told_at, own_at};

use crate::changes::tell_changes;
use crate::regions::regions_told;
use crate::tell::{has_node, tell};
use crate::tree_data::tell_tree_data;
use ax_attrs::EventKind;
use ax_base::{Ids, NoMemory, NodeId, Place};
use ax_node::NodeData;
use ax_order::{in_order, set_of};
use ax_tree::{Events, TreeView};
use std::alloc::Global;
use std::collections::HashSet;

/// What a receipt tells of the old and the new tree, where each id at which they differ is touched: the tree's events, and
/// then those of its nodes in pre-order. `events_of` of `ax_rules` is the rule.
pub fn events<A: TreeView, B: TreeView>(
    alloc: Global,
    old: &A,
    new: &B,
    touched: &[NodeId],
) -> Result<Events, NoMemory>
    requires { NamesChanges (A.tree old.now) (B.tree new.now) touched.now }
    ensures { IfOk result (λ told. told ≡ events_of (A.tree old.now) (B.tree new.now)) }
{
    let _ = old.root();
    let _ = new.root();
    let regions = regions_told(alloc, old, new, touched)?;
    let changed = set_of(alloc, regions.as_slice())?;
    let mut telling = Ids::from_slice(alloc, touched)?;
    telling.extend_from_slice(regions.as_slice())?;
    let ids = in_order(alloc, new, telling.as_slice())?;
    let mut out = Events::new(alloc);
    tell_tree_data(&mut out, old, new)?;
    tell_nodes(&mut out, old, new, ids.as_slice(), &changed)?;
    Ok(out)
}

/// Tells of the nodes of the ids, in their order.
fn tell_nodes<A: TreeView, B: TreeView>(
    out: &mut Events,
    old: &A,
    new: &B,
    ids: &[NodeId],
    changed: &HashSet<NodeId>,
) -> Result<(), NoMemory>
    ensures { OnOk result (out.new ≡ out.old ++ flat_map (told_at (bag.contains nat_eq changed.now) (A.tree old.now) (B.tree new.now)) ids.now) }
{
    for id in ids {
        tell_node(out, old, new, *id, changed)?;
    }
    Ok(())
}

fn tell_node<A: TreeView, B: TreeView>(
    out: &mut Events,
    old: &A,
    new: &B,
    id: NodeId,
    changed: &HashSet<NodeId>,
) -> Result<(), NoMemory>
    ensures { OnOk result (out.new ≡ out.old ++ told_at (bag.contains nat_eq changed.now) (A.tree old.now) (B.tree new.now) id) }
{
    let tree = new.tree_data().tree;
    let at = Place { tree, node: id };
    let Some(node) = new.node(id) else {
        return Ok(());
    };
    tell_own(out, &at, old, new, node)?;
    tell(
        out,
        &at,
        EventKind::LIVE_REGION_CHANGED,
        changed.contains(&id),
    )?;
    Ok(())
}

/// Tells of the node itself: what differs, or that it is the top of a new part.
fn tell_own<A: TreeView, B: TreeView>(
    out: &mut Events,
    at: &Place,
    old: &A,
    new: &B,
    node: &NodeData,
) -> Result<(), NoMemory>
    requires { has (B.tree new.now).trees at.now.node ≡ true }
    ensures { OnOk result (out.new ≡ out.old ++ map (at_node at.now.tree at.now.node) (own_at (A.tree old.now) (B.tree new.now) at.now.node (as_node node.now))) }
{
    match old.node(at.node) {
        Some(was) => tell_changes(out, at, was, node),
        None => {
            let is_top = tops_new_part(old, new, at.node);
            tell(out, at, EventKind::SUBTREE_CREATED, is_top)
        }
    }
}

/// Whether the id is the root, or stands under an old node.
fn tops_new_part<A: TreeView, B: TreeView>(old: &A, new: &B, id: NodeId) -> bool
    requires { has (B.tree new.now).trees id ≡ true }
    ensures { result ≡ tops_new_part (A.tree old.now) (B.tree new.now) id }
{
    let _ = new.root();
    match new.parent(id) {
        Some(above) => has_node(old, above),
        None => true,
    }
}
