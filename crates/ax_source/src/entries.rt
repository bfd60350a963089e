//! Nodes with the ids above them.
ghost use Rattle.std.specs.Prelude.{◌≡◌, ◌≢◌, ◌≤◌, ℕ, length, nat_eq, option_map, IfSome, IsTrue, None, OnErr, OnOk, Some};
ghost use Rattle.std.specs.HashMap.{get, spare};
ghost use Rattle.ax_trees.specs.Lists.{contains};
ghost use Rattle.ax_trees.specs.Spots.{inserted, removed};
ghost use Rattle.ax_source.specs.Changes.{above_set, child_added, child_dropped, child_moved, Plants, Relinks};
ghost use Rattle.ax_source.specs.Parts.{parts_put};

use crate::attributes::{Parts, put_parts};
use crate::children::{leave, reorder};
use ax_base::{NoMemory, NodeId};
use ax_node::NodeData;
use ax_tree::SetNode;
use std::collections::HashMap;

/// A node and the id above it.
#[derive(Debug, Drop)]
pub struct Entry {
    pub node: NodeData,
    pub above: Option<NodeId>,
}

/// Puts a child at the place `index` of a node's children.
fn add_child(
    entries: &mut HashMap<NodeId, Entry>,
    parent: NodeId,
    index: usize,
    child: NodeId,
) -> Result<(), NoMemory>
    requires { IfSome (get nat_eq entries.old parent) (λ e. index ≤ length e.node.children) }
    ensures here { OnOk result (get nat_eq entries.new parent ≡ option_map (child_added index child) (get nat_eq entries.old parent)) }
    ensures others { (z : ℕ) → parent ≢ z → get nat_eq entries.new z ≡ get nat_eq entries.old z }
    ensures room { spare entries.new ≡ spare entries.old }
    ensures err { OnErr result ((z : ℕ) → get nat_eq entries.new z ≡ get nat_eq entries.old z) }
{
    match entries.get_mut(&parent) {
        Some(entry) => entry.node.children.insert(index, child),
        None => Ok(()),
    }
}

/// Moves a child to the place `index` among the others.
fn move_child(
    entries: &mut HashMap<NodeId, Entry>,
    parent: NodeId,
    index: usize,
    child: NodeId,
) -> Result<(), NoMemory>
    requires there { IfSome (get nat_eq entries.old parent) (λ e. IsTrue (contains e.node.children child)) }
    requires within { IfSome (get nat_eq entries.old parent) (λ e. index ≤ length (removed child e.node.children)) }
    ensures here { OnOk result (get nat_eq entries.new parent ≡ option_map (child_moved index child) (get nat_eq entries.old parent)) }
    ensures others { (z : ℕ) → parent ≢ z → get nat_eq entries.new z ≡ get nat_eq entries.old z }
    ensures err { OnErr result ((z : ℕ) → get nat_eq entries.new z ≡ get nat_eq entries.old z) }
{
    match entries.get_mut(&parent) {
        Some(entry) => reorder(&mut entry.node.children, child, index),
        None => Ok(()),
    }
}

/// Takes a child from a node's children.
pub(crate) fn drop_child(entries: &mut HashMap<NodeId, Entry>, parent: NodeId, child: NodeId)
    ensures here { get nat_eq entries.new parent ≡ option_map (child_dropped child) (get nat_eq entries.old parent) }
    ensures others { (z : ℕ) → parent ≢ z → get nat_eq entries.new z ≡ get nat_eq entries.old z }
{
    match entries.get_mut(&parent) {
        Some(entry) => leave(&mut entry.node.children, child),
        None => {}
    }
}

/// Says which id is above a node.
fn set_above(entries: &mut HashMap<NodeId, Entry>, id: NodeId, above: NodeId)
    ensures here { get nat_eq entries.new id ≡ option_map (above_set above) (get nat_eq entries.old id) }
    ensures others { (z : ℕ) → id ≢ z → get nat_eq entries.new z ≡ get nat_eq entries.old z }
{
    match entries.get_mut(&id) {
        Some(entry) => entry.above = Some(above),
        None => {}
    }
}

/// Puts a leaf below a node. Room for it is made first, so that want of memory changes nothing.
pub(crate) fn plant(
    entries: &mut HashMap<NodeId, Entry>,
    parent: NodeId,
    index: usize,
    node: NodeData,
) -> Result<(), NoMemory>
    requires within { IfSome (get nat_eq entries.old parent) (λ e. index ≤ length e.node.children) }
    ensures ok { OnOk result (Plants (get nat_eq entries.old) (get nat_eq entries.new) parent index node.id (record { node = node; above = Some parent })) }
    ensures err { OnErr result ((z : ℕ) → get nat_eq entries.new z ≡ get nat_eq entries.old z) }
{
    if entries.reserve(1).is_err() {
        return Err(NoMemory);
    }
    let child = node.id;
    if add_child(entries, parent, index, child).is_err() {
        return Err(NoMemory);
    }
    let entry = Entry {
        node,
        above: Some(parent),
    };
    if entries.insert(child, entry).is_err() {
        return Err(NoMemory);
    }
    Ok(())
}

/// Takes a node, with all below it, from the children of `old` to the place `index` among the others of `new`. What can want
/// memory comes first, so that want of memory changes nothing.
pub(crate) fn relink(
    entries: &mut HashMap<NodeId, Entry>,
    moved: NodeId,
    old: NodeId,
    new: NodeId,
    index: usize,
) -> Result<(), NoMemory>
    requires there { IfSome (get nat_eq entries.old old) (λ e. IsTrue (contains e.node.children moved)) }
    requires within { IfSome (get nat_eq entries.old new) (λ e. index ≤ length (removed moved e.node.children)) }
    ensures ok { OnOk result (Relinks (get nat_eq entries.old) (get nat_eq entries.new) moved old new index) }
    ensures err { OnErr result ((z : ℕ) → get nat_eq entries.new z ≡ get nat_eq entries.old z) }
{
    if old == new {
        move_child(entries, new, index, moved)?;
        set_above(entries, moved, new);
        return Ok(());
    }
    add_child(entries, new, index, moved)?;
    drop_child(entries, old, moved);
    set_above(entries, moved, new);
    Ok(())
}

/// Replaces what is given of a node.
pub(crate) fn put_in(entries: &mut HashMap<NodeId, Entry>, set: &SetNode, parts: Parts)
    ensures here { get nat_eq entries.new set.now.node ≡ option_map (parts_put set.now parts) (get nat_eq entries.old set.now.node) }
    ensures others { (z : ℕ) → set.now.node ≢ z → get nat_eq entries.new z ≡ get nat_eq entries.old z }
{
    match entries.get_mut(&set.node) {
        Some(entry) => put_parts(&mut entry.node, set, parts),
        None => {}
    }
}
