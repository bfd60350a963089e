//! The live regions that tell of a change below them.
ghost use Rattle.std.specs.Prelude.{◌≡◌, IfOk, option_map, filter_map, bytes_eq, codes};
ghost use Rattle.std.specs.Option.{option_copied};
ghost use Rattle.ax_trees.specs.Nodes.{node_at};
ghost use Rattle.ax_node.specs.Look.{look_of};
ghost use Rattle.ax_tree.specs.Tree.{as_node};
ghost use Rattle.ax_rules.specs.Events.{region_of, differs, is_off};
ghost use Rattle.ax_events.specs.Regions.{is_live, tells, region_told};

use crate::same::{same_ids, same_values};
use crate::tell::has_node;
use ax_attrs::Key;
use ax_base::{Ids, NoMemory, NodeId, Text};
use ax_node::{NodeData, Value};
use ax_tree::TreeView;
use std::alloc::Global;

/// The live regions that tell of the touched ids, each as often as it does.
pub fn regions_told<A: TreeView, B: TreeView>(
    alloc: Global,
    old: &A,
    new: &B,
    touched: &[NodeId],
) -> Result<Ids, NoMemory>
    ensures { IfOk result (λ out. out ≡ filter_map (region_told (A.tree old.now) (B.tree new.now)) touched.now) }
{
    let mut out = Ids::new(alloc);
    for id in touched {
        match region_told(old, new, *id) {
            Some(region) => out.push(region)?,
            None => {}
        }
    }
    Ok(out)
}

/// The live region of an id, where the id differs and the region tells of it.
fn region_told<A: TreeView, B: TreeView>(old: &A, new: &B, id: NodeId) -> Option<NodeId>
    ensures { result ≡ region_told (A.tree old.now) (B.tree new.now) id }
{
    let node = new.node(id)?;
    if !differs(node, old.node(id)) {
        return None;
    }
    let region = region_of(new, id)?;
    if tells(old, new, region) {
        Some(region)
    } else {
        None
    }
}

/// Whether the node is new, or has another name or another child list.
fn differs(node: &NodeData, old: Option<&NodeData>) -> bool
    ensures { result ≡ differs (as_node node.now) (option_map as_node (option_copied old.entry)) }
{
    match old {
        Some(old) => {
            let same_name = same_values(old.attrs.get(Key::NAME), node.attrs.get(Key::NAME));
            !(same_name && same_ids(&old.children, &node.children))
        }
        None => true,
    }
}

/// The nearest node, itself or above, that has `live`. Climbs, so it costs the depth.
fn region_of<T: TreeView>(t: &T, id: NodeId) -> Option<NodeId>
    ensures { result ≡ region_of (T.tree t.now) id }
{
    let _ = t.root();
    let mut at = id;
    while !is_live(t, at) {
        match t.parent(at) {
            Some(above) => at = above,
            None => return None,
        }
    }
    Some(at)
}

fn is_live<T: TreeView>(t: &T, id: NodeId) -> bool
    ensures { result ≡ is_live (node_at (T.tree t.now).trees id) }
{
    match t.node(id) {
        Some(node) => node.attrs.get(Key::LIVE).is_some(),
        None => false,
    }
}

/// Whether the id is an old one, and its `live` isn't off.
fn tells<A: TreeView, B: TreeView>(old: &A, new: &B, id: NodeId) -> bool
    ensures { result ≡ tells (A.tree old.now) (B.tree new.now) id }
{
    match new.node(id) {
        Some(node) => !is_off(node) && has_node(old, id),
        None => false,
    }
}

fn is_off(node: &NodeData) -> bool
    ensures { result ≡ is_off (look_of node.now) }
{
    match node.attrs.get(Key::LIVE) {
        Some(Value::Text(text)) => says_off(text),
        _ => false,
    }
}

fn says_off(text: &Text) -> bool
    ensures { result ≡ bytes_eq text.now (codes "off") }
{
    text.as_str() == "off"
}
