//! Ids, edits and sources for tests. Where one can't be made the test fails.
ghost use Rattle.std.specs.Prelude.{IfSome};
ghost use Rattle.ax_tree.specs.Edits.{HasLeaf};

use ax_attrs::Key;
use ax_base::{NodeId, Text};
use ax_node::{NodeData, Value};
use ax_tree::{AttrChange, AttrChanges, Edit, SetNode};
use std::alloc::Global;

pub fn root(alloc: Global, n: u32) -> Option<Edit>
    ensures { IfSome result HasLeaf }
{
    Some(Edit::Root(NodeData::blank(alloc, NodeId::new(n)?)))
}

pub fn insert(alloc: Global, parent: u32, index: usize, n: u32) -> Option<Edit>
    ensures { IfSome result HasLeaf }
{
    Some(Edit::Insert {
        parent: NodeId::new(parent)?,
        index,
        node: NodeData::blank(alloc, NodeId::new(n)?),
    })
}

fn name_change(alloc: Global, s: &str) -> Option<AttrChange> {
    match Text::of(alloc, s) {
        Ok(text) => Some(AttrChange {
            key: Key::NAME,
            value: Some(Value::Text(text)),
        }),
        Err(_) => None,
    }
}

fn name_changes(alloc: Global, s: &str) -> Option<AttrChanges> {
    let change = name_change(alloc, s)?;
    let mut changes = AttrChanges::new(alloc);
    match changes.push(change) {
        Ok(()) => Some(changes),
        Err(_) => None,
    }
}

pub fn name(alloc: Global, n: u32, s: &str) -> Option<Edit>
    ensures { IfSome result HasLeaf }
{
    let node = NodeId::new(n)?;
    let attrs = name_changes(alloc, s)?;
    Some(Edit::Set(SetNode {
        node,
        role: None,
        states: None,
        attrs,
        rect: None,
    }))
}
