//! Updates that are kept until their bundle is whole: a node that changes again while they are kept is sent again.
ghost use Rattle.std.specs.Prelude.{IfSome};
ghost use Rattle.ax_tree.specs.Edits.{HasLeaf};

use crate::given::{insert, name, root};
use ax_attrs::Key;
use ax_base::{NodeId, TreeId};
use ax_node::{NodeData, Value};
use ax_serializer::Serializer;
use ax_source::SourceTree;
use ax_tree::{Edit, TreeUpdate};
use std::alloc::Global;

fn is_done(s: &mut SourceTree, edit: Option<Edit>) -> bool
    requires { IfSome edit HasLeaf }
{
    match edit {
        Some(edit) => s.edit(&edit).is_ok(),
        None => false,
    }
}

fn is_marked(s: &mut SourceTree, n: u32) -> bool {
    match NodeId::new(n) {
        Some(id) => s.mark(id).is_ok(),
        None => false,
    }
}

/// The update at a node is made and kept.
fn keeps(s: &mut SourceTree, z: &mut Serializer, n: u32) -> bool {
    match NodeId::new(n) {
        Some(at) => keeps_at(s, z, at),
        None => false,
    }
}

fn keeps_at(s: &mut SourceTree, z: &mut Serializer, at: NodeId) -> bool {
    match z.serialize_changes(s, at) {
        Ok(update) => z.keep(update).is_ok(),
        Err(_) => false,
    }
}

fn name_of(node: &NodeData) -> &str {
    match node.attrs.get(Key::NAME) {
        Some(Value::Text(name)) => name.as_str(),
        Some(_) => "",
        None => "",
    }
}

/// Whether there is one node, a leaf with this name, or with none where the name is empty.
fn is_leaf(nodes: &[NodeData], n: u32, name: &str) -> bool {
    match nodes.first() {
        Some(node) => {
            nodes.len() == 1
                && NodeId::new(n) == Some(node.id)
                && node.children.is_empty()
                && name_of(node) == name
        }
        None => false,
    }
}

/// Whether the update lists one leaf alone, and neither clears nor has tree data.
fn lists(update: Option<&TreeUpdate>, n: u32, name: &str) -> bool {
    match update {
        Some(update) => {
            update.clear.is_none()
                && update.root.is_none()
                && update.tree_data.is_none()
                && is_leaf(update.nodes.as_slice(), n, name)
        }
        None => false,
    }
}

fn are_three(updates: &[TreeUpdate]) -> bool {
    updates.len() == 3
        && lists(updates.get(0), 2, "")
        && lists(updates.get(1), 3, "")
        && lists(updates.get(2), 2, "again")
}

/// Whether the bundle is finished, for a receiver that has nothing.
fn sends_all(s: &mut SourceTree, z: &mut Serializer) -> bool {
    match z.finish_bundle(s) {
        Ok((_, fresh)) => fresh,
        Err(_) => false,
    }
}

fn sends_three(s: &mut SourceTree, z: &mut Serializer) -> bool {
    match z.finish_bundle(s) {
        Ok((bundle, fresh)) => !fresh && are_three(bundle.as_slice()),
        Err(_) => false,
    }
}

/// The root 1 over 2 and 3, all of which is sent.
fn begins(alloc: Global, s: &mut SourceTree, z: &mut Serializer) -> bool {
    is_done(s, root(alloc, 1))
        && is_done(s, insert(alloc, 1, 0, 2))
        && is_done(s, insert(alloc, 1, 1, 3))
        && keeps(s, z, 1)
        && sends_all(s, z)
        && s.marks().is_empty()
}

/// 2 changes again while its update is kept. Its mark stands behind that of 3.
fn changes_again(alloc: Global, s: &mut SourceTree, z: &mut Serializer) -> bool {
    is_marked(s, 2)
        && is_marked(s, 3)
        && keeps(s, z, 2)
        && is_done(s, name(alloc, 2, "again"))
        && s.marks().first() == NodeId::new(3)
        && keeps(s, z, 3)
        && keeps(s, z, 2)
}

fn is_sent_again(alloc: Global, tree: TreeId) -> bool {
    let mut s = SourceTree::new(alloc, tree);
    let mut z = Serializer::new(alloc);
    begins(alloc, &mut s, &mut z)
        && changes_again(alloc, &mut s, &mut z)
        && z.kept() == 3
        && s.marks().is_empty()
        && sends_three(&mut s, &mut z)
        && z.kept() == 0
}

#[test]
fn what_changes_again_is_sent_again(rt: HostRuntime) {
    let tree = TreeId::new(1).expect(&rt, "an id");
    assert!(rt; is_sent_again(rt.alloc(), tree));
}
