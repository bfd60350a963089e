//! Updates, packets and a forest, by numbers. Where one can't be made there is none, and the test fails.

use ax_attrs::{Key, Role};
use ax_base::{Ids, NodeId, PassNo, Rect, Token, TreeId};
use ax_forest::Forest;
use ax_node::{AttrList, NodeData, StateSet, TreeData, Value};
use ax_tree::{Bundle, Edit, Nodes, Packet, Slip, TreeUpdate};
use std::alloc::Global;

/// A node: its id, its children, and the tree that it names, 0 for none.
pub type Listed = (u32, &'static [u32], u32);

/// The node below which is cleared and the root, 0 for none, the nodes, and the parent in the tree data, 0 for no tree data.
pub struct Update(pub u32, pub u32, pub &'static [Listed], pub u32);

/// The pass, the base and the token of a packet.
#[derive(Drop)]
pub struct Head(pub u64, pub u64, pub u64);

fn push_id(ids: &mut Ids, n: u32) -> bool {
    match NodeId::new(n) {
        Some(id) => ids.push(id).is_ok(),
        None => false,
    }
}

fn ids(alloc: Global, numbers: &[u32]) -> Option<Ids> {
    let mut ids = Ids::new(alloc);
    for n in numbers {
        if !push_id(&mut ids, *n) {
            return None;
        }
    }
    Some(ids)
}

fn name_tree(attrs: &mut AttrList, t: u32) -> bool {
    match TreeId::new(t) {
        Some(tree) => attrs.set(Key::CHILD_TREE, Value::Tree(tree)).is_ok(),
        None => true,
    }
}

fn attrs(alloc: Global, t: u32) -> Option<AttrList> {
    let mut attrs = AttrList::new(alloc);
    if name_tree(&mut attrs, t) {
        Some(attrs)
    } else {
        None
    }
}

fn node(alloc: Global, listed: &Listed) -> Option<NodeData> {
    let id = NodeId::new(listed.0)?;
    let children = ids(alloc, listed.1)?;
    let attrs = attrs(alloc, listed.2)?;
    Some(NodeData {
        id,
        role: Role::GENERIC,
        states: StateSet::new(alloc),
        attrs,
        rect: Rect::blank(),
        children,
    })
}

pub fn push_node(nodes: &mut Nodes, node: Option<NodeData>) -> bool {
    match node {
        Some(node) => nodes.push(node).is_ok(),
        None => false,
    }
}

fn nodes(alloc: Global, listed: &[Listed]) -> Option<Nodes> {
    let mut nodes = Nodes::new(alloc);
    for one in listed {
        if !push_node(&mut nodes, node(alloc, one)) {
            return None;
        }
    }
    Some(nodes)
}

fn tree_data(alloc: Global, tree: TreeId, parent: u32) -> Option<TreeData> {
    let parent = TreeId::new(parent)?;
    let mut data = TreeData::blank(alloc, tree);
    data.parent = Some(parent);
    Some(data)
}

pub fn update_of(alloc: Global, tree: TreeId, wanted: &Update) -> Option<TreeUpdate> {
    let nodes = nodes(alloc, wanted.2)?;
    Some(TreeUpdate {
        clear: NodeId::new(wanted.0),
        root: NodeId::new(wanted.1),
        nodes,
        tree_data: tree_data(alloc, tree, wanted.3),
    })
}

fn bundle(alloc: Global, update: TreeUpdate) -> Option<Bundle> {
    let mut bundle = Bundle::new(alloc);
    match bundle.push(update) {
        Ok(()) => Some(bundle),
        Err(_) => None,
    }
}

/// A slip that no bundle here agrees with: the tree becomes the node 1000.
fn slip(alloc: Global) -> Option<Slip> {
    let id = NodeId::new(1000)?;
    let mut slip = Slip::new(alloc);
    match slip.push(Edit::Root(NodeData::blank(alloc, id))) {
        Ok(()) => Some(slip),
        Err(_) => None,
    }
}

/// A packet of one update.
pub fn packet(alloc: Global, tree: TreeId, head: &Head, update: TreeUpdate) -> Option<Packet> {
    let bundle = bundle(alloc, update)?;
    let slip = slip(alloc)?;
    Some(Packet {
        tree,
        pass: PassNo(head.0),
        base: PassNo(head.1),
        token: Token(head.2),
        slip,
        bundle,
    })
}

/// A forest of the trees 1 and 2.
pub fn forest(alloc: Global) -> Option<Forest> {
    let one = TreeId::new(1)?;
    let two = TreeId::new(2)?;
    let trees = [one, two];
    match Forest::new(alloc, trees.as_slice()) {
        Ok(forest) => Some(forest),
        Err(_) => None,
    }
}
