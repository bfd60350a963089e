//! Ids, nodes and updates for tests. Where one can't be made there is none, and the test fails.

use ax_base::{Ids, NodeId, TreeId};
use ax_node::NodeData;
use ax_tree::{Nodes, TreeUpdate};
use std::alloc::Global;
use std::test::Fail;

/// Nodes with their children, by numbers.
pub type Listed = &'static [(u32, &'static [u32])];

pub fn id(n: u32) -> Result<NodeId, Fail> {
    Ok(NodeId::new(n).ok_or("no id")?)
}

pub fn tree_id() -> Result<TreeId, Fail> {
    Ok(TreeId::new(1).ok_or("no id")?)
}

fn push_id(ids: &mut Ids, n: u32) -> bool {
    match NodeId::new(n) {
        Some(id) => ids.push(id).is_ok(),
        None => false,
    }
}

fn ids(alloc: Global, numbers: &[u32]) -> Option<Ids> {
    let mut ids = Ids::new(alloc);
    for n in numbers {
        if !push_id(&mut ids, *n) {
            return None;
        }
    }
    Some(ids)
}

pub fn push_node(alloc: Global, nodes: &mut Nodes, n: u32, children: &[u32]) -> bool {
    match (NodeId::new(n), ids(alloc, children)) {
        (Some(id), Some(children)) => {
            let mut node = NodeData::blank(alloc, id);
            node.children = children;
            nodes.push(node).is_ok()
        }
        _ => false,
    }
}

fn nodes(alloc: Global, listed: Listed) -> Option<Nodes> {
    let mut nodes = Nodes::new(alloc);
    for (n, children) in listed {
        if !push_node(alloc, &mut nodes, *n, children) {
            return None;
        }
    }
    Some(nodes)
}

/// An update with these nodes. Its root is 0 for none.
pub fn with_root(root: u32, nodes: Nodes) -> TreeUpdate {
    TreeUpdate {
        clear: None,
        root: NodeId::new(root),
        nodes,
        tree_data: None,
    }
}

pub fn update(alloc: Global, root: u32, listed: Listed) -> Option<TreeUpdate> {
    Some(with_root(root, nodes(alloc, listed)?))
}
