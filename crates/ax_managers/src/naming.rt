//! The tree that a node names.
ghost use Rattle.std.specs.Prelude.{◌≡◌};
ghost use Rattle.ax_tree.specs.Tree.{as_node};
ghost use Rattle.ax_managers.specs.Naming.{named_by, named_at};

use ax_attrs::Key;
use ax_base::{NodeId, TreeId};
use ax_node::{NodeData, Value};
use ax_tree::TreeView;

/// The tree that a node without children names.
fn named_by(node: &NodeData) -> Option<TreeId>
    ensures { result ≡ named_by (as_node node.now) }
{
    if !node.children.is_empty() {
        return None;
    }
    match node.attrs.get(Key::CHILD_TREE) {
        Some(Value::Tree(tree)) => Some(*tree),
        _ => None,
    }
}

/// The tree that the node of an id names.
pub fn named_at<T: TreeView>(t: &T, id: NodeId) -> Option<TreeId>
    ensures { result ≡ named_at (T.tree t.now) id }
{
    match t.node(id) {
        Some(node) => named_by(node),
        None => None,
    }
}
