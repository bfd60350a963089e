//! The place of the joined trees that has the focus. It costs a few look-ups for each tree on the way, eight at most, and
//! takes no memory.
#![tactic(auto)]

ghost use Rattle.std.specs.Prelude.{◌≡◌};
ghost use Rattle.ax_node.specs.Look.{look_of};
ghost use Rattle.ax_trees.specs.Nodes.{node_at};
ghost use Rattle.ax_rules.specs.Looks.{attr, node_in};
ghost use Rattle.ax_rules.specs.Rows.{active_descendant_key};
ghost use Rattle.ax_rules.specs.Stitched.{stitched};
ghost use Rattle.ax_rules.specs.Focus.{is_shown, shown_at, in_tree, descendant_in, own_focus, focus_in, focus_of};

use ax_attrs::Key;
use ax_base::{NodeId, Place, TreeId};
use ax_node::{NodeData, Value};
use ax_stitch::{LEVELS, has, has_node};
use ax_tree::{Grove, TreeView};

/// The node that a node's `active_descendant` names.
fn active_descendant(node: &NodeData) -> Option<NodeId>
    ensures { result ≡ node_in (attr (look_of node.now) active_descendant_key) }
{
    match node.attrs.get(Key::ACTIVE_DESCENDANT) {
        Some(Value::Node(id)) => Some(*id),
        _ => None,
    }
}

/// An id, where it is one of the tree's.
fn in_tree<V: TreeView>(view: &V, id: Option<NodeId>) -> Option<NodeId>
    ensures { result ≡ in_tree (V.tree view.now) id }
{
    match id {
        Some(id) => { if has_node(view, id) { Some(id) } else { None } }
        None => None,
    }
}

fn descendant<V: TreeView>(view: &V, id: NodeId) -> Option<NodeId>
    ensures { result ≡ descendant_in (node_at (V.tree view.now).trees id) }
{
    match view.node(id) {
        Some(node) => active_descendant(node),
        None => None,
    }
}

/// The focus at a node where no shown tree hangs.
#[tactic(auto, unfolding(ax_rules::specs::Focus::own_focus))]
fn own_focus<V: TreeView>(view: &V, tree: TreeId, id: NodeId) -> Place
    ensures { result ≡ own_focus (V.tree view.now) tree id }
{
    match in_tree(view, descendant(view, id)) {
        Some(node) => Place { tree, node },
        None => Place { tree, node: id },
    }
}

/// Whether the root of a tree stands in the list.
#[tactic(auto, unfolding(ax_rules::specs::Focus::is_shown))]
fn is_shown<G: Grove>(g: &G, tree: TreeId) -> bool
    ensures { result ≡ is_shown (G.forest g.now) (stitched (G.forest g.now)) tree }
{
    let view = match g.tree(tree) {
        Some(view) => view,
        None => return false,
    };
    match view.root() {
        Some(node) => has(g, Place { tree, node }),
        None => false,
    }
}

/// The shown tree that hangs at a place.
#[tactic(auto, unfolding(ax_rules::specs::Focus::shown_at))]
fn shown_at<G: Grove>(g: &G, p: &Place) -> Option<TreeId>
    ensures { result ≡ shown_at (G.forest g.now) (stitched (G.forest g.now)) p.now }
{
    let tree = match g.hosted_by(*p) {
        Some(tree) => tree,
        None => return None,
    };
    if is_shown(g, tree) { Some(tree) } else { None }
}

/// The focus of a tree, where so many levels of trees are shown from it on.
#[tactic(auto, unfolding(ax_rules::specs::Focus::focus_at))]
fn focus_in<G: Grove>(g: &G, tree: TreeId, levels: usize) -> Option<Place>
    ensures { result ≡ focus_in levels (G.forest g.now) (stitched (G.forest g.now)) tree }
{
    if levels == 0 {
        return None;
    }
    let view = match g.tree(tree) {
        Some(view) => view,
        None => return None,
    };
    let node = match in_tree(view, view.tree_data().focus) {
        Some(node) => node,
        None => return None,
    };
    let place = Place { tree, node };
    let hung = match shown_at(g, &place) {
        Some(hung) => hung,
        None => return Some(own_focus(view, tree, node)),
    };
    match focus_in(g, hung, levels - 1) {
        Some(inner) => Some(inner),
        None => Some(Place { tree, node }),
    }
}

/// The place that has the focus: in the tree that hangs at the focus of the first tree, and so on; there the node that
/// `active_descendant` names. There is none where the first tree isn't live or names no node of its own.
#[tactic(auto, unfolding(ax_rules::specs::Focus::focus_of))]
pub fn focus<G: Grove>(g: &G) -> Option<Place>
    ensures { result ≡ focus_of (G.forest g.now) }
{
    focus_in(g, g.first(), LEVELS)
}
