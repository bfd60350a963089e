//! Where nodes stand in the plane: a rectangle is measured from the node's offset container, or else from the plane's own
//! origin.
ghost use Rattle.std.specs.Prelude.{◌≡◌, ◌≤◌, ℕ, suc, ℤ, ◌+ℤ◌, ◌-ℤ◌, Some, None, true};
ghost use Rattle.ax_node.specs.Look.{look_of};
ghost use Rattle.ax_trees.specs.Trees.{has, height};
ghost use Rattle.ax_trees.specs.Nodes.{depth};
ghost use Rattle.ax_tree.specs.Tree.{as_node};
ghost use Rattle.ax_rules.specs.Looks.{attr, int_in, node_in};
ghost use Rattle.ax_rules.specs.Rows.{container_key};
ghost use Rattle.ax_rules.specs.Stitched.{stitched, has_place};
ghost use Rattle.ax_rules.specs.Extents.{base_of, place_extent};
ghost use Rattle.ax_stitch.specs.Origins.{IsNear, AreNear, origin_on, origin_at};

use ax_attrs::Key;
use ax_base::{NodeId, Place};
use ax_node::{NodeData, Value};
use ax_tree::{Grove, TreeView};
use ax_views::is_below;
use std::marker::Model;

/// Where a node stands in the plane, and how far what is measured from it is scrolled.
#[derive(Clone, Copy, Debug, PartialEq, Eq)]
pub struct Origin {
    node: NodeId,
    x: i64,
    y: i64,
    scroll_x: i32,
    scroll_y: i32,
}

impl Model for Origin {
    ghost use Rattle.ax_rules.specs.Extents.{Origin as Corner};

    ghost Value = { Corner };

    ghost view = { λ o. record { node = o.node; x = o.x; y = o.y; scroll_x = o.scroll_x; scroll_y = o.scroll_y } };

    ghost inverse = { λ o. record { node = o.node; x = o.x; y = o.y; scroll_x = o.scroll_x; scroll_y = o.scroll_y } };
}

/// The node that a node's `container` names.
pub fn container_of(node: &NodeData) -> Option<NodeId>
    ensures { result ≡ node_in (attr (look_of node.now) container_key) }
{
    match node.attrs.get(Key::CONTAINER) {
        Some(Value::Node(id)) => Some(*id),
        _ => None,
    }
}

/// A number among a node's attributes, or 0.
fn number_of(node: &NodeData, key: Key) -> i32
    ensures { result ≡ int_in (attr (look_of node.now) key) }
{
    match node.attrs.get(key) {
        Some(Value::Int(number)) => *number,
        _ => 0,
    }
}

/// A number that is measured from another one, less a scroll.
fn moved(at: i32, over: i64, scroll: i32) -> i64
    requires { IsNear 255 over }
    ensures value { result ≡ at +ℤ over -ℤ scroll }
    ensures near { (k : ℕ) → IsNear k over → IsNear (suc k) result }
{
    i64::from(at) + over - i64::from(scroll)
}

impl Origin {
    pub fn node(&self) -> NodeId
        ensures { result ≡ self.now.node }
    {
        self.node
    }

    pub fn x(&self) -> i64
        ensures { result ≡ self.now.x }
    {
        self.x
    }

    pub fn y(&self) -> i64
        ensures { result ≡ self.now.y }
    {
        self.y
    }

    /// The origin of a node that is measured from nothing.
    pub fn alone(node: &NodeData) -> Origin
        ensures value { result ≡ origin_on (as_node node.now) None }
        ensures near { AreNear 1 result }
    {
        Origin {
            node: node.id,
            x: i64::from(node.rect.x()),
            y: i64::from(node.rect.y()),
            scroll_x: number_of(node, Key::SCROLL_X),
            scroll_y: number_of(node, Key::SCROLL_Y),
        }
    }

    /// The origin of a node that is measured from another one's.
    pub fn under(node: &NodeData, base: &Origin) -> Origin
        requires { AreNear 255 base.now }
        ensures value { result ≡ origin_on (as_node node.now) (Some base.now) }
        ensures near { (k : ℕ) → AreNear k base.now → AreNear (suc k) result }
    {
        Origin {
            node: node.id,
            x: moved(node.rect.x(), base.x, base.scroll_x),
            y: moved(node.rect.y(), base.y, base.scroll_y),
            scroll_x: number_of(node, Key::SCROLL_X),
            scroll_y: number_of(node, Key::SCROLL_Y),
        }
    }
}

/// The offset container of a node: the node that its `container` names, where that is a proper ancestor.
pub fn base<T: TreeView>(t: &T, n: NodeId) -> Option<NodeId>
    requires { has (T.tree t.now).trees n ≡ true }
    ensures { result ≡ base_of (T.tree t.now) n }
{
    let _ = t.root();
    let node = t.node(n).unwrap();
    match container_of(node) {
        Some(container) => {
            if is_below(t, n, container) {
                Some(container)
            } else {
                None
            }
        }
        None => None,
    }
}

fn corner_of<T: TreeView>(t: &T, n: NodeId) -> Origin
    requires there { has (T.tree t.now).trees n ≡ true }
    requires low { depth (T.tree t.now).trees n ≤ 256 }
    ensures value { origin_at (T.tree t.now).trees n ≡ Some result }
    ensures near { AreNear (depth (T.tree t.now).trees n) result }
{
    let _ = t.root();
    let container = base(t, n);
    let node = t.node(n).unwrap();
    match container {
        Some(container) => Origin::under(node, &corner_of(t, container)),
        None => Origin::alone(node),
    }
}

/// Where the node of a place stands in the plane: its corner, its width and its height.
pub fn bounds<G: Grove>(g: &G, p: Place) -> (i64, i64, i64, i64)
    requires { has_place (stitched (G.forest g.now)) p ≡ true }
    ensures { place_extent (G.forest g.now) p ≡ Some (record { x = result.0; y = result.1; w = result.2; h = result.3 }) }
{
    let view = g.tree(p.tree).unwrap();
    let _ = view.root();
    let corner = corner_of(view, p.node);
    let node = view.node(p.node).unwrap();
    (
        corner.x(),
        corner.y(),
        i64::from(node.rect.w()),
        i64::from(node.rect.h()),
    )
}
