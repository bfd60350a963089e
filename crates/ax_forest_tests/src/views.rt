//! Views, which show what the forest showed when they were taken.

use crate::calls::{Call, Step, all_done};
use crate::given::{Head, Update, forest, packet, push_node};
use ax_base::{NodeId, Place, TreeId};
use ax_forest::{Forest, ForestView};
use ax_node::NodeData;
use ax_tree::{Grove, Nodes, Packet, TreeUpdate, TreeView};
use std::alloc::Global;

fn lone_node(alloc: Global, id: NodeId) -> Option<Nodes> {
    let mut nodes = Nodes::new(alloc);
    if push_node(&mut nodes, Some(NodeData::blank(alloc, id))) {
        Some(nodes)
    } else {
        None
    }
}

/// The first tree becomes the node of this number, in the pass of this number.
fn lone(alloc: Global, n: u32) -> Option<Packet> {
    let tree = TreeId::new(1)?;
    let id = NodeId::new(n)?;
    let nodes = lone_node(alloc, id)?;
    let update = TreeUpdate {
        clear: None,
        root: Some(id),
        nodes,
        tree_data: None,
    };
    packet(alloc, tree, &Head(u64::from(n), 0, 0), update)
}

fn receives(forest: &mut Forest, packet: Option<Packet>) -> bool {
    match packet {
        Some(packet) => forest.receive(packet).is_ok(),
        None => false,
    }
}

fn view(forest: &Forest, views: &mut Vec<ForestView>) -> bool {
    match forest.view() {
        Ok(view) => views.push(view).is_ok(),
        Err(_) => false,
    }
}

/// A view before each of a hundred receipts.
fn views_before(alloc: Global, forest: &mut Forest, views: &mut Vec<ForestView>) -> bool {
    for n in 1..101_u32 {
        if !view(forest, views) || !receives(forest, lone(alloc, n)) {
            return false;
        }
    }
    true
}

fn has_root(view: &ForestView, n: u32) -> bool {
    match view.tree(view.first()) {
        Some(mirror) => mirror.root() == NodeId::new(n),
        None => false,
    }
}

/// Whether each view shows the root of the receipt before it, the first one none.
fn show_their_roots(views: &[ForestView]) -> bool {
    let mut n = 0_u32;
    for view in views {
        if !has_root(view, n) {
            return false;
        }
        n = n.saturating_add(1);
    }
    n == 100
}

fn is_destroyed(forest: &mut Forest, t: u32) -> bool {
    match TreeId::new(t) {
        Some(tree) => forest.destroy(tree).is_ok() && !forest.live(tree),
        None => false,
    }
}

fn views_stay(alloc: Global, forest: &mut Forest, views: &mut Vec<ForestView>) -> bool {
    views_before(alloc, forest, views)
        && show_their_roots(views.as_slice())
        && is_destroyed(forest, 1)
        && show_their_roots(views.as_slice())
}

fn views_of_a_forest_stay(alloc: Global) -> bool {
    let mut views = Vec::new(alloc);
    match forest(alloc) {
        Some(mut forest) => views_stay(alloc, &mut forest, &mut views),
        None => false,
    }
}

#[test]
fn each_view_stays_as_it_was(rt: HostRuntime) {
    assert!(rt; views_of_a_forest_stay(rt.alloc()));
}

/// The second tree hangs at the root of the first.
const HANGING: &[Step] = &[
    (
        2,
        Call::Receive(Head(1, 0, 0), Update(0, 3, &[(3, &[], 0)], 1)),
        "Ok(Applied { pass: PassNo(1), events: Seq { items: [Event { tree: TreeId { number: 2 }, node: Some(NodeId { number: 3 }), kind: EventKind { number: 25 } }] } })",
    ),
    (2, Call::Host, "None"),
    (
        1,
        Call::Receive(Head(1, 0, 0), Update(0, 1, &[(1, &[], 2)], 0)),
        "Ok(Applied { pass: PassNo(1), events: Seq { items: [Event { tree: TreeId { number: 1 }, node: Some(NodeId { number: 1 }), kind: EventKind { number: 25 } }] } })",
    ),
    (
        2,
        Call::Host,
        "Some(Place { tree: TreeId { number: 1 }, node: NodeId { number: 1 } })",
    ),
];

fn host(view: &ForestView, t: u32) -> Option<Place> {
    view.host_of(TreeId::new(t)?)
}

fn hangs(view: &ForestView) -> bool {
    match host(view, 2) {
        Some(place) => place.node.get() == 1 && view.hosted_by(place) == TreeId::new(2),
        None => false,
    }
}

fn hangs_still(forest: &mut Forest) -> bool {
    match forest.view() {
        Ok(view) => is_destroyed(forest, 2) && hangs(&view),
        Err(_) => false,
    }
}

fn hangs_in_a_view(alloc: Global) -> bool {
    match forest(alloc) {
        Some(mut forest) => all_done(alloc, &mut forest, HANGING) && hangs_still(&mut forest),
        None => false,
    }
}

#[test]
fn a_tree_that_ended_hangs_in_a_view(rt: HostRuntime) {
    assert!(rt; hangs_in_a_view(rt.alloc()));
}
