//! Walks of the joined list: its first place, and above, below, before and behind a place.
ghost use Rattle.std.specs.Prelude.{◌≡◌, Some, None, true, map, ◌∷◌, IfOk, option_map, option_and_then};
ghost use Rattle.ax_trees.specs.Trees.{has, root_of};
ghost use Rattle.ax_trees.specs.Lists.{contains};
ghost use Rattle.ax_rules.specs.Sequences.{first_of, last_of};
ghost use Rattle.ax_rules.specs.Stitched.{place_at, stitched, places, has_place, find_placed, parent_of, children_of, next_in, prev_in};
ghost use Rattle.ax_stitch.specs.Levels.{tree_ids, hung_root, beyond, hung_to};

use crate::level::{LEVELS, levels_below};
use crate::order::{last_in_tree, next_in_tree, prev_in_tree};
use ax_base::{NoMemory, NodeId, Place, Places, TreeId};
use ax_tree::{Grove, TreeView};
use std::alloc::Global;

/// Whether a tree has an id.
pub fn has_node<V: TreeView>(view: &V, id: NodeId) -> bool
    ensures { result ≡ has (V.tree view.now).trees id }
{
    view.node(id).is_some()
}

/// The root of a tree as a place.
fn root_of<V: TreeView>(view: &V, tree: TreeId) -> Option<Place>
    ensures { result ≡ option_map (place_at tree) (root_of (V.tree view.now).trees) }
{
    match view.root() {
        Some(node) => Some(Place { tree, node }),
        None => None,
    }
}

/// The first place. There is none exactly where the first tree isn't live or has no root.
pub fn root<G: Grove>(g: &G) -> Option<Place>
    ensures { result ≡ first_of (places (stitched (G.forest g.now))) }
{
    let tree = g.first();
    match g.tree(tree) {
        Some(view) => root_of(view, tree),
        None => None,
    }
}

/// Whether a place stands in the list.
pub fn has<G: Grove>(g: &G, p: Place) -> bool
    ensures { result ≡ has_place (stitched (G.forest g.now)) p }
{
    let below = levels_below(g, p.tree, LEVELS);
    match g.tree(p.tree) {
        Some(view) => below.is_some() && has_node(view, p.node),
        None => false,
    }
}

/// The place above a place; none at the first one.
pub fn parent<G: Grove>(g: &G, p: Place) -> Option<Place>
    requires { has_place (stitched (G.forest g.now)) p ≡ true }
    ensures { result ≡ option_and_then parent_of (find_placed (stitched (G.forest g.now)) p) }
{
    let tree = p.tree;
    let view = g.tree(tree).unwrap();
    match view.parent(p.node) {
        Some(node) => Some(Place { tree, node }),
        None => g.host_of(tree),
    }
}

/// The root of the tree that hangs at a place, where `levels` of trees are shown below it.
pub fn hung_root<G: Grove>(g: &G, p: &Place, levels: usize) -> Option<Place>
    ensures { result ≡ hung_root levels (G.forest g.now) p.now }
{
    if levels == 0 {
        return None;
    }
    let tree = match g.hosted_by(*p) {
        Some(tree) => tree,
        None => return None,
    };
    match g.tree(tree) {
        Some(view) => root_of(view, tree),
        None => None,
    }
}

/// The first place behind the trees that a place stands in, so many of them.
fn beyond<G: Grove>(g: &G, p: &Place, levels: usize) -> Option<Place>
    requires { contains (tree_ids (G.forest g.now) p.now.tree) p.now.node ≡ true }
    ensures { result ≡ beyond levels (G.forest g.now) p.now }
{
    if levels == 0 {
        return None;
    }
    let tree = p.tree;
    let view = g.tree(tree).unwrap();
    if let Some(node) = next_in_tree(view, p.node) {
        return Some(Place { tree, node });
    }
    match g.host_of(tree) {
        Some(host) => beyond(g, &host, levels - 1),
        None => None,
    }
}

/// The next place; none at the last one.
pub fn next<G: Grove>(g: &G, p: Place) -> Option<Place>
    requires { has_place (stitched (G.forest g.now)) p ≡ true }
    ensures { result ≡ next_in (places (stitched (G.forest g.now))) p }
{
    let below = levels_below(g, p.tree, LEVELS).unwrap();
    let root = hung_root(g, &p, below);
    if root.is_some() {
        return root;
    }
    beyond(g, &p, LEVELS)
}

/// The last place of what hangs at a place, or the place itself, where `levels` of trees are shown below it.
fn last_from<G: Grove>(g: &G, p: &Place, levels: usize) -> Place
    ensures { last_of (p.now ∷ hung_to levels (G.forest g.now) p.now) ≡ Some result }
{
    if levels == 0 {
        return *p;
    }
    let tree = match g.hosted_by(*p) {
        Some(tree) => tree,
        None => return *p,
    };
    let view = match g.tree(tree) {
        Some(view) => view,
        None => return *p,
    };
    let _ = view.root();
    match last_in_tree(view) {
        Some(node) => last_from(g, &Place { tree, node }, levels - 1),
        None => *p,
    }
}

/// The place before a place; none at the first one.
pub fn prev<G: Grove>(g: &G, p: Place) -> Option<Place>
    requires { has_place (stitched (G.forest g.now)) p ≡ true }
    ensures { result ≡ prev_in (places (stitched (G.forest g.now))) p }
{
    let tree = p.tree;
    let below = levels_below(g, tree, LEVELS).unwrap();
    let view = g.tree(tree).unwrap();
    match prev_in_tree(view, p.node) {
        Some(node) => Some(last_from(g, &Place { tree, node }, below)),
        None => g.host_of(tree),
    }
}

/// Nodes of a tree as places.
fn own_places(alloc: Global, tree: TreeId, ids: &[NodeId]) -> Result<Places, NoMemory>
    ensures { IfOk result (λ found. found ≡ map (place_at tree) ids.now) }
{
    let mut found = Places::new(alloc);
    for node in ids {
        found.push(Place { tree, node: *node })?;
    }
    Ok(found)
}

/// The places whose parent is a place, in order.
pub fn children<G: Grove>(alloc: Global, g: &G, p: Place) -> Result<Places, NoMemory>
    requires { has_place (stitched (G.forest g.now)) p ≡ true }
    ensures { IfOk result (λ found. found ≡ children_of (stitched (G.forest g.now)) p) }
{
    let tree = p.tree;
    let below = levels_below(g, tree, LEVELS).unwrap();
    let view = g.tree(tree).unwrap();
    let node = view.node(p.node).unwrap();
    let mut found = own_places(alloc, tree, node.children.as_slice())?;
    match hung_root(g, &p, below) {
        Some(root) => {
            found.push(root)?;
            Ok(found)
        }
        None => Ok(found),
    }
}
