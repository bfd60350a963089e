//! The next shown place: what stands below a place and behind it is searched from its start.
ghost use Rattle.std.specs.Prelude.{◌≡◌, ◌-◌, Some, None, true, find, flat_map};
ghost use Rattle.ax_trees.specs.Trees.{has};
ghost use Rattle.ax_trees.specs.Nodes.{children};
ghost use Rattle.ax_trees.specs.Lists.{contains};
ghost use Rattle.ax_tree.specs.Forest.{live_tree, host_of};
ghost use Rattle.ax_rules.specs.Stitched.{stitched, has_place};
ghost use Rattle.ax_rules.specs.Unignored.{is_shown_place, shown_next};
ghost use Rattle.ax_stitch.specs.Orders.{behind};
ghost use Rattle.ax_stitch.specs.Levels.{tree_ids, levels_below};
ghost use Rattle.ax_unignored.specs.Shows.{shows};
ghost use Rattle.ax_unignored.specs.Runs.{run, run_at, AllThere, below_place, first_behind};

use crate::ids::past;
use crate::show::is_lit;
use ax_base::{NodeId, Place, TreeId};
use ax_stitch::{LEVELS, hung_root, levels_below};
use ax_tree::{Grove, TreeView};

/// The first shown place at a node and below it, where so many levels of trees are shown below its tree.
fn first_in<G: Grove>(g: &G, view: &G::Tree, p: &Place, levels: usize) -> Option<Place>
    requires live { Some (G.Tree.tree view.now) ≡ live_tree (G.forest g.now) p.now.tree }
    requires there { has (G.Tree.tree view.now).trees p.now.node ≡ true }
    ensures { result ≡ find (shows (G.forest g.now)) (run_at levels (G.forest g.now) p.now.tree (G.Tree.tree view.now).trees p.now.node) }
{
    // Asked for what it says: the forest is sound.
    let _ = g.tree(p.tree);
    let node = view.node(p.node).unwrap();
    if is_lit(node) {
        return Some(*p);
    }
    if let Some(root) = hung_root(g, p, levels) {
        let hung = g.tree(root.tree).unwrap();
        return first_in(g, hung, &root, levels - 1);
    }
    let children = node.children.as_slice();
    for child in children {
        let place = Place {
            tree: p.tree,
            node: *child,
        };
        let found = first_in(g, view, &place, levels);
        if found.is_some() {
            return found;
        }
    }
    None
}

/// The first shown place at nodes of a tree and below them, one after the other.
fn first_among<G: Grove>(
    g: &G,
    view: &G::Tree,
    tree: TreeId,
    ids: &[NodeId],
    levels: usize,
) -> Option<Place>
    requires live { Some (G.Tree.tree view.now) ≡ live_tree (G.forest g.now) tree }
    requires there { AllThere (G.Tree.tree view.now).trees ids.now }
    ensures { result ≡ find (shows (G.forest g.now)) (flat_map (run_at levels (G.forest g.now) tree (G.Tree.tree view.now).trees) ids.now) }
{
    for id in ids {
        let found = first_in(g, view, &Place { tree, node: *id }, levels);
        if found.is_some() {
            return found;
        }
    }
    None
}

/// The first shown place below a place.
fn first_below<G: Grove>(g: &G, p: &Place, levels: usize) -> Option<Place>
    requires { contains (tree_ids (G.forest g.now) p.now.tree) p.now.node ≡ true }
    ensures { result ≡ find (shows (G.forest g.now)) (below_place levels (G.forest g.now) p.now) }
{
    let view = g.tree(p.tree).unwrap();
    let node = view.node(p.node).unwrap();
    match hung_root(g, p, levels) {
        Some(root) => {
            let hung = g.tree(root.tree).unwrap();
            first_in(g, hung, &root, levels - 1)
        }
        None => first_among(g, view, p.tree, node.children.as_slice(), levels),
    }
}

/// The first shown place behind a place and all below it, in its tree and what hangs there.
fn first_behind_in_tree<G: Grove>(g: &G, view: &G::Tree, p: &Place, levels: usize) -> Option<Place>
    requires live { Some (G.Tree.tree view.now) ≡ live_tree (G.forest g.now) p.now.tree }
    requires there { has (G.Tree.tree view.now).trees p.now.node ≡ true }
    ensures { result ≡ find (shows (G.forest g.now)) (run levels (G.forest g.now) p.now.tree (behind (G.Tree.tree view.now).trees p.now.node)) }
{
    let _ = view.root();
    let tree = p.tree;
    let mut at = p.node;
    while let Some(above) = view.parent(at) {
        let node = view.node(above).unwrap();
        let later = past(node.children.as_slice(), at);
        let found = first_among(g, view, tree, later, levels);
        if found.is_some() {
            return found;
        }
        at = above;
    }
    None
}

/// The first shown place behind a place and all below it, where `levels` of trees are shown below its tree.
fn first_behind<G: Grove>(g: &G, p: &Place, levels: usize) -> Option<Place>
    requires { contains (tree_ids (G.forest g.now) p.now.tree) p.now.node ≡ true }
    ensures { result ≡ first_behind (8 - levels) levels (G.forest g.now) p.now }
{
    if levels >= LEVELS {
        return None;
    }
    let view = g.tree(p.tree).unwrap();
    let found = first_behind_in_tree(g, view, p, levels);
    if found.is_some() {
        return found;
    }
    match g.host_of(p.tree) {
        Some(host) => first_behind(g, &host, levels + 1),
        None => None,
    }
}

/// The next shown place after a shown place; none at the last one.
pub fn next<G: Grove>(g: &G, p: Place) -> Option<Place>
    requires there { has_place (stitched (G.forest g.now)) p ≡ true }
    requires shown { is_shown_place (stitched (G.forest g.now)) p ≡ true }
    ensures { result ≡ shown_next (stitched (G.forest g.now)) p }
{
    // Asked for what it says: the forest is sound.
    let _ = g.tree(p.tree);
    let below = levels_below(g, p.tree, LEVELS).unwrap();
    let inner = first_below(g, &p, below);
    if inner.is_some() {
        return inner;
    }
    first_behind(g, &p, below)
}
