//! The shown place before a place: what stands before it is searched from its end.
ghost use Rattle.std.specs.Prelude.{◌≡◌, ◌-◌, Some, None, true, flat_map, if◌then◌else◌};
ghost use Rattle.ax_node.specs.Look.{look_of};
ghost use Rattle.ax_trees.specs.Trees.{has, ids};
ghost use Rattle.ax_trees.specs.Lists.{contains};
ghost use Rattle.ax_tree.specs.Forest.{live_tree};
ghost use Rattle.ax_rules.specs.Stitched.{stitched, has_place};
ghost use Rattle.ax_rules.specs.Unignored.{is_shown_place, shown_prev};
ghost use Rattle.ax_stitch.specs.Orders.{ahead};
ghost use Rattle.ax_stitch.specs.Levels.{tree_ids};
ghost use Rattle.ax_unignored.specs.Shows.{is_lit, shows};
ghost use Rattle.ax_unignored.specs.Runs.{find_last, run, run_at, AllThere, last_ahead};

use crate::ids::ahead;
use crate::show::{is_lit, is_lit_at};
use ax_base::{NodeId, Place, TreeId};
use ax_node::NodeData;
use ax_stitch::{LEVELS, hung_root, levels_below};
use ax_tree::{Grove, TreeView};

/// A place, where its node is shown.
fn own(p: &Place, node: &NodeData) -> Option<Place>
    ensures { result ≡ (if is_lit (look_of node.now) then Some p.now else None) }
{
    if is_lit(node) { Some(*p) } else { None }
}

/// The last shown place at a node and below it, where so many levels of trees are shown below its tree.
fn last_in<G: Grove>(g: &G, view: &G::Tree, p: &Place, levels: usize) -> Option<Place>
    requires live { Some (G.Tree.tree view.now) ≡ live_tree (G.forest g.now) p.now.tree }
    requires there { has (G.Tree.tree view.now).trees p.now.node ≡ true }
    ensures { result ≡ find_last (shows (G.forest g.now)) (run_at levels (G.forest g.now) p.now.tree (G.Tree.tree view.now).trees p.now.node) }
{
    // Asked for what it says: the forest is sound.
    let _ = g.tree(p.tree);
    let node = view.node(p.node).unwrap();
    if let Some(root) = hung_root(g, p, levels) {
        let hung = g.tree(root.tree).unwrap();
        let found = last_in(g, hung, &root, levels - 1);
        if found.is_some() {
            return found;
        }
        return own(p, node);
    }
    let children = node.children.as_slice();
    let mut left = children.len();
    while left > 0 {
        left -= 1;
        let place = Place {
            tree: p.tree,
            node: children[left],
        };
        let found = last_in(g, view, &place, levels);
        if found.is_some() {
            return found;
        }
    }
    own(p, node)
}

/// The last shown place at nodes of a tree and below them, one after the other.
fn last_among<G: Grove>(
    g: &G,
    view: &G::Tree,
    tree: TreeId,
    ids: &[NodeId],
    levels: usize,
) -> Option<Place>
    requires live { Some (G.Tree.tree view.now) ≡ live_tree (G.forest g.now) tree }
    requires there { AllThere (G.Tree.tree view.now).trees ids.now }
    ensures { result ≡ find_last (shows (G.forest g.now)) (flat_map (run_at levels (G.forest g.now) tree (G.Tree.tree view.now).trees) ids.now) }
{
    let mut left = ids.len();
    while left > 0 {
        left -= 1;
        let place = Place {
            tree,
            node: ids[left],
        };
        let found = last_in(g, view, &place, levels);
        if found.is_some() {
            return found;
        }
    }
    None
}

/// The last shown place before a place, in its tree and what hangs there.
fn last_ahead_in_tree<G: Grove>(g: &G, view: &G::Tree, p: &Place, levels: usize) -> Option<Place>
    requires live { Some (G.Tree.tree view.now) ≡ live_tree (G.forest g.now) p.now.tree }
    requires there { has (G.Tree.tree view.now).trees p.now.node ≡ true }
    ensures { result ≡ find_last (shows (G.forest g.now)) (run levels (G.forest g.now) p.now.tree (ahead (ids (G.Tree.tree view.now).trees) p.now.node)) }
{
    let _ = view.root();
    let tree = p.tree;
    let mut at = p.node;
    while let Some(above) = view.parent(at) {
        let node = view.node(above).unwrap();
        let earlier = ahead(node.children.as_slice(), at);
        let found = last_among(g, view, tree, earlier, levels);
        if found.is_some() {
            return found;
        }
        if is_lit(node) {
            return Some(Place { tree, node: above });
        }
        at = above;
    }
    None
}

/// The last shown place before a place, where `levels` of trees are shown below its tree.
fn last_ahead<G: Grove>(g: &G, p: &Place, levels: usize) -> Option<Place>
    requires { contains (tree_ids (G.forest g.now) p.now.tree) p.now.node ≡ true }
    ensures { result ≡ last_ahead (8 - levels) levels (G.forest g.now) p.now }
{
    if levels >= LEVELS {
        return None;
    }
    let view = g.tree(p.tree).unwrap();
    let found = last_ahead_in_tree(g, view, p, levels);
    if found.is_some() {
        return found;
    }
    match g.host_of(p.tree) {
        Some(host) => {
            if is_lit_at(g, &host) {
                Some(host)
            } else {
                last_ahead(g, &host, levels + 1)
            }
        }
        None => None,
    }
}

/// The shown place before a shown place; none at the first one.
pub fn prev<G: Grove>(g: &G, p: Place) -> Option<Place>
    requires there { has_place (stitched (G.forest g.now)) p ≡ true }
    requires shown { is_shown_place (stitched (G.forest g.now)) p ≡ true }
    ensures { result ≡ shown_prev (stitched (G.forest g.now)) p }
{
    // Asked for what it says: the forest is sound.
    let _ = g.tree(p.tree);
    let below = levels_below(g, p.tree, LEVELS).unwrap();
    last_ahead(g, &p, below)
}
