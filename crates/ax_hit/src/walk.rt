//! The walk of a hit: backwards, tree by tree.
ghost use Rattle.std.specs.Prelude.{◌≡◌, ◌≤◌, ◌-◌, Some, None, true, if◌then◌else◌};
ghost use Rattle.ax_trees.specs.Trees.{has, height};
ghost use Rattle.ax_trees.specs.Nodes.{below, depth};
ghost use Rattle.ax_tree.specs.Forest.{live_tree};
ghost use Rattle.ax_rules.specs.Hit.{hit_of};
ghost use Rattle.ax_stitch.specs.Levels.{levels_below};
ghost use Rattle.ax_hit.specs.Trails.{origins_on, AllNear};
ghost use Rattle.ax_hit.specs.Hits.{hit_from, origins_over};

use crate::point::{hides, holds_point, origin_below};
use crate::trail::{Trail, below};
use ax_base::{Place, Point};
use ax_stitch::hung_root;
use ax_tree::{Grove, TreeView};

/// How many levels of trees may hang below the first one.
const BELOW_FIRST: usize = 7;

/// A place, where it is hit itself.
fn own_hit(p: &Place, here: bool) -> Option<Place>
    ensures { result ≡ (if here then Some p.now else None) }
{
    if here { Some(*p) } else { None }
}

/// The last place that a point hits among a place and those below it, where nothing above hides them.
fn hit_at<G: Grove>(
    g: &G,
    view: &G::Tree,
    p: &Place,
    trail: &Trail<'_>,
    at: Point,
    levels: usize,
) -> Option<Place>
    requires live { live_tree (G.forest g.now) p.now.tree ≡ Some (G.Tree.tree view.now) }
    requires there { has (G.Tree.tree view.now).trees p.now.node ≡ true }
    requires low { height (G.Tree.tree view.now).trees ≤ 256 }
    requires level { levels_below 8 (G.forest g.now) p.now.tree ≡ Some levels }
    requires line { origins_on trail.now ≡ origins_over (G.Tree.tree view.now).trees p.now.node }
    requires near { AllNear (depth (G.Tree.tree view.now).trees p.now.node - 1) (origins_on trail.now) }
    ensures { result ≡ hit_from levels (G.forest g.now) at p.now.tree p.now.node (below (G.Tree.tree view.now).trees p.now.node) }
{
    // Asked for what it says: the forest is sound.
    let _ = g.tree(p.tree);
    let node = view.node(p.node).unwrap();
    let origin = origin_below(node, trail);
    let here = holds_point(node, &origin, at);
    if hides(node, here) {
        return None;
    }
    if let Some(root) = hung_root(g, p, levels) {
        let hung = g.tree(root.tree).unwrap();
        let found = hit_at(g, hung, &root, &Trail::Top, at, levels - 1);
        if found.is_some() {
            return found;
        }
        return own_hit(p, here);
    }
    let deeper = below(&origin, &*trail);
    let children = node.children.as_slice();
    let mut left = children.len();
    while left > 0 {
        left -= 1;
        let child = Place {
            tree: p.tree,
            node: children[left],
        };
        let found = hit_at(g, view, &child, &deeper, at, levels);
        if found.is_some() {
            return found;
        }
    }
    own_hit(p, here)
}

/// The last place in the list whose extent holds a point, as do the extents of all places above it that clip; none where
/// there is no such place.
pub fn hit<G: Grove>(g: &G, at: Point) -> Option<Place>
    ensures { result ≡ hit_of (G.forest g.now) at }
{
    let tree = g.first();
    let view = match g.tree(tree) {
        Some(view) => view,
        None => return None,
    };
    match view.root() {
        Some(node) => hit_at(g, view, &Place { tree, node }, &Trail::Top, at, BELOW_FIRST),
        None => None,
    }
}
