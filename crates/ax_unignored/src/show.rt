//! Which nodes and places are shown.
ghost use Rattle.std.specs.Prelude.{◌≡◌, true};
ghost use Rattle.ax_node.specs.Look.{look_of};
ghost use Rattle.ax_trees.specs.Lists.{contains};
ghost use Rattle.ax_rules.specs.Stitched.{stitched, has_place};
ghost use Rattle.ax_rules.specs.Unignored.{is_shown_place};
ghost use Rattle.ax_stitch.specs.Levels.{tree_ids};
ghost use Rattle.ax_unignored.specs.Shows.{is_lit, shows};

use ax_attrs::State;
use ax_base::Place;
use ax_node::NodeData;
use ax_tree::{Grove, TreeView};

/// Whether a node is shown: it isn't ignored.
pub(crate) fn is_lit(node: &NodeData) -> bool
    ensures { result ≡ is_lit (look_of node.now) }
{
    !node.states.has(State::IGNORED)
}

/// Whether the node of a place is shown.
pub(crate) fn is_lit_at<G: Grove>(g: &G, p: &Place) -> bool
    requires { contains (tree_ids (G.forest g.now) p.now.tree) p.now.node ≡ true }
    ensures { result ≡ shows (G.forest g.now) p.now }
{
    let view = g.tree(p.tree).unwrap();
    let node = view.node(p.node).unwrap();
    is_lit(node)
}

/// Whether a place of the list is shown.
pub(crate) fn is_shown<G: Grove>(g: &G, p: &Place) -> bool
    requires { has_place (stitched (G.forest g.now)) p.now ≡ true }
    ensures { result ≡ is_shown_place (stitched (G.forest g.now)) p.now }
{
    // Asked for what it says: the forest is sound.
    let _ = g.tree(p.tree);
    is_lit_at(g, p)
}

/// Whether a place is shown: its node isn't ignored.
pub fn shown<G: Grove>(g: &G, p: Place) -> bool
    requires { has_place (stitched (G.forest g.now)) p ≡ true }
    ensures { result ≡ is_shown_place (stitched (G.forest g.now)) p }
{
    is_shown(g, &p)
}
