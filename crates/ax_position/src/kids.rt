//! The child before which an index stands.
ghost use Rattle.std.specs.Prelude.{◌≡◌, true, map, ◌++◌, option_to_list};
ghost use Rattle.ax_rules.specs.Stitched.{place_at, stitched, has_place, children_of};
ghost use Rattle.ax_position.specs.Marks.{child_before};

use ax_base::{NodeId, Place, TreeId};
use ax_stitch::{hung_root, levels_below};
use ax_tree::{Grove, TreeView};

/// How many trees may hang in one another.
const LEVELS: usize = 8;

/// The child before which an index stands, of a node's own children and the root that hangs there; none behind the last
/// one. Where the index is greater it answers how many children there are.
fn among_children(
    tree: TreeId,
    own: &[NodeId],
    hung: Option<Place>,
    index: usize,
) -> Result<Option<Place>, usize>
    ensures { result ≡ child_before (map (place_at tree) own.now ++ option_to_list hung) index }
{
    if let Some(node) = own.get(index) {
        return Ok(Some(Place { tree, node: *node }));
    }
    let len = own.len();
    match hung {
        Some(_) => {
            if index == len {
                Ok(hung)
            } else if index == len + 1 {
                Ok(None)
            } else {
                Err(len + 1)
            }
        }
        None => { if index == len { Ok(None) } else { Err(len) } }
    }
}

/// The child of a place before which an index stands; none behind the last one. Where the index is greater it answers how
/// many children there are.
pub(crate) fn child_before<G: Grove>(g: &G, p: &Place, index: usize) -> Result<Option<Place>, usize>
    requires { has_place (stitched (G.forest g.now)) p.now ≡ true }
    ensures { result ≡ child_before (children_of (stitched (G.forest g.now)) p.now) index }
{
    let below = levels_below(g, p.tree, LEVELS).unwrap();
    let hung = hung_root(g, p, below);
    let view = g.tree(p.tree).unwrap();
    let node = view.node(p.node).unwrap();
    among_children(p.tree, node.children.as_slice(), hung, index)
}
