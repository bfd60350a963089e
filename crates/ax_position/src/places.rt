//! The walk over the places of the joined list.
ghost use Rattle.std.specs.Prelude.{◌≡◌, Some, true, false, IfOk, IfErr, Bool, ◌&&◌, not, is_some};
ghost use Rattle.ax_node.specs.Look.{look_of};
ghost use Rattle.ax_trees.specs.Trees.{has};
ghost use Rattle.ax_trees.specs.Lists.{is_nil};
ghost use Rattle.ax_tree.specs.Forest.{IsSound, live_tree};
ghost use Rattle.ax_rules.specs.Stitched.{stitched};
ghost use Rattle.ax_position.specs.Walks.{Row, row_of, rows, rows_of_two, folded, node_rows, within_of, IsSettled};

use crate::targets::{Targets, Within, outside, within_of};
use ax_base::{NoMemory, NodeId, Place};
use ax_node::NodeData;
use ax_stitch::hung_root;
use ax_tree::{Grove, TreeView};

/// How many trees may hang below the first one, one in another.
const LEVELS: usize = 7;

/// What is made of the places of a walk.
pub trait Visitor {
    /// What a row makes of the state.
    ghost seen: { Self → Row → Self };

    /// Whether memory may be wanting. A row changes nothing about that.
    ghost fails: { Self → Bool };

    /// Sees a place with its node: whether it is a leaf, and whether it is within the places that are asked for.
    fn visit(
        &mut self,
        place: &Place,
        node: &NodeData,
        leaf: bool,
        within: Within,
    ) -> Result<(), NoMemory>
        ensures seen { IfOk result (λ _. self.new ≡ seen self.old (row_of place.now (look_of node.now) leaf within)) }
        ensures fails { IfOk result (λ _. fails self.new ≡ fails self.old) }
        ensures err { IfErr result (λ _. fails self.old ≡ true) };

    /// Whether the state is settled: no further row changes it, and the walk ends.
    fn is_settled(&self) -> bool
        ensures { (result ≡ true) → IsSettled seen self.now };
}

/// Whether a node has no children and nothing hangs at it.
fn is_leaf(children: &[NodeId], hung: &Option<Place>) -> bool
    ensures { result ≡ (is_nil children.now && not (is_some hung.now)) }
{
    children.is_empty() && hung.is_none()
}

/// Visits a place, all below it in its tree, and what hangs there, where so many levels are shown below the tree. It ends
/// as soon as the state is settled.
fn walk_node<G: Grove, S: Visitor>(
    g: &G,
    view: &G::Tree,
    at: &Place,
    levels: usize,
    targets: &Targets,
    above: Within,
    state: &mut S,
) -> Result<(), NoMemory>
    requires sound { IsSound (G.forest g.now) }
    requires live { Some (G.Tree.tree view.now) ≡ live_tree (G.forest g.now) at.now.tree }
    requires there { has (G.Tree.tree view.now).trees at.now.node ≡ true }
    ensures seen { IfOk result (λ _. state.new ≡ folded S.seen state.old (node_rows levels (G.forest g.now) targets.now above at.now.tree (G.Tree.tree view.now).trees at.now.node)) }
    ensures fails { IfOk result (λ _. S.fails state.new ≡ S.fails state.old) }
    ensures err { IfErr result (λ _. S.fails state.old ≡ true) }
{
    let node = view.node(at.node).unwrap();
    let children = node.children.as_slice();
    let hung = hung_root(g, at, levels);
    let within = within_of(targets, at, above);
    let leaf = is_leaf(children, &hung);
    state.visit(at, node, leaf, within)?;
    for child in children {
        if state.is_settled() {
            return Ok(());
        }
        let place = Place {
            tree: at.tree,
            node: *child,
        };
        walk_node(g, view, &place, levels, targets, within, state)?;
    }
    if state.is_settled() {
        return Ok(());
    }
    if let Some(root) = hung {
        let below = g.tree(root.tree).unwrap();
        walk_node(g, below, &root, levels - 1, targets, within, state)?;
    }
    Ok(())
}

/// Visits the places of the joined list in their order, until the state is settled. `targets` are the places that are asked
/// for. Its cost is that of visiting the nodes up to there.
pub fn walk_for_two<G: Grove, S: Visitor>(
    g: &G,
    targets: &Targets,
    state: &mut S,
) -> Result<(), NoMemory>
    ensures seen { IfOk result (λ _. state.new ≡ folded S.seen state.old (rows_of_two (stitched (G.forest g.now)) targets.now)) }
    ensures sound { IsSound (G.forest g.now) }
    ensures err { IfErr result (λ _. S.fails state.old ≡ true) }
{
    let tree = g.first();
    let Some(view) = g.tree(tree) else {
        return Ok(());
    };
    let Some(node) = view.root() else {
        return Ok(());
    };
    walk_node(
        g,
        view,
        &Place { tree, node },
        LEVELS,
        targets,
        outside(),
        state,
    )?;
    Ok(())
}

/// The same, where one place alone is asked for.
pub fn walk<G: Grove, S: Visitor>(g: &G, target: &Place, state: &mut S) -> Result<(), NoMemory>
    ensures seen { IfOk result (λ _. state.new ≡ folded S.seen state.old (rows (stitched (G.forest g.now)) target.now)) }
    ensures sound { IsSound (G.forest g.now) }
    ensures err { IfErr result (λ _. S.fails state.old ≡ true) }
{
    let targets = Targets {
        one: *target,
        other: *target,
    };
    walk_for_two(g, &targets, state)?;
    Ok(())
}
