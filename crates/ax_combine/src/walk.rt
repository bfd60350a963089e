//! The places of the joined list, by one walk.
ghost use Rattle.std.specs.Prelude.{◌≡◌, ◌++◌, Some, true, IfOk};
ghost use Rattle.ax_trees.specs.Trees.{has};
ghost use Rattle.ax_tree.specs.Forest.{IsSound, live_tree};
ghost use Rattle.ax_rules.specs.Stitched.{places, stitched};
ghost use Rattle.ax_combine.specs.Runs.{run_at};

use ax_base::{NoMemory, Place, Places};
use ax_stitch::{LEVELS, hung_root};
use ax_tree::{Grove, TreeView};
use std::alloc::Global;

/// Adds a place and all below it, where so many levels of trees are shown below its tree: what hangs at a node stands
/// below it, and so before the node's later siblings.
fn add_places<G: Grove>(
    g: &G,
    view: &G::Tree,
    p: &Place,
    levels: usize,
    found: &mut Places,
) -> Result<(), NoMemory>
    requires live { Some (G.Tree.tree view.now) ≡ live_tree (G.forest g.now) p.now.tree }
    requires there { has (G.Tree.tree view.now).trees p.now.node ≡ true }
    ensures { IfOk result (λ _. found.new ≡ found.old ++ run_at levels (G.forest g.now) p.now.tree (G.Tree.tree view.now).trees p.now.node) }
{
    // Asked for what it says: the forest is sound.
    let _ = g.tree(p.tree);
    let node = view.node(p.node).unwrap();
    found.push(*p)?;
    if let Some(root) = hung_root(g, p, levels) {
        let hung = g.tree(root.tree).unwrap();
        return add_places(g, hung, &root, levels - 1, found);
    }
    let children = node.children.as_slice();
    for child in children {
        let place = Place {
            tree: p.tree,
            node: *child,
        };
        add_places(g, view, &place, levels, found)?;
    }
    Ok(())
}

/// All places of the joined list, in order.
pub(crate) fn all_places<G: Grove>(alloc: Global, g: &G) -> Result<Places, NoMemory>
    ensures places { IfOk result (λ found. found ≡ places (stitched (G.forest g.now))) }
    ensures sound { IsSound (G.forest g.now) }
{
    let mut found = Places::new(alloc);
    let tree = g.first();
    let Some(view) = g.tree(tree) else {
        return Ok(found);
    };
    let Some(node) = view.root() else {
        return Ok(found);
    };
    add_places(g, view, &Place { tree, node }, LEVELS - 1, &mut found)?;
    Ok(found)
}
