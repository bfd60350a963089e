//! The nearest shown places below a place.
ghost use Rattle.std.specs.Prelude.{◌≡◌, ◌++◌, Some, true, flat_map, IfOk};
ghost use Rattle.ax_trees.specs.Trees.{has};
ghost use Rattle.ax_trees.specs.Lists.{contains};
ghost use Rattle.ax_tree.specs.Forest.{live_tree};
ghost use Rattle.ax_rules.specs.Stitched.{stitched, has_place};
ghost use Rattle.ax_rules.specs.Unignored.{is_shown_place, shown_children};
ghost use Rattle.ax_stitch.specs.Levels.{tree_ids};
ghost use Rattle.ax_unignored.specs.Runs.{AllThere};
ghost use Rattle.ax_unignored.specs.Tops.{tops_at, tops_below};

use crate::show::is_lit;
use ax_base::{NoMemory, NodeId, Place, Places, TreeId};
use ax_stitch::{LEVELS, hung_root, levels_below};
use ax_tree::{Grove, TreeView};
use std::alloc::Global;

/// Adds a place, or where it is ignored the nearest shown places below it.
fn add_tops<G: Grove>(
    g: &G,
    view: &G::Tree,
    p: &Place,
    levels: usize,
    found: &mut Places,
) -> Result<(), NoMemory>
    requires live { Some (G.Tree.tree view.now) ≡ live_tree (G.forest g.now) p.now.tree }
    requires there { has (G.Tree.tree view.now).trees p.now.node ≡ true }
    ensures { IfOk result (λ _. found.new ≡ found.old ++ tops_at levels (G.forest g.now) p.now.tree (G.Tree.tree view.now).trees p.now.node) }
{
    // Asked for what it says: the forest is sound.
    let _ = g.tree(p.tree);
    let node = view.node(p.node).unwrap();
    if is_lit(node) {
        return found.push(*p);
    }
    if let Some(root) = hung_root(g, p, levels) {
        let hung = g.tree(root.tree).unwrap();
        return add_tops(g, hung, &root, levels - 1, found);
    }
    let children = node.children.as_slice();
    for child in children {
        let place = Place {
            tree: p.tree,
            node: *child,
        };
        add_tops(g, view, &place, levels, found)?;
    }
    Ok(())
}

/// Adds nodes of a tree, or where one is ignored the nearest shown places below it.
fn add_among<G: Grove>(
    g: &G,
    view: &G::Tree,
    tree: TreeId,
    ids: &[NodeId],
    levels: usize,
    found: &mut Places,
) -> Result<(), NoMemory>
    requires live { Some (G.Tree.tree view.now) ≡ live_tree (G.forest g.now) tree }
    requires there { AllThere (G.Tree.tree view.now).trees ids.now }
    ensures { IfOk result (λ _. found.new ≡ found.old ++ flat_map (tops_at levels (G.forest g.now) tree (G.Tree.tree view.now).trees) ids.now) }
{
    for id in ids {
        add_tops(g, view, &Place { tree, node: *id }, levels, found)?;
    }
    Ok(())
}

/// Adds the nearest shown places below a place.
fn add_below<G: Grove>(g: &G, p: &Place, levels: usize, found: &mut Places) -> Result<(), NoMemory>
    requires { contains (tree_ids (G.forest g.now) p.now.tree) p.now.node ≡ true }
    ensures { IfOk result (λ _. found.new ≡ found.old ++ tops_below levels (G.forest g.now) p.now) }
{
    let view = g.tree(p.tree).unwrap();
    let node = view.node(p.node).unwrap();
    match hung_root(g, p, levels) {
        Some(root) => {
            let hung = g.tree(root.tree).unwrap();
            add_tops(g, hung, &root, levels - 1, found)
        }
        None => add_among(g, view, p.tree, node.children.as_slice(), levels, found),
    }
}

/// The shown places whose nearest shown place above is a shown place, in order.
pub fn children<G: Grove>(alloc: Global, g: &G, p: Place) -> Result<Places, NoMemory>
    requires there { has_place (stitched (G.forest g.now)) p ≡ true }
    requires shown { is_shown_place (stitched (G.forest g.now)) p ≡ true }
    ensures { IfOk result (λ found. found ≡ shown_children (stitched (G.forest g.now)) p) }
{
    let below = levels_below(g, p.tree, LEVELS).unwrap();
    // Asked for what it says: the forest is sound.
    let _ = g.tree(p.tree);
    let mut found = Places::new(alloc);
    add_below(g, &p, below, &mut found)?;
    Ok(found)
}
