//! The text of the shown leaves.
ghost use Rattle.std.specs.Prelude.{◌≡◌, ◌++◌, ◌&&◌, ◌||◌, not, [], Some, true, if◌then◌else◌, IfOk};
ghost use Rattle.ax_node.specs.Look.{look_of};
ghost use Rattle.ax_trees.specs.Trees.{has};
ghost use Rattle.ax_tree.specs.Forest.{live_tree};
ghost use Rattle.ax_rules.specs.Looks.{name_text};
ghost use Rattle.ax_rules.specs.Stitched.{stitched, has_place};
ghost use Rattle.ax_rules.specs.Unignored.{is_shown_place, shown_text};
ghost use Rattle.ax_unignored.specs.Shows.{is_lit};
ghost use Rattle.ax_unignored.specs.Tops.{has_shown_at, texts_at};

use crate::gathered::Gathered;
use crate::show::is_lit;
use ax_attrs::Key;
use ax_base::{NoMemory, Place, Text};
use ax_node::{NodeData, Value};
use ax_stitch::{LEVELS, hung_root, levels_below};
use ax_tree::{Grove, TreeView};
use std::alloc::Global;

/// Appends a node's name.
fn add_name(node: &NodeData, out: &mut Gathered) -> Result<(), NoMemory>
    ensures { IfOk result (λ _. out.new ≡ out.old ++ name_text (look_of node.now)) }
{
    match node.attrs.get(Key::NAME) {
        Some(Value::Text(text)) => out.append(text),
        _ => Ok(()),
    }
}

/// Appends a node's name where it is a shown leaf: it is shown, and nothing below it is. Answers whether the node or
/// anything below it is shown.
fn add_own(node: &NodeData, below: bool, out: &mut Gathered) -> Result<bool, NoMemory>
    ensures text { IfOk result (λ _. out.new ≡ out.old ++ (if is_lit (look_of node.now) && not below then name_text (look_of node.now) else [])) }
    ensures shown { IfOk result (λ b. b ≡ (is_lit (look_of node.now) || below)) }
{
    if !is_lit(node) {
        return Ok(below);
    }
    if !below {
        add_name(node, out)?;
    }
    Ok(true)
}

/// Appends the names of the shown leaves at a node and below it, where so many levels of trees are shown below its tree.
/// Answers whether the node or anything below it is shown.
fn add_texts<G: Grove>(
    g: &G,
    view: &G::Tree,
    p: &Place,
    levels: usize,
    out: &mut Gathered,
) -> Result<bool, NoMemory>
    requires live { Some (G.Tree.tree view.now) ≡ live_tree (G.forest g.now) p.now.tree }
    requires there { has (G.Tree.tree view.now).trees p.now.node ≡ true }
    ensures text { IfOk result (λ _. out.new ≡ out.old ++ texts_at levels (G.forest g.now) p.now.tree (G.Tree.tree view.now).trees p.now.node) }
    ensures shown { IfOk result (λ b. b ≡ has_shown_at levels (G.forest g.now) p.now.tree (G.Tree.tree view.now).trees p.now.node) }
{
    // Asked for what it says: the forest is sound.
    let _ = g.tree(p.tree);
    let node = view.node(p.node).unwrap();
    if let Some(root) = hung_root(g, p, levels) {
        let hung = g.tree(root.tree).unwrap();
        let below = add_texts(g, hung, &root, levels - 1, out)?;
        return add_own(node, below, out);
    }
    let children = node.children.as_slice();
    let mut below = false;
    for child in children {
        let place = Place {
            tree: p.tree,
            node: *child,
        };
        let shown = add_texts(g, view, &place, levels, out)?;
        below = below || shown;
    }
    add_own(node, below, out)
}

/// The joined names of the shown leaves at a shown place and below it: of the shown places without a shown place below.
pub fn text<G: Grove>(alloc: Global, g: &G, p: Place) -> Result<Text, NoMemory>
    requires there { has_place (stitched (G.forest g.now)) p ≡ true }
    requires shown { is_shown_place (stitched (G.forest g.now)) p ≡ true }
    ensures { IfOk result (λ t. t ≡ shown_text (stitched (G.forest g.now)) p) }
{
    let below = levels_below(g, p.tree, LEVELS).unwrap();
    let view = g.tree(p.tree).unwrap();
    let mut out = Gathered::new(alloc);
    let _ = add_texts(g, view, &p, below, &mut out)?;
    let text = out.text(alloc)?;
    Ok(text)
}
