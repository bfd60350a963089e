//! The dump of a forest.
ghost use Rattle.std.specs.Prelude.{◌≡◌, ◌++◌, ◌≤◌, OnOk, OnErr, []};
ghost use Rattle.std.specs.List.{flat_map};
ghost use Rattle.ax_node.specs.Look.{look_of};
ghost use Rattle.ax_trees.specs.Trees.{height};
ghost use Rattle.ax_run_rules.specs.Dump.{tree_text};
ghost use Rattle.ax_report.specs.Buffers.{Extends};
ghost use Rattle.ax_report.specs.Walks.{node_line, under_text, standing_text};

use crate::Bytes;
use crate::node::{put_look, put_tree_line};
use crate::put::put;
use ax_base::{NodeId, TreeId};
use ax_node::NodeData;
use ax_tree::{Grove, TreeView};
use std::alloc::{AllocError, Global};

/// How many levels may stand below a root.
const LEVELS: usize = 255;

#[tactic(auto, unfolding(crate::specs::Walks::node_line), using(crate::proofs::BufferLemmas::begins))]
fn put_node(
    alloc: Global,
    id: NodeId,
    node: &NodeData,
    indent: &str,
    out: &mut Bytes,
) -> Result<(), AllocError>
    ensures ok { OnOk result (out.new.items ≡ out.old.items ++ node_line indent.now id (look_of node.now)) }
    ensures err { OnErr result (Extends out.old.items out.new.items) }
{
    let id = id.get();
    let role = node.role.name();
    put(out, &format!(in alloc; "{indent}{id} {role}")?)?;
    put_look(alloc, node, out)?;
    put(out, "\n")?;
    Ok(())
}

/// A node and what stands below it, in pre-order.
fn put_under<V: TreeView>(
    alloc: Global,
    view: &V,
    id: NodeId,
    levels: usize,
    indent: &str,
    out: &mut Bytes,
) -> Result<(), AllocError>
    ensures ok { OnOk result (out.new.items ≡ out.old.items ++ under_text (V.tree view.now) levels indent.now id) }
    ensures err { OnErr result (Extends out.old.items out.new.items) }
{
    let Some(node) = view.node(id) else {
        return Ok(());
    };
    put_node(alloc, id, node, indent, out)?;
    if levels == 0 {
        return Ok(());
    }
    let deeper = format!(in alloc; "{indent}  ")?;
    let children = node.children.as_slice();
    for child in children {
        put_under(alloc, view, *child, levels - 1, &deeper, out)?;
    }
    Ok(())
}

#[tactic(auto, using(crate::proofs::BufferLemmas::begins, crate::proofs::WalkLemmas::tree_empty))]
fn put_tree<V: TreeView>(
    alloc: Global,
    tree: TreeId,
    view: &V,
    out: &mut Bytes,
) -> Result<(), AllocError>
    requires { height (V.tree view.now).trees ≤ 256 }
    ensures ok { OnOk result (out.new.items ≡ out.old.items ++ tree_text tree (V.tree view.now)) }
    ensures err { OnErr result (Extends out.old.items out.new.items) }
{
    match view.root() {
        None => {
            let tree = tree.get();
            put(out, &format!(in alloc; "tree {tree} empty\n")?)
        }
        Some(root) => {
            put_tree_line(alloc, view.tree_data(), out)?;
            put_under(alloc, view, root, LEVELS, "", out)?;
            Ok(())
        }
    }
}

#[tactic(auto, unfolding(crate::specs::Walks::standing_text), using(crate::proofs::BufferLemmas::begins))]
fn put_standing<G: Grove>(
    alloc: Global,
    grove: &G,
    tree: TreeId,
    out: &mut Bytes,
) -> Result<(), AllocError>
    ensures ok { OnOk result (out.new.items ≡ out.old.items ++ standing_text (G.forest grove.now) tree) }
    ensures err { OnErr result (Extends out.old.items out.new.items) }
{
    match grove.tree(tree) {
        None => {
            let tree = tree.get();
            put(out, &format!(in alloc; "tree {tree} gone\n")?)
        }
        Some(view) => put_tree(alloc, tree, view, out),
    }
}

pub(crate) fn put_dump<G: Grove>(
    alloc: Global,
    grove: &G,
    trees: &[TreeId],
    out: &mut Bytes,
) -> Result<(), AllocError>
    ensures ok { OnOk result (out.new.items ≡ out.old.items ++ flat_map (standing_text (G.forest grove.now)) trees.now) }
    ensures err { OnErr result (Extends out.old.items out.new.items) }
{
    for tree in trees {
        put_standing(alloc, grove, *tree, out)?;
    }
    Ok(())
}
