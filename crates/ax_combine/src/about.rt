//! The tree data of the combined tree.
ghost use Rattle.std.specs.Prelude.{◌≡◌, Some, IfOk, option_and_then};
ghost use Rattle.ax_node.specs.declared.tree_data.TreeData as tree_data;
ghost use Rattle.ax_rules.specs.Combined.{numbered_end, number_of, combined_about, combined_data};
ghost use Rattle.ax_rules.specs.Focus.{focus_of};
ghost use Rattle.ax_rules.specs.Stitched.{stitched, places};
ghost use Rattle.ax_tree.specs.Forest.{first_tree};

use crate::numbering::Numbering;
use ax_base::{NoMemory, NodeId, Place, TreeId};
use ax_focus::focus;
use ax_node::TreeData;
use ax_tree::{Grove, TreeView};
use std::alloc::Global;

/// An end of a tree's selection: the number of its node; none where that isn't one of the places.
fn numbered_end(
    end: Option<(NodeId, u32)>,
    tree: TreeId,
    numbering: &Numbering,
) -> Option<(NodeId, u32)>
    ensures { result ≡ option_and_then (numbered_end numbering.now tree) end }
{
    match end {
        Some((node, offset)) => match numbering.number(&Place { tree, node }) {
            Some(number) => Some((number, offset)),
            None => None,
        },
        None => None,
    }
}

/// The number of the place that has the focus.
fn numbered_focus<G: Grove>(g: &G, numbering: &Numbering) -> Option<NodeId>
    ensures { result ≡ option_and_then (number_of numbering.now) (focus_of (G.forest g.now)) }
{
    match focus(g) {
        Some(place) => numbering.number(&place),
        None => None,
    }
}

/// Tree data of the first tree, renumbered. The combined tree hangs nowhere.
fn numbered_data<G: Grove>(
    g: &G,
    about: &TreeData,
    tree: TreeId,
    numbering: &Numbering,
) -> Result<TreeData, NoMemory>
    requires { numbering.now ≡ places (stitched (G.forest g.now)) }
    ensures { IfOk result (λ d. d ≡ combined_about (G.forest g.now) tree about.now) }
{
    let title = about.title.copy()?;
    let url = about.url.copy()?;
    Ok(TreeData {
        tree,
        parent: None,
        focused: None,
        loaded: about.loaded,
        focus: numbered_focus(g, numbering),
        anchor: numbered_end(about.anchor, tree, numbering),
        end: numbered_end(about.end, tree, numbering),
        title,
        url,
    })
}

/// The combined tree's data: the first tree's, renumbered, and blank where that isn't live or has no root.
#[tactic(auto, unfolding(ax_rules::specs::Combined::combined_data))]
pub(crate) fn data_of<G: Grove>(
    alloc: Global,
    g: &G,
    numbering: &Numbering,
) -> Result<TreeData, NoMemory>
    requires { numbering.now ≡ places (stitched (G.forest g.now)) }
    ensures first { IfOk result (λ d. first_tree (G.forest g.now) ≡ Some d.tree) }
    ensures data { IfOk result (λ d. d ≡ combined_data (G.forest g.now) d.tree) }
{
    let tree = g.first();
    let Some(view) = g.tree(tree) else {
        return Ok(TreeData::blank(alloc, tree));
    };
    if view.root().is_none() {
        return Ok(TreeData::blank(alloc, tree));
    }
    numbered_data(g, view.tree_data(), tree, numbering)
}
