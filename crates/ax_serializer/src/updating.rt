//! An update, made by its plan.
ghost use Rattle.std.specs.Prelude.{◌≡◌, None, IfOk, IsTrue};
ghost use Rattle.ax_trees.specs.Trees.{has};
ghost use Rattle.ax_tree.specs.Serialised.{update_of};
ghost use Rattle.ax_serializer.specs.Plans.{nodes_at};

use crate::planning::make_plan;
use ax_base::{NoMemory, NodeId};
use ax_client::ClientTree;
use ax_marks::Marks;
use ax_tree::{Nodes, TreeUpdate, TreeView};
use std::alloc::Global;

/// The update at `d`, with copies of the source's nodes and without tree data.
pub(crate) fn update_at<T: TreeView>(
    alloc: Global,
    s: &T,
    c: &ClientTree,
    m: &Marks,
    d: NodeId,
) -> Result<TreeUpdate, NoMemory>
    requires { IsTrue (has (T.tree s.now).trees d) }
    ensures { IfOk result (λ u. u ≡ update_of c.now.tree (T.tree s.now) m.now d) }
{
    let _ = s.root();
    let plan = make_plan(alloc, s, c, m, d)?;
    let nodes = copy_nodes(alloc, s, plan.ids.as_slice())?;
    Ok(TreeUpdate {
        clear: plan.clear,
        root: plan.root,
        nodes,
        tree_data: None,
    })
}

/// Copies of the nodes at the ids.
fn copy_nodes<T: TreeView>(alloc: Global, s: &T, ids: &[NodeId]) -> Result<Nodes, NoMemory>
    ensures { IfOk result (λ nodes. nodes ≡ nodes_at (T.tree s.now) ids.now) }
{
    let mut nodes = Nodes::new(alloc);
    for id in ids {
        if let Some(node) = s.node(*id) {
            nodes.push(node.copy()?)?;
        }
    }
    Ok(nodes)
}
