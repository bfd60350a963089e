//! What an update clears, names and lists.
ghost use Rattle.std.specs.Prelude.{◌≡◌, ℕ, Some, IfOk, IsTrue};
ghost use Rattle.ax_trees.specs.Trees.{has, root_of};
ghost use Rattle.ax_tree.specs.SerialRule.{last_held, partial_update, trees_update};
ghost use Rattle.ax_serializer.specs.Plans.{IsPlan, whole_update};

use ax_base::{Ids, NoMemory, NodeId};
use ax_client::ClientTree;
use ax_lca::{lowest_closed, reach, start};
use ax_marks::Marks;
use ax_tree::TreeView;
use ax_views::pre;
use std::alloc::Global;

/// What an update clears, which root it names, and which nodes it lists, in order.
#[derive(Drop)]
pub struct Plan {
    pub clear: Option<NodeId>,
    pub root: Option<NodeId>,
    pub ids: Ids,
}

/// The update at `d`: the whole source for a client that is empty or has another root, and else a partial one.
pub(crate) fn make_plan<T: TreeView>(
    alloc: Global,
    s: &T,
    c: &ClientTree,
    m: &Marks,
    d: NodeId,
) -> Result<Plan, NoMemory>
    requires { IsTrue (has (T.tree s.now).trees d) }
    ensures { IfOk result (λ p. IsPlan p (trees_update c.now.tree (T.tree s.now).trees m.now d)) }
{
    let root = s.root().unwrap_or(d);
    match c.root() {
        None => whole(alloc, s, root, None),
        Some(old) => {
            if old != root {
                return whole(alloc, s, root, Some(old));
            }
            partial(alloc, s, c, m, d)
        }
    }
}

/// The whole source, upon its root.
fn whole<T: TreeView>(
    alloc: Global,
    s: &T,
    root: NodeId,
    clear: Option<NodeId>,
) -> Result<Plan, NoMemory>
    requires { root_of (T.tree s.now).trees ≡ Some root }
    ensures { IfOk result (λ p. IsPlan p (whole_update clear (T.tree s.now).trees)) }
{
    let _ = s.root();
    let ids = pre(alloc, s, root)?;
    Ok(Plan {
        clear,
        root: Some(root),
        ids,
    })
}

/// What is reached from the last id of `d`'s chain that the client has, where that is plain, and else the whole tree of the
/// lowest closed id.
fn partial<T: TreeView>(
    alloc: Global,
    s: &T,
    c: &ClientTree,
    m: &Marks,
    d: NodeId,
) -> Result<Plan, NoMemory>
    requires there { IsTrue (has (T.tree s.now).trees d) }
    requires same_root { root_of c.now.tree ≡ root_of (T.tree s.now).trees }
    ensures { IfOk result (λ p. (r : ℕ) → root_of (T.tree s.now).trees ≡ Some r → IsPlan p (partial_update c.now.tree (T.tree s.now).trees m.now r (last_held c.now.tree (T.tree s.now).trees r d))) }
{
    let _ = s.root();
    let _ = c.root();
    let (held, common) = start(alloc, s, c, d)?;
    if common == held {
        let (ids, fits) = reach(alloc, s, c, m, held)?;
        if fits {
            return Ok(Plan {
                clear: None,
                root: None,
                ids,
            });
        }
    }
    let lowest = lowest_closed(s, c, common);
    let ids = pre(alloc, s, lowest)?;
    Ok(Plan {
        clear: Some(lowest),
        root: None,
        ids,
    })
}
