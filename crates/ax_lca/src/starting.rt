//! Where two chains part, and where reach starts.
ghost use Rattle.std.specs.Prelude.{◌≡◌, ℕ, None, Some, IfOk, IsTrue, true};
ghost use Rattle.ax_trees.specs.Lists.{common_prefix, last_that};
ghost use Rattle.ax_trees.specs.Trees.{has, root_of};
ghost use Rattle.ax_trees.specs.Nodes.{chain};
ghost use Rattle.ax_tree.specs.SerialRule.{last_common, last_held};
ghost use Rattle.ax_lca.specs.Chains.{last_or};

use crate::closing::is_one;
use ax_base::{Ids, NoMemory, NodeId};
use ax_client::ClientTree;
use ax_tree::TreeView;
use ax_views::chain;
use std::alloc::Global;

/// The last id of what two lists begin with; `None` exactly where they begin with nothing in common.
pub fn last_common(a: &Ids, b: &Ids) -> Option<NodeId>
    ensures { result ≡ last_or None (common_prefix a.now b.now) }
{
    common(a.as_slice(), b.as_slice())
}

fn common(a: &[NodeId], b: &[NodeId]) -> Option<NodeId>
    ensures { result ≡ last_or None (common_prefix a.now b.now) }
{
    let mut last = None;
    let mut i = 0;
    while i < a.len() {
        if i >= b.len() {
            return last;
        }
        if a[i] != b[i] {
            return last;
        }
        last = Some(a[i]);
        i += 1;
    }
    last
}

/// The last id of `d`'s chain that the client has, or `first`. Costs the way up to it.
fn last_held<T: TreeView>(s: &T, c: &ClientTree, d: NodeId, first: NodeId) -> NodeId
    ensures { result ≡ last_that (has c.now.tree) (chain (T.tree s.now).trees d) first }
{
    let _ = s.root();
    match s.node(d) {
        Some(_) => {}
        None => return first,
    }
    let mut at = d;
    while !c.holds(at) {
        at = match s.parent(at) {
            Some(above) => above,
            None => return first,
        };
    }
    at
}

/// Where true, an id that both have has the same chain in both. Costs the depth, and takes no memory.
fn same_chain<T: TreeView>(s: &T, c: &ClientTree, id: NodeId) -> bool
    ensures there { IsTrue result → has (T.tree s.now).trees id ≡ true }
    ensures same { IsTrue result → chain (T.tree s.now).trees id ≡ chain c.now.tree id }
{
    let _ = s.root();
    let _ = c.root();
    match s.node(id) {
        Some(_) => {}
        None => return false,
    }
    if !c.holds(id) {
        return false;
    }
    let mut at = id;
    while let Some(above) = s.parent(at) {
        if !is_one(&c.parent(at), above) {
            return false;
        }
        at = above;
    }
    c.parent(at).is_none()
}

/// The ids from the client's root to an id; none where it isn't held.
fn chain_held(alloc: Global, c: &ClientTree, id: NodeId) -> Result<Ids, NoMemory>
    ensures { IfOk result (λ ids. ids ≡ chain c.now.tree id) }
{
    match c.chain(id)? {
        Some(ids) => Ok(ids),
        None => Ok(Ids::new(alloc)),
    }
}

/// The last id that the chains of an id in the source and in the client begin with in common, or `first`.
fn last_shared<T: TreeView>(
    alloc: Global,
    s: &T,
    c: &ClientTree,
    id: NodeId,
    first: NodeId,
) -> Result<NodeId, NoMemory>
    ensures { IfOk result (λ last. last ≡ last_common c.now.tree (T.tree s.now).trees first id) }
{
    let _ = s.root();
    if same_chain(s, c, id) {
        return Ok(id);
    }
    let own = chain(alloc, s, id)?;
    let there = chain_held(alloc, c, id)?;
    Ok(last_common(&own, &there).unwrap_or(first))
}

/// Where a partial update at `d` begins: the last id `a` of `d`'s chain that the client has, and the last id that `a`'s
/// chains in the source and in the client begin with in common. Both are the root where there is no such id. Costs the
/// depth; memory is taken only where the chains differ.
pub fn start<T: TreeView>(
    alloc: Global,
    s: &T,
    c: &ClientTree,
    d: NodeId,
) -> Result<(NodeId, NodeId), NoMemory>
    ensures held { IfOk result (λ p. (r : ℕ) → root_of (T.tree s.now).trees ≡ Some r → p.0 ≡ last_held c.now.tree (T.tree s.now).trees r d) }
    ensures common { IfOk result (λ p. (r : ℕ) → root_of (T.tree s.now).trees ≡ Some r → p.1 ≡ last_common c.now.tree (T.tree s.now).trees r p.0) }
{
    let root = s.root().unwrap_or(d);
    let held = last_held(s, c, d, root);
    let common = last_shared(alloc, s, c, held, root)?;
    Ok((held, common))
}
