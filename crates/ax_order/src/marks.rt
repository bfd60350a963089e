//! Marks on ids of a tree and on all ids above them, with the branches that were climbed.
ghost use Rattle.std.specs.Prelude.{◌≡◌, ℕ, OnOk, nat_eq, true, Some, if◌then◌else◌};
ghost use Rattle.std.specs.HashMap.{get};
ghost use Rattle.ax_trees.specs.Trees.{has};
ghost use Rattle.ax_order.specs.Marks.{IsMarking, is_marked, with_branch};

use ax_base::{NoMemory, NodeId};
use ax_tree::TreeView;
use std::collections::HashMap;

/// Which branches of a marked id are marked.
#[derive(Clone, Copy)]
pub enum Branches {
    Nothing,
    One(NodeId),
    Several,
}

/// Marked ids, each with its branches. With an id each id above it is marked.
pub type Marks = HashMap<NodeId, Branches>;

impl Branches {
    /// These branches and one more.
    fn with(self, branch: NodeId) -> Branches
        ensures { result ≡ with_branch self branch }
    {
        match self {
            Branches::Nothing => Branches::One(branch),
            _ => Branches::Several,
        }
    }
}

/// The branches of an id, where it is marked.
pub fn branches_at(marks: &Marks, id: NodeId) -> Option<Branches>
    ensures { result ≡ get nat_eq marks.now id }
{
    match marks.get(&id) {
        Some(branches) => Some(*branches),
        None => None,
    }
}

/// Marks an id that stands in the tree, and all above it. Costs its depth at most.
pub fn mark<T: TreeView>(t: &T, marks: &mut Marks, id: NodeId) -> Result<(), NoMemory>
    requires { IsMarking (T.tree t.now).trees (get nat_eq marks.old) }
    ensures marking { OnOk result (IsMarking (T.tree t.now).trees (get nat_eq marks.new)) }
    ensures grows { OnOk result ((z : ℕ) → is_marked (get nat_eq marks.old) z ≡ true → is_marked (get nat_eq marks.new) z ≡ true) }
    ensures marked { OnOk result (has (T.tree t.now).trees id ≡ true → is_marked (get nat_eq marks.new) id ≡ true) }
{
    let _ = t.root();
    match t.node(id) {
        Some(_) => {}
        None => return Ok(()),
    }
    match branches_at(marks, id) {
        Some(_) => return Ok(()),
        None => {}
    }
    put(marks, id, Branches::Nothing)?;
    let mut at = id;
    while let Some(above) = t.parent(at) {
        match branches_at(marks, above) {
            Some(known) => {
                put(marks, above, known.with(at))?;
                return Ok(());
            }
            None => put(marks, above, Branches::One(at))?,
        }
        at = above;
    }
    Ok(())
}

fn put(marks: &mut Marks, id: NodeId, branches: Branches) -> Result<(), NoMemory>
    ensures { OnOk result ((z : ℕ) → get nat_eq marks.new z ≡ (if nat_eq id z then Some branches else get nat_eq marks.old z)) }
{
    match marks.insert(id, branches) {
        Ok(_) => Ok(()),
        Err(_) => Err(NoMemory),
    }
}
