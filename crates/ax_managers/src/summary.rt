//! What the hanging rule asks of a tree.
ghost use Rattle.std.specs.Prelude.{◌≡◌, ◌↔◌, ℕ, true, IfOk, IsTrue, not, nat_eq};
ghost use Rattle.std.specs.Option.{unwrap_or};
ghost use Rattle.std.specs.HashMap.{get};
ghost use Rattle.std.specs.FinMap as fin;
ghost use Rattle.ax_trees.specs.Trees.{is_bare};
ghost use Rattle.ax_tree.specs.Tree.{Tree, empty};
ghost use Rattle.ax_order.specs.Marks.{is_marked};
ghost use Rattle.ax_order.specs.Touched.{NamesChanges};
ghost use Rattle.ax_managers.specs.Managed.{IsToldOf};
ghost use Rattle.ax_managers.specs.Shown.{Agrees};
ghost use Rattle.ax_managers.specs.Watching.{IsCalm};

use crate::contest::renamed_among;
use crate::index::{Index, reindexed, rests};
use ax_base::{NoMemory, NodeId, TreeId};
use ax_order::Marks;
use ax_tree::TreeView;
use std::alloc::Global;
use std::marker::Model;

/// What the hanging rule asks of a tree.
#[derive(Drop)]
pub struct Summary {
    rooted: bool,
    parent: Option<TreeId>,
    index: Index,
}

impl Model for Summary {
    ghost use Rattle.ax_managers.specs.Managed.{LastTold, coded_told};
    ghost use Rattle.ax_managers.specs.Indexes.{IsSoundIndex};
    ghost use Rattle.ax_managers.specs.Shown.{told_by};

    ghost Value = { LastTold };

    ghost coded = { coded_told };

    ghost view = { λ s. told_by s.rooted s.parent s.index };

    ghost invariant = { λ s. IsSoundIndex s.index };
}

impl Summary {
    /// The summary of a tree without nodes.
    pub fn empty(alloc: Global) -> Summary
        ensures of { (t : ℕ) → IsToldOf (empty t) result }
        ensures agrees { Agrees result }
    {
        Summary {
            rooted: false,
            parent: None,
            index: Index::new(alloc),
        }
    }

    /// Whether the tree has a root.
    pub fn rooted(&self) -> bool
        ensures { result ≡ self.now.rooted }
    {
        self.rooted
    }

    /// The parent in its tree data.
    pub fn parent(&self) -> Option<TreeId>
        ensures { result ≡ self.now.parent }
    {
        self.parent
    }

    /// The first of its nodes in pre-order that names the tree.
    pub fn host(&self, t: TreeId) -> Option<NodeId>
        ensures { result ≡ fin.get self.now.hosts t }
    {
        match self.index.hosts.get(t) {
            Some(node) => Some(*node),
            None => None,
        }
    }

    /// The tree that the node names.
    pub fn named(&self, node: NodeId) -> Option<TreeId>
        ensures { result ≡ fin.get self.now.named node }
    {
        match self.index.named.get(node) {
            Some(tree) => Some(*tree),
            None => None,
        }
    }

    /// The summary of this tree, which differs at touched ids alone from the one that it is of. None where it is that too.
    pub fn retold<T: TreeView>(
        &self,
        alloc: Global,
        t: &T,
        touched: &[NodeId],
    ) -> Result<Option<Summary>, NoMemory>
        ensures of { IfOk result (λ s. (n : Tree) → IsToldOf n self.now → NamesChanges n (T.tree t.now) touched.now → IsToldOf (T.tree t.now) (unwrap_or s self.now)) }
        ensures agrees { IfOk result (λ s. Agrees (unwrap_or s self.now)) }
    {
        let _ = t.root();
        let renamed = renamed_among(alloc, &self.index.named, t, touched)?;
        if renamed.is_empty() && stays(self.rooted, self.parent, &self.index.watched, t, touched) {
            return Ok(None);
        }
        let rooted = has_root(t);
        let parent = t.tree_data().parent;
        let index = reindexed(alloc, &self.index, t, renamed.as_slice())?;
        Ok(Some(Summary {
            rooted,
            parent,
            index,
        }))
    }
}

/// Whether a tree has the root and the parent that were told, and no watched id is touched.
fn stays<T: TreeView>(
    rooted: bool,
    parent: Option<TreeId>,
    watched: &Marks,
    t: &T,
    touched: &[NodeId],
) -> bool
    ensures rooted { result ≡ true → rooted ≡ not (is_bare (T.tree t.now).trees) }
    ensures parent { result ≡ true → parent ≡ (T.tree t.now).about.parent }
    ensures calm { result ≡ true → IsCalm (T.tree t.now) (is_marked (get nat_eq watched.now)) touched.now }
{
    if !same_flag(rooted, has_root(t)) {
        return false;
    }
    if !same_parent(parent, t.tree_data().parent) {
        return false;
    }
    rests(watched, t, touched)
}

fn same_flag(a: bool, b: bool) -> bool
    ensures { IsTrue result ↔ (a ≡ b) }
{
    a == b
}

fn same_parent(a: Option<TreeId>, b: Option<TreeId>) -> bool
    ensures { IsTrue result ↔ (a ≡ b) }
{
    a == b
}

fn has_root<T: TreeView>(t: &T) -> bool
    ensures { result ≡ not (is_bare (T.tree t.now).trees) }
{
    match t.root() {
        Some(_) => true,
        None => false,
    }
}
