//! The live trees, and where each of them hangs.
ghost use Rattle.std.specs.Prelude.{◌≡◌, ◌≤◌, ℕ, true, false, length, IfOk, OnOk, OnErr, Some, None, is_some, nat_eq, if◌then◌else◌};
ghost use Rattle.std.specs.Option.{option_copied};
ghost use Rattle.std.specs.FinMap as fin;
ghost use Rattle.ax_managers.specs.Hanging.{told_host, told_host_in, host_place, told_hosted};
ghost use Rattle.ax_tree.specs.Tree.{Tree};
ghost use Rattle.ax_tree.specs.Forest.{Forest, live_tree, is_place, host_of, hosted_by};
ghost use Rattle.ax_order.specs.Touched.{NamesChanges};
ghost use Rattle.ax_managers.specs.Telling.{AreOf, Retells, retold, dropped, empty_forest};
ghost use Rattle.ax_managers.specs.Managed.{LastTold, IsToldOf, Tells};
ghost use Rattle.ax_managers.specs.Shown.{AllAgree, told_at};

use crate::gone::Gone;
use crate::summary::Summary;
use ax_base::{NoMemory, NodeId, Place, TreeId};
use ax_by_id::ByTree;
use ax_tree::TreeView;
use std::alloc::Global;
use std::marker::Model;

/// The live trees, and what the hanging rule asks of each as it was last told.
#[derive(Drop)]
pub struct Managers {
    first: TreeId,
    trees: ByTree<Summary>,
    gone: Gone,
    alloc: Global,
}

impl Model for Managers {
    ghost use Rattle.ax_managers.specs.Managed.{Managed, coded_managed};
    ghost use Rattle.ax_managers.specs.Shown.{shown, AllAgree};

    ghost Value = { Managed };

    ghost coded = { coded_managed };

    ghost view = { λ m. shown m.first m.trees m.gone };

    ghost invariant = { λ m. AllAgree m.trees };
}

impl Managers {
    /// All trees are live and empty. The first one is the first tree.
    pub fn new(alloc: Global, trees: &[TreeId]) -> Result<Managers, NoMemory>
        requires { 1 ≤ length trees.now }
        ensures { IfOk result (λ m. Tells m (empty_forest trees.now)) }
    {
        let first = trees[0];
        let trees = empty_summaries(alloc, trees)?;
        Ok(Managers {
            first,
            trees,
            gone: Gone::none(),
            alloc,
        })
    }

    /// The same managers, in constant time. What is told to one of the two changes nothing of the other.
    pub fn share(&self) -> Result<Managers, NoMemory>
        ensures { IfOk result (λ m. m ≡ self.now) }
    {
        let trees = self.trees.share()?;
        Ok(Managers {
            first: self.first,
            trees,
            gone: self.gone,
            alloc: self.alloc,
        })
    }

    /// Whether the tree is live.
    pub fn live(&self, t: TreeId) -> bool
        ensures { (f : Forest) → Tells self.now f → result ≡ is_some (live_tree f t) }
    {
        is_live(&self.trees, &self.gone, t)
    }

    /// The node at which the tree hangs, by the hanging rule over the trees last told.
    pub fn host_of(&self, t: TreeId) -> Option<Place>
        ensures { (f : Forest) → Tells self.now f → result ≡ host_of f t }
    {
        host_of(&self.trees, &self.gone, self.first, t)
    }

    /// The tree that hangs at the node, by the hanging rule over the trees last told.
    pub fn hosted_by(&self, p: Place) -> Option<TreeId>
        ensures { (f : Forest) → Tells self.now f → result ≡ hosted_by f p }
    {
        hosted_by(&self.trees, &self.gone, self.first, &p)
    }

    /// Tells that the live tree `t` is now `tree`, which differs from what was last told at touched ids alone. After want of
    /// memory nothing has changed.
    pub fn retouch<T: TreeView>(
        &mut self,
        t: TreeId,
        tree: &T,
        touched: &[NodeId],
    ) -> Result<(), NoMemory>
        ensures ok { OnOk result ((f : Forest) (m : Tree) → Tells self.old f → live_tree f t ≡ Some m → NamesChanges m (T.tree tree.now) touched.now → Tells self.new (retold t (T.tree tree.now) f)) }
        ensures err { OnErr result (self.new ≡ self.old) }
    {
        retouch(self.alloc, &mut self.trees, t, tree, touched)
    }

    /// The tree is gone.
    pub fn drop_tree(&mut self, t: TreeId)
        ensures { (f : Forest) → Tells self.old f → Tells self.new (dropped t f) }
    {
        self.gone.add(t);
        free(&mut self.trees, t);
    }
}

fn empty_summaries(alloc: Global, trees: &[TreeId]) -> Result<ByTree<Summary>, NoMemory>
    ensures are { IfOk result (λ m. AreOf (fin.get m) (empty_forest trees.now)) }
    ensures agree { IfOk result AllAgree }
{
    let mut summaries = ByTree::new(alloc);
    for tree in trees {
        summaries.put(*tree, Summary::empty(alloc))?;
    }
    Ok(summaries)
}

/// Frees the summary of a tree that is gone. Where memory is wanted for that, it stays, and nothing asks for it.
fn free(trees: &mut ByTree<Summary>, t: TreeId)
    ensures others { (u : ℕ) → nat_eq t u ≡ false → fin.get trees.new u ≡ fin.get trees.old u }
    ensures agree { AllAgree trees.old → AllAgree trees.new }
{
    let _ = trees.take(t);
}

/// Tells that a tree is now this one. A tree of which nothing was told, or which is gone, isn't told.
fn retouch<T: TreeView>(
    alloc: Global,
    trees: &mut ByTree<Summary>,
    t: TreeId,
    tree: &T,
    touched: &[NodeId],
) -> Result<(), NoMemory>
    ensures ok { OnOk result ((s : LastTold) (n : Tree) → fin.get trees.old t ≡ Some s → IsToldOf n s → NamesChanges n (T.tree tree.now) touched.now → Retells (fin.get trees.old) (fin.get trees.new) t (T.tree tree.now)) }
    ensures agree { AllAgree trees.old → AllAgree trees.new }
    ensures err { OnErr result (trees.new ≡ trees.old) }
{
    let Some(summary) = trees.get(t) else {
        return Ok(());
    };
    match summary.retold(alloc, tree, touched)? {
        Some(summary) => trees.put(t, summary),
        None => Ok(()),
    }
}

fn is_live(trees: &ByTree<Summary>, gone: &Gone, t: TreeId) -> bool
    ensures { result ≡ is_some (told_at trees.now gone.now t) }
{
    match told(trees, gone, t) {
        Some(_) => true,
        None => false,
    }
}

/// What was told of a live tree.
fn told<'a>(trees: &'a ByTree<Summary>, gone: &Gone, t: TreeId) -> Option<&'a Summary>
    ensures { option_copied result ≡ told_at trees.now gone.now t }
{
    if gone.has(t) {
        return None;
    }
    trees.get(t)
}

/// The node at which a tree hangs, as the summaries have it.
fn host_of(trees: &ByTree<Summary>, gone: &Gone, first: TreeId, t: TreeId) -> Option<Place>
    ensures { result ≡ told_host (told_at trees.now gone.now) first t }
{
    let Some(summary) = told(trees, gone, t) else {
        return None;
    };
    if !summary.rooted() {
        return None;
    }
    if first == t {
        return None;
    }
    match summary.parent() {
        Some(parent) => host_in(trees, gone, parent, t),
        None => None,
    }
}

fn host_in(trees: &ByTree<Summary>, gone: &Gone, tree: TreeId, t: TreeId) -> Option<Place>
    ensures { result ≡ told_host_in (told_at trees.now gone.now tree) tree t }
{
    match told(trees, gone, tree) {
        Some(summary) => place_in(tree, summary.host(t)),
        None => None,
    }
}

fn place_in(tree: TreeId, node: Option<NodeId>) -> Option<Place>
    ensures { result ≡ host_place tree node }
{
    match node {
        Some(node) => Some(Place { tree, node }),
        None => None,
    }
}

/// The tree that hangs at a node, as the summaries have it.
fn hosted_by(trees: &ByTree<Summary>, gone: &Gone, first: TreeId, p: &Place) -> Option<TreeId>
    ensures { result ≡ told_hosted (told_at trees.now gone.now) first p.now }
{
    let Some(summary) = told(trees, gone, p.tree) else {
        return None;
    };
    let Some(t) = summary.named(p.node) else {
        return None;
    };
    if is_place(p, host_of(trees, gone, first, t)) {
        return Some(t);
    }
    None
}

fn is_place(p: &Place, other: Option<Place>) -> bool
    ensures { result ≡ is_place p.now other }
{
    match other {
        Some(q) => p.tree == q.tree && p.node == q.node,
        None => false,
    }
}
