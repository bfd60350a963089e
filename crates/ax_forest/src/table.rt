//! The trees of a forest with their mirrors.
ghost use Rattle.std.specs.Prelude.{◌≡◌, ◌≤◌, length, true, Some, IfOk, IfSome, OnOk, OnErr};
ghost use Rattle.std.specs.Option.{option_copied};
ghost use Rattle.std.specs.FinMap as fin;
ghost use Rattle.std.specs.Arc.{arc_value};
ghost use Rattle.ax_trees.specs.Trees.{height};
ghost use Rattle.ax_trees.specs.Lists.{contains, NoneTwice};
ghost use Rattle.ax_tree.specs.Tree.{empty};
ghost use Rattle.ax_tree.specs.Forest.{IsSound, IsSoundTree, first_tree, live_tree};
ghost use Rattle.ax_managers.specs.Telling.{empty_forest, retold, dropped};
ghost use Rattle.ax_forest.specs.Shown.{ids_of, AreEmpty};

use ax_base::{NoMemory, Seq, TreeId};
use ax_by_id::ByTree;
use ax_mirror::Mirror;
use std::alloc::Global;
use std::marker::Model;
use std::sync::Arc;

/// The trees in their order, with the mirrors of those that are live. Shares have the ids and the pages of mirrors in common.
#[derive(Drop)]
pub struct Table {
    ids: Arc<Seq<TreeId>>,
    mirrors: ByTree<Mirror>,
}

impl Model for Table {
    ghost use Rattle.std.specs.Arc.{arc_value};
    ghost use Rattle.ax_tree.specs.Forest.{Forest};
    ghost use Rattle.ax_forest.specs.Shown.{shown, coded_forest, IsTable};

    ghost Value = { Forest };

    ghost coded = { coded_forest };

    ghost view = { λ t. shown (arc_value t.ids) t.mirrors };

    ghost invariant = { λ t. IsTable (arc_value t.ids) t.mirrors };
}

impl Table {
    /// All trees are live and empty.
    pub fn new(alloc: Global, trees: &[TreeId]) -> Result<Table, NoMemory>
        requires some { 1 ≤ length trees.now }
        requires once { NoneTwice trees.now }
        ensures { IfOk result (λ t. t ≡ empty_forest trees.now) }
    {
        let mirrors = empty_mirrors(alloc, trees)?;
        let ids = shared_ids(alloc, trees)?;
        Ok(Table { ids, mirrors })
    }

    pub fn ids(&self) -> &[TreeId]
        ensures { result.now ≡ ids_of self.now }
    {
        self.ids.as_slice()
    }

    pub fn first(&self) -> TreeId
        ensures { first_tree self.now ≡ Some result }
    {
        self.ids[0]
    }

    /// The mirror of a live tree. Whatever tree is asked for, all trees are sound.
    pub fn tree(&self, t: TreeId) -> Option<&Mirror>
        ensures tree { option_copied result ≡ live_tree self.now t }
        ensures low { IfSome result (λ m. height m.now.trees ≤ 256) }
        ensures sound { IsSound self.now }
    {
        self.mirrors.get(t)
    }

    /// The tree has this mirror now.
    pub fn put(&mut self, t: TreeId, mirror: Mirror) -> Result<(), NoMemory>
        requires listed { contains (ids_of self.old) t ≡ true }
        requires sound { IsSoundTree t mirror }
        ensures ok { OnOk result (self.new ≡ retold t mirror self.old) }
        ensures err { OnErr result (self.new ≡ self.old) }
    {
        self.mirrors.put(t, mirror)
    }

    /// The tree is gone.
    pub fn drop_tree(&mut self, t: TreeId) -> Result<(), NoMemory>
        ensures ok { OnOk result (self.new ≡ dropped t self.old) }
        ensures err { OnErr result (self.new ≡ self.old) }
    {
        self.mirrors.take(t)
    }

    /// The same table, in constant time.
    pub fn share(&self) -> Result<Table, NoMemory>
        ensures { IfOk result (λ t. t ≡ self.now) }
    {
        let mirrors = self.mirrors.share()?;
        match Arc::try_clone(&self.ids) {
            Ok(ids) => Ok(Table { ids, mirrors }),
            Err(_) => Err(NoMemory),
        }
    }
}

fn shared_ids(alloc: Global, trees: &[TreeId]) -> Result<Arc<Seq<TreeId>>, NoMemory>
    ensures { IfOk result (λ ids. arc_value ids ≡ trees.now) }
{
    let ids = Seq::from_slice(alloc, trees)?;
    match Arc::new(alloc, ids) {
        Ok(ids) => Ok(ids),
        Err(_) => Err(NoMemory),
    }
}

fn empty_mirrors(alloc: Global, trees: &[TreeId]) -> Result<ByTree<Mirror>, NoMemory>
    ensures { IfOk result (AreEmpty trees.now) }
{
    let mut mirrors = ByTree::new(alloc);
    for tree in trees {
        mirrors.put(*tree, Mirror::new(alloc, *tree))?;
    }
    Ok(mirrors)
}
