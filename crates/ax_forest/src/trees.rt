//! The trees of a forest as a grove, which views share.
ghost use Rattle.std.specs.Prelude.{◌≡◌, ◌≤◌, length, OnOk, OnErr, IfOk};
ghost use Rattle.ax_trees.specs.Lists.{NoneTwice};
ghost use Rattle.ax_managers.specs.Managed.{Tells};
ghost use Rattle.ax_managers.specs.Telling.{empty_forest, retold, dropped};
ghost use Rattle.ax_forest.specs.Shown.{ids_of, MayFollow};

use crate::table::Table;
use ax_base::{NoMemory, NodeId, Place, TreeId};
use ax_managers::Managers;
use ax_mirror::Mirror;
use ax_tree::Grove;
use std::alloc::Global;
use std::marker::Model;

/// The trees with their mirrors, and which of them hangs where. A view is a share of both: the next change of a tree copies
/// the table of pages and the page of that tree, and leaves the view what it has.
#[derive(Drop)]
pub struct Trees {
    table: Table,
    managers: Managers,
}

impl Model for Trees {
    ghost use Rattle.ax_tree.specs.Forest.{Forest};
    ghost use Rattle.ax_managers.specs.Managed.{Tells};
    ghost use Rattle.ax_forest.specs.Shown.{coded_forest};

    ghost Value = { Forest };

    ghost coded = { coded_forest };

    ghost view = { λ t. t.table };

    ghost invariant = { λ t. Tells t.managers t.table };
}

impl Trees {
    /// All trees are live and empty.
    pub fn new(alloc: Global, trees: &[TreeId]) -> Result<Trees, NoMemory>
        requires some { 1 ≤ length trees.now }
        requires once { NoneTwice trees.now }
        ensures { IfOk result (λ t. t ≡ empty_forest trees.now) }
    {
        let table = Table::new(alloc, trees)?;
        let managers = Managers::new(alloc, trees)?;
        Ok(Trees { table, managers })
    }

    /// The same trees, in constant time.
    pub fn share(&self) -> Result<Trees, NoMemory>
        ensures { IfOk result (λ t. t ≡ self.now) }
    {
        let table = self.table.share()?;
        let managers = self.managers.share()?;
        Ok(Trees { table, managers })
    }

    pub fn ids(&self) -> &[TreeId]
        ensures { result.now ≡ ids_of self.now }
    {
        self.table.ids()
    }

    /// The live tree has this mirror now, which differs from the old one at touched ids alone.
    pub fn retell(&mut self, t: TreeId, mirror: Mirror, touched: &[NodeId]) -> Result<(), NoMemory>
        requires { MayFollow self.old t mirror touched.now }
        ensures ok { OnOk result (self.new ≡ retold t mirror self.old) }
        ensures err { OnErr result (self.new ≡ self.old) }
    {
        retell_in(&mut self.table, &mut self.managers, t, mirror, touched)
    }

    /// The tree is gone.
    pub fn drop_tree(&mut self, t: TreeId) -> Result<(), NoMemory>
        ensures ok { OnOk result (self.new ≡ dropped t self.old) }
        ensures err { OnErr result (self.new ≡ self.old) }
    {
        self.table.drop_tree(t)?;
        self.managers.drop_tree(t);
        Ok(())
    }
}

/// The managers are told on a share, so that nothing has changed where the table wants memory.
fn retell_in(
    table: &mut Table,
    managers: &mut Managers,
    t: TreeId,
    mirror: Mirror,
    touched: &[NodeId],
) -> Result<(), NoMemory>
    requires { MayFollow table.old t mirror touched.now }
    ensures table { OnOk result (table.new ≡ retold t mirror table.old) }
    ensures tells { OnOk result (Tells managers.old table.old → Tells managers.new table.new) }
    ensures table_stays { OnErr result (table.new ≡ table.old) }
    ensures managers_stay { OnErr result (managers.new ≡ managers.old) }
{
    let mut next = managers.share()?;
    next.retouch(t, &mirror, touched)?;
    table.put(t, mirror)?;
    *managers = next;
    Ok(())
}

impl Grove for Trees {
    ghost forest = { λ f. f };

    type Tree = Mirror;

    fn first(&self) -> TreeId {
        self.table.first()
    }

    fn live(&self, t: TreeId) -> bool {
        self.table.tree(t).is_some()
    }

    fn tree(&self, t: TreeId) -> Option<&Mirror> {
        self.table.tree(t)
    }

    fn host_of(&self, t: TreeId) -> Option<Place> {
        self.managers.host_of(t)
    }

    fn hosted_by(&self, p: Place) -> Option<TreeId> {
        self.managers.hosted_by(p)
    }
}
