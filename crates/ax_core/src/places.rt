//! Where the frames of trees stand.
ghost use Rattle.std.specs.Prelude.{◌≡◌, ◌<◌, ℕ, length, OnOk, IfOk};
ghost use Rattle.ax_trees.specs.Lists.{NoneTwice};
ghost use Rattle.ax_forest.specs.ById.{at_id};
ghost use Rattle.ax_core.specs.Places.{place_of, AreAt};

use ax_base::{NoMemory, Seq, TreeId};
use std::alloc::Global;
use std::marker::Model;

/// At the place of each tree's number, where the tree stands in the list.
type Table = Seq<Option<usize>>;

/// The trees of a run in their order. The place of one is found in constant time.
#[derive(Drop)]
pub(crate) struct Places {
    trees: Seq<TreeId>,
    table: Table,
}

impl Model for Places {
    ghost use Rattle.std.specs.Prelude.{ℕ, List};
    ghost use Rattle.std.specs.Coded.{coded_list, coded_ℕ};
    ghost use Rattle.ax_core.specs.Places.{AreAt};

    ghost Value = { List ℕ };

    ghost coded = { coded_list coded_ℕ };

    ghost view = { λ p. p.trees };

    ghost invariant = { λ p. AreAt p.trees p.table };
}

impl Places {
    pub fn new(alloc: Global, trees: Seq<TreeId>) -> Result<Places, NoMemory>
        requires { NoneTwice trees }
        ensures { IfOk result (λ places. places ≡ trees) }
    {
        let table = table_of(alloc, trees.as_slice())?;
        Ok(Places { trees, table })
    }

    /// The trees in their order.
    pub fn trees(&self) -> &[TreeId]
        ensures { result.now ≡ self.now }
    {
        self.trees.as_slice()
    }

    /// The place of a tree, from 0.
    pub fn find(&self, t: TreeId) -> Option<usize>
        ensures { result ≡ place_of self.now t }
    {
        match self.table.get(t.get() as usize) {
            Some(place) => *place,
            None => None,
        }
    }
}

/// Makes places up to that of the tree.
fn make_room(table: &mut Table, t: TreeId) -> Result<(), NoMemory>
    ensures room { OnOk result (t < length table.new) }
    ensures same { (u : ℕ) → at_id table.new u ≡ at_id table.old u }
{
    let end = t.get() as usize + 1;
    for _at in table.len()..end {
        table.push(None)?;
    }
    Ok(())
}

fn table_of(alloc: Global, trees: &[TreeId]) -> Result<Table, NoMemory>
    requires { NoneTwice trees.now }
    ensures { IfOk result (λ table. AreAt trees.now table) }
{
    let mut table = Table::new(alloc);
    let mut place = 0;
    for tree in trees {
        make_room(&mut table, *tree)?;
        table.set(tree.get() as usize, Some(place));
        place += 1;
    }
    Ok(table)
}
