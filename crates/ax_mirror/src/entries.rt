//! What stands at an id, and the writes that count their steps.

ghost use Rattle.std.specs.Prelude.{ℕ, ◌≡◌, ◌≤◌, ◌+◌, ◌==◌, ◌||◌, true, length, OnOk, if◌then◌else◌};
ghost use Rattle.std.specs.FinMap as map;
ghost use Rattle.ax_trees.specs.Lists.{contains};
ghost use Rattle.ax_tree.specs.Touching.{with_id};

use ax_base::{NoMemory, NodeId};
use ax_node::NodeData;
use ax_pages::{Paged, Steps};
use ax_tree::Touched;
use std::sync::ledger::Ledger;

/// What stands at an id. A pending node was named, and its data haven't come.
#[derive(Drop)]
pub struct Entry {
    pub above: Option<NodeId>,
    /// How many nodes its chain has.
    pub level: usize,
    pub pending: bool,
    pub node: NodeData,
}

/// Entries by id.
pub type Entries = Paged<Entry>;

/// Puts an entry at its id. It takes a step only where the id wasn't touched before.
pub fn put<L: Ledger>(
    nodes: &mut Entries,
    id: NodeId,
    entry: Entry,
    touched: &mut Touched,
    steps: &mut Steps<L>,
) -> Result<(), NoMemory>
    ensures ok { OnOk result (nodes.new ≡ map.insert nodes.old id entry) }
    ensures touched { OnOk result (touched.new ≡ with_id touched.old id) }
    ensures at_most { (z : ℕ) → contains touched.new z ≡ true → (contains touched.old z || id == z) ≡ true }
    ensures cost { steps.new + length touched.old ≤ steps.old + length touched.new }
{
    let new = touched.add(id)?;
    write_page(nodes, id, entry, new, steps)?;
    Ok(())
}

/// Takes out the entry of an id. It takes a step only where the id wasn't touched before.
pub fn take<L: Ledger>(
    nodes: &mut Entries,
    id: NodeId,
    touched: &mut Touched,
    steps: &mut Steps<L>,
) -> Result<(), NoMemory>
    ensures ok { OnOk result (nodes.new ≡ map.remove nodes.old id) }
    ensures touched { OnOk result (touched.new ≡ with_id touched.old id) }
    ensures at_most { (z : ℕ) → contains touched.new z ≡ true → (contains touched.old z || id == z) ≡ true }
    ensures cost { steps.new + length touched.old ≤ steps.old + length touched.new }
{
    let new = touched.add(id)?;
    erase_page(nodes, id, new, steps)?;
    Ok(())
}

// One step where the id is new among the touched ones. The page of any other id is this draft's own, or went with its last
// entry, so nothing is copied.
fn write_page<L: Ledger>(
    nodes: &mut Entries,
    id: NodeId,
    entry: Entry,
    new: bool,
    steps: &mut Steps<L>,
) -> Result<(), NoMemory>
    ensures ok { OnOk result (nodes.new ≡ map.insert nodes.old id entry) }
    ensures cost { steps.new ≤ steps.old + (if new then 1 else 0) }
{
    if new {
        return nodes.write(id, entry, steps);
    }
    nodes.write_own(id, entry)
}

fn erase_page<L: Ledger>(
    nodes: &mut Entries,
    id: NodeId,
    new: bool,
    steps: &mut Steps<L>,
) -> Result<(), NoMemory>
    ensures ok { OnOk result (nodes.new ≡ map.remove nodes.old id) }
    ensures cost { steps.new ≤ steps.old + (if new then 1 else 0) }
{
    if new {
        return nodes.erase(id, steps);
    }
    nodes.erase_own(id)
}
