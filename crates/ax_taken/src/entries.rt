//! The items of the entries of a journal.
ghost use Rattle.std.specs.Prelude.{◌≡◌, ◌≤◌, ◌++◌, length, take, drop, flat_map, OnOk};
ghost use Rattle.ax_run_rules.specs.Taken.{journal_items};

use ax_ask::{Item, Items};
use ax_base::{NoMemory, TreeId};
use ax_tree::JEntry;

/// Adds the items of an entry of the tree's journal.
fn put_entry(order: &mut Items, tree: TreeId, entry: &JEntry) -> Result<(), NoMemory>
    ensures { OnOk result (order.new ≡ order.old ++ journal_items tree entry.now) }
{
    match entry {
        JEntry::Edited(_) | JEntry::Marked(_) | JEntry::MarkedBelow(_) | JEntry::Passed => {
            order.push(Item::Frame(tree))
        }
        JEntry::Short => Ok(()),
        JEntry::Delivered(token) => order.push(Item::Deliver(tree, *token)),
    }
}

/// Adds the items of the entries from `from` to before `to`.
pub(crate) fn put_entries(
    order: &mut Items,
    tree: TreeId,
    journal: &[JEntry],
    from: usize,
    to: usize,
) -> Result<(), NoMemory>
    requires rises { from ≤ to }
    requires within { to ≤ length journal.now }
    ensures { OnOk result (order.new ≡ order.old ++ flat_map (journal_items tree) (drop from (take to journal.now))) }
{
    for at in from..to {
        put_entry(order, tree, &journal[at])?;
    }
    Ok(())
}
