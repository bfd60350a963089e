//! What the root and the clear id of an update take out.

ghost use Rattle.std.specs.Prelude.{◌≡◌, ◌≤◌, ◌+◌, length, OnOk, OnErr, Some, None};
ghost use Rattle.ax_trees.specs.Trees.{bare, tree};
ghost use Rattle.ax_tree.specs.UpdateRule.{cleared, started};
ghost use Rattle.ax_mirror.specs.Steps.{Makes, Tracked};
ghost use Rattle.ax_mirror.specs.Begins.{Turns, TrackedTrees, TouchesAll, root_is, anew_of};
ghost use Rattle.ax_mirror.specs.Accounts.{Accounts, Reaches, no_id, is_id, start_names};

use crate::draft::Draft;
use crate::entries::Entries;
use crate::placing::put_pending;
use crate::removing::take_out;
use ax_base::{Ids, NoMemory, NodeId};
use ax_pages::Steps;
use std::sync::ledger::Ledger;

/// Takes out what stands below an id, and makes the id pending.
pub fn clear_below<L: Ledger>(
    draft: &mut Draft,
    id: NodeId,
    steps: &mut Steps<L>,
) -> Result<(), NoMemory>
    ensures ok { OnOk result (Turns (λ w. cleared (Some id) w) draft.old draft.new) }
    ensures made { OnOk result (Makes draft.old draft.new) }
    ensures tracked { OnOk result (Tracked draft.old draft.new) }
    ensures cost { OnOk result (steps.new + length draft.old.touched ≤ steps.old + length draft.new.touched) }
    ensures accounts { OnOk result (Accounts (is_id id) no_id draft.old draft.new) }
    ensures reach { OnErr result (Reaches (is_id id) draft.old draft.new steps.old steps.new) }
{
    let Some(entry) = draft.nodes.read(id) else {
        return Ok(());
    };
    let above = entry.above;
    let level = entry.level;
    let mut gone = Ids::new(draft.nodes.allocator());
    gone.push_reversed(&entry.node.children)?;
    take_out(draft, &mut gone, steps)?;
    put_pending(draft, id, above, level, steps)?;
    Ok(())
}

/// Adds all ids of the tree to the touched ones.
pub fn touch_all(draft: &mut Draft) -> Result<(), NoMemory>
    ensures all { OnOk result (TouchesAll draft.old draft.new) }
    ensures reach { OnErr result (Reaches no_id draft.old draft.new 0 0) }
{
    let Some(root) = draft.root else {
        return Ok(());
    };
    let mut stack = Ids::new(draft.nodes.allocator());
    stack.push(root)?;
    // Each id on the stack has an entry, and the walk ends long before the last round.
    for _round in 0..usize::MAX {
        let Some(id) = stack.pop() else {
            return Ok(());
        };
        let Some(entry) = draft.nodes.read(id) else {
            return Err(NoMemory);
        };
        draft.touched.add(id)?;
        stack.push_reversed(&entry.node.children)?;
    }
    Err(NoMemory)
}

/// Begins anew with a pending root.
pub fn root_anew<L: Ledger>(
    draft: &mut Draft,
    root: NodeId,
    steps: &mut Steps<L>,
) -> Result<(), NoMemory>
    ensures ok { OnOk result (Turns (λ w. tree root None bare bare) draft.old draft.new) }
    ensures made { OnOk result (Makes draft.old draft.new) }
    ensures tracked { OnOk result (TrackedTrees draft.old draft.new) }
    ensures cost { OnOk result (steps.new + length draft.old.touched ≤ steps.old + length draft.new.touched) }
    ensures accounts { OnOk result (Accounts (is_id root) no_id draft.old draft.new) }
    ensures reach { OnErr result (Reaches (is_id root) draft.old draft.new steps.old steps.new) }
{
    touch_all(draft)?;
    draft.nodes = Entries::new(draft.nodes.allocator());
    draft.root = Some(root);
    put_pending(draft, root, None, 1, steps)?;
    Ok(())
}

/// Takes out what an update's root and clear id tell to go.
pub fn start<L: Ledger>(
    draft: &mut Draft,
    root: Option<NodeId>,
    clear: Option<NodeId>,
    steps: &mut Steps<L>,
) -> Result<(), NoMemory>
    ensures ok { OnOk result (Turns (λ w. started root clear w) draft.old draft.new) }
    ensures made { OnOk result (Makes draft.old draft.new) }
    ensures tracked { OnOk result (TrackedTrees draft.old draft.new) }
    ensures cost { OnOk result (steps.new + length draft.old.touched ≤ steps.old + length draft.new.touched) }
    ensures accounts { OnOk result (Accounts (start_names root clear) no_id draft.old draft.new) }
    ensures reach { OnErr result (Reaches (start_names root clear) draft.old draft.new steps.old steps.new) }
{
    match anew(draft.root, root) {
        Some(root) => {
            root_anew(draft, root, steps)?;
            return Ok(());
        }
        None => {}
    }
    match clear {
        Some(id) => {
            clear_below(draft, id, steps)?;
            Ok(())
        }
        None => Ok(()),
    }
}

/// The root that an update names, where it isn't the root.
fn anew(root: Option<NodeId>, named: Option<NodeId>) -> Option<NodeId>
    ensures { result ≡ anew_of root named }
{
    match named {
        Some(id) => { if is_root(root, id) { None } else { Some(id) } }
        None => None,
    }
}

fn is_root(root: Option<NodeId>, id: NodeId) -> bool
    ensures { result ≡ root_is root id }
{
    match root {
        Some(root) => root == id,
        None => false,
    }
}
