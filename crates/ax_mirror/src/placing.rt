//! Nodes that become pending.

ghost use Rattle.std.specs.Prelude.{◌≡◌, ◌≤◌, ◌+◌, [], length, OnOk, OnErr, IfOk, nat_eq, None};
ghost use Rattle.std.specs.HashSet as bag;
ghost use Rattle.ax_trees.specs.Lists.{contains, first_that};
ghost use Rattle.ax_tree.specs.UpdateRule.{first_repeated};
ghost use Rattle.ax_mirror.specs.Steps.{PutsPending, Places, Tracked, is_elsewhere};
ghost use Rattle.ax_mirror.specs.Accounts.{Accounts, Reaches, no_id, is_id};

use crate::draft::Draft;
use crate::entries::{Entry, put};
use ax_base::{Ids, NoMemory, NodeId};
use ax_node::NodeData;
use ax_pages::Steps;
use std::collections::HashSet;
use std::sync::ledger::Ledger;

/// Puts a pending node at an id.
pub fn put_pending<L: Ledger>(
    draft: &mut Draft,
    id: NodeId,
    above: Option<NodeId>,
    level: usize,
    steps: &mut Steps<L>,
) -> Result<(), NoMemory>
    ensures puts { OnOk result (PutsPending draft.old draft.new id above level) }
    ensures tracked { OnOk result (Tracked draft.old draft.new) }
    ensures cost { OnOk result (steps.new + length draft.old.touched ≤ steps.old + length draft.new.touched) }
    ensures accounts { OnOk result (Accounts (is_id id) no_id draft.old draft.new) }
    ensures reach { OnErr result (Reaches (is_id id) draft.old draft.new steps.old steps.new) }
{
    draft.made.push(id)?;
    let entry = Entry {
        above,
        level,
        pending: true,
        node: NodeData::blank(draft.nodes.allocator(), id),
    };
    put(&mut draft.nodes, id, entry, &mut draft.touched, steps)?;
    Ok(())
}

/// Makes a pending node for each id that is new. An id that is there and isn't an old child stops it.
pub fn place<L: Ledger>(
    draft: &mut Draft,
    parent: NodeId,
    level: usize,
    ids: &Ids,
    old: &HashSet<NodeId>,
    steps: &mut Steps<L>,
) -> Result<Option<NodeId>, NoMemory>
    requires { first_repeated [] ids.now ≡ None }
    ensures first { IfOk result (λ o. o ≡ first_that (is_elsewhere draft.old.nodes (bag.contains nat_eq old.now)) ids.now) }
    ensures placed { IfOk result (λ o. o ≡ None → Places draft.old draft.new parent level (bag.contains nat_eq old.now) ids.now) }
    ensures tracked { OnOk result (Tracked draft.old draft.new) }
    ensures cost { OnOk result (steps.new + length draft.old.touched ≤ steps.old + length draft.new.touched) }
    ensures accounts { OnOk result (Accounts (contains ids.now) no_id draft.old draft.new) }
    ensures reach { OnErr result (Reaches (contains ids.now) draft.old draft.new steps.old steps.new) }
{
    for id in ids.as_slice() {
        if old.contains(id) {
            continue;
        }
        if draft.nodes.read(*id).is_some() {
            return Ok(Some(*id));
        }
        put_pending(draft, *id, Some(parent), level, steps)?;
    }
    Ok(None)
}
