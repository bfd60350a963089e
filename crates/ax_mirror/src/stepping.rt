//! The data of nodes, one node after the other.

ghost use Rattle.std.specs.Prelude.{◌≡◌, ◌≤◌, ◌+◌, ◌⊎◌, length, OnOk, OnErr, IfOk, IfErr};
ghost use Rattle.ax_tree.specs.declared.update.Refusal.TheVariants.{NoMemory};
ghost use Rattle.ax_mirror.specs.Steps.{taken, all_taken, Accepts, Refuses, Makes, Tracked};
ghost use Rattle.ax_mirror.specs.Changes.{IsChange, RepeatsChild};
ghost use Rattle.ax_mirror.specs.Accounts.{Accounts, Reaches, is_id, node_names, list_names, lists_id};

use crate::children::{first_repeated, outside, set_of};
use crate::draft::Draft;
use crate::entries::{Entry, put};
use crate::placing::place;
use crate::removing::take_out;
use ax_base::{Ids, NodeId};
use ax_node::NodeData;
use ax_pages::Steps;
use ax_tree::Refusal;
use std::alloc::Global;
use std::collections::HashSet;
use std::sync::ledger::Ledger;

/// What a node's data change about its children.
#[derive(Drop)]
struct Change {
    old: HashSet<NodeId>,
    /// The old children that aren't listed, the last one first.
    gone: Ids,
    above: Option<NodeId>,
    level: usize,
    /// The level of its children.
    inner: usize,
}

fn change_of(entry: &Entry, children: &Ids, alloc: Global) -> Result<Change, Refusal>
    ensures ok { IfOk result (λ c. IsChange entry.now children.now c) }
    ensures err { IfErr result (λ r. (r ≡ NoMemory) ⊎ RepeatsChild children.now r) }
{
    match first_repeated(children, alloc) {
        Ok(None) => {}
        Ok(Some(child)) => return Err(Refusal::DuplicateChild(child)),
        Err(_) => return Err(Refusal::NoMemory),
    }
    let Ok(listed) = set_of(children, alloc) else {
        return Err(Refusal::NoMemory);
    };
    let Ok(old) = set_of(&entry.node.children, alloc) else {
        return Err(Refusal::NoMemory);
    };
    let Ok(out) = outside(&entry.node.children, &listed, alloc) else {
        return Err(Refusal::NoMemory);
    };
    let mut gone = Ids::new(alloc);
    match gone.push_reversed(&out) {
        Ok(()) => {}
        Err(_) => return Err(Refusal::NoMemory),
    }
    // A chain of more than 2^64 nodes wants more memory than there is.
    let Some(inner) = entry.level.checked_add(1) else {
        return Err(Refusal::NoMemory);
    };
    Ok(Change {
        old,
        gone,
        above: entry.above,
        level: entry.level,
        inner,
    })
}

/// Applies one node's data. After a refusal the draft is of no use.
pub fn take_node<L: Ledger>(
    draft: &mut Draft,
    node: &NodeData,
    steps: &mut Steps<L>,
) -> Result<(), Refusal>
    ensures ok { OnOk result (Accepts (λ w. taken w node.now) draft.old draft.new) }
    ensures err { IfErr result (λ r. Refuses (λ w. taken w node.now) draft.old r) }
    ensures made { OnOk result (Makes draft.old draft.new) }
    ensures tracked { OnOk result (Tracked draft.old draft.new) }
    ensures cost { OnOk result (steps.new + length draft.old.touched ≤ steps.old + length draft.new.touched) }
    ensures accounts { OnOk result (Accounts (node_names node.now) (is_id node.now.id) draft.old draft.new) }
    ensures reach { OnErr result (Reaches (node_names node.now) draft.old draft.new steps.old steps.new) }
{
    let Some(entry) = draft.nodes.read(node.id) else {
        return Err(Refusal::NotInTree(node.id));
    };
    let mut change = match change_of(entry, &node.children, draft.nodes.allocator()) {
        Ok(change) => change,
        Err(refusal) => return Err(refusal),
    };
    match take_out(draft, &mut change.gone, steps) {
        Ok(()) => {}
        Err(_) => return Err(Refusal::NoMemory),
    }
    match place(
        draft,
        node.id,
        change.inner,
        &node.children,
        &change.old,
        steps,
    ) {
        Ok(None) => {}
        Ok(Some(child)) => return Err(Refusal::Reparented(child)),
        Err(_) => return Err(Refusal::NoMemory),
    }
    let Ok(copy) = node.copy() else {
        return Err(Refusal::NoMemory);
    };
    let entry = Entry {
        above: change.above,
        level: change.level,
        pending: false,
        node: copy,
    };
    match put(&mut draft.nodes, node.id, entry, &mut draft.touched, steps) {
        Ok(()) => Ok(()),
        Err(_) => Err(Refusal::NoMemory),
    }
}

/// Applies the data of nodes in order. After a refusal the draft is of no use.
pub fn take_nodes<L: Ledger>(
    draft: &mut Draft,
    nodes: &[NodeData],
    steps: &mut Steps<L>,
) -> Result<(), Refusal>
    ensures ok { OnOk result (Accepts (λ w. all_taken w nodes.now) draft.old draft.new) }
    ensures err { IfErr result (λ r. Refuses (λ w. all_taken w nodes.now) draft.old r) }
    ensures made { OnOk result (Makes draft.old draft.new) }
    ensures tracked { OnOk result (Tracked draft.old draft.new) }
    ensures cost { OnOk result (steps.new + length draft.old.touched ≤ steps.old + length draft.new.touched) }
    ensures accounts { OnOk result (Accounts (list_names nodes.now) (lists_id nodes.now) draft.old draft.new) }
    ensures reach { OnErr result (Reaches (list_names nodes.now) draft.old draft.new steps.old steps.new) }
{
    for node in nodes {
        match take_node(draft, node, steps) {
            Ok(()) => {}
            Err(refusal) => return Err(refusal),
        }
    }
    Ok(())
}
