//! One update, from its clear id to the test of the whole tree.

ghost use Rattle.std.specs.Prelude.{◌≡◌, ◌≤◌, ◌+◌, length, OnOk, OnErr, IfErr};
ghost use Rattle.ax_mirror.specs.Steps.{Updates, UpdateRefused};
ghost use Rattle.ax_mirror.specs.Begins.{TrackedTrees, missing_in};
ghost use Rattle.ax_mirror.specs.Accounts.{Accounts, Reaches, names, lists_id};

use crate::draft::Draft;
use crate::entries::Entries;
use crate::finishing::finish;
use crate::starting::start;
use crate::stepping::take_nodes;
use ax_base::{NoMemory, NodeId};
use ax_pages::Steps;
use ax_tree::{Refusal, TreeUpdate};
use std::sync::ledger::Ledger;

/// Applies an update without its tree data. After a refusal the draft is of no use.
pub fn take_update<L: Ledger>(
    draft: &mut Draft,
    update: &TreeUpdate,
    steps: &mut Steps<L>,
) -> Result<(), Refusal>
    ensures ok { OnOk result (Updates draft.old draft.new update.now) }
    ensures err { IfErr result (λ r. UpdateRefused draft.old update.now r) }
    ensures tracked { OnOk result (TrackedTrees draft.old draft.new) }
    ensures cost { OnOk result (steps.new + length draft.old.touched ≤ steps.old + length draft.new.touched) }
    ensures accounts { OnOk result (Accounts (names update.now) (lists_id update.now.nodes) draft.old draft.new) }
    ensures reach { OnErr result (Reaches (names update.now) draft.old draft.new steps.old steps.new) }
{
    draft.made.clear();
    match missing(&draft.nodes, update.clear) {
        None => {}
        Some(id) => return Err(Refusal::BadClear(id)),
    }
    match start(draft, update.root, update.clear, steps) {
        Ok(()) => {}
        Err(_) => return Err(Refusal::NoMemory),
    }
    match take_nodes(draft, update.nodes.as_slice(), steps) {
        Ok(()) => {}
        Err(refusal) => return Err(refusal),
    }
    match finish(&draft.nodes, draft.made.as_slice()) {
        Ok(()) => Ok(()),
        Err(refusal) => Err(refusal),
    }
}

/// The id to clear, where it isn't there.
fn missing(nodes: &Entries, clear: Option<NodeId>) -> Option<NodeId>
    ensures { result ≡ missing_in nodes.now clear }
{
    match clear {
        Some(id) => {
            if nodes.read(id).is_some() {
                None
            } else {
                Some(id)
            }
        }
        None => None,
    }
}
