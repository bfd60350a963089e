//! Nodes that go with all below them.

ghost use Rattle.std.specs.Prelude.{◌≤◌, ◌+◌, length, OnOk, OnErr};
ghost use Rattle.ax_mirror.specs.Steps.{TakesOut, Tracked};
ghost use Rattle.ax_mirror.specs.Accounts.{Accounts, Reaches, no_id};

use crate::draft::Draft;
use crate::entries::take;
use ax_base::{Ids, NoMemory};
use ax_pages::Steps;
use std::sync::ledger::Ledger;

/// Takes out the nodes on the stack with all below them. Linear in what goes.
pub fn take_out<L: Ledger>(
    draft: &mut Draft,
    stack: &mut Ids,
    steps: &mut Steps<L>,
) -> Result<(), NoMemory>
    ensures out { OnOk result (TakesOut draft.old draft.new stack.old) }
    ensures tracked { OnOk result (Tracked draft.old draft.new) }
    ensures cost { OnOk result (steps.new + length draft.old.touched ≤ steps.old + length draft.new.touched) }
    ensures accounts { OnOk result (Accounts no_id no_id draft.old draft.new) }
    ensures reach { OnErr result (Reaches no_id draft.old draft.new steps.old steps.new) }
{
    while let Some(id) = stack.pop() {
        // Each id on the stack has an entry.
        let Some(entry) = draft.nodes.read(id) else {
            return Err(NoMemory);
        };
        stack.push_reversed(&entry.node.children)?;
        take(&mut draft.nodes, id, &mut draft.touched, steps)?;
    }
    Ok(())
}
