//! Updates one after the other, upon a draft.

ghost use Rattle.std.specs.Prelude.{◌≡◌, ◌≤◌, ◌+◌, [], ◌∷◌, length, take, OnOk, OnErr, IfOk, IfErr, None};
ghost use Rattle.std.specs.FinMap as map;
ghost use Rattle.ax_trees.specs.Lists.{NoneTwice};
ghost use Rattle.ax_tree.specs.Updates.{applied, applied_all};
ghost use Rattle.ax_mirror.specs.Begins.{Forgets};
ghost use Rattle.ax_mirror.specs.Mirrors.{Applies, IsRefused, IsBroken, TrackedHeld};
ghost use Rattle.ax_mirror.specs.Accounts.{Accounts, Reaches, TouchesOnly, all_names, lists_id, names};

use crate::about::About;
use crate::draft::Draft;
use crate::entries::Entries;
use crate::starting::touch_all;
use crate::updating::take_update;
use ax_base::{Ids, NoMemory, NodeId};
use ax_pages::Steps;
use ax_tree::{BundleErr, Refusal, Touched, TreeUpdate};
use std::sync::ledger::Ledger;

/// A draft that shares the nodes.
pub fn begin(nodes: &Entries, root: Option<NodeId>) -> Result<Draft, NoMemory>
    ensures { IfOk result (λ d. (d.nodes ≡ nodes.now) × (d.root ≡ root) × (d.touched ≡ [])) }
{
    let alloc = nodes.allocator();
    let nodes = nodes.share()?;
    Ok(Draft {
        nodes,
        root,
        touched: Touched::new(alloc),
        made: Ids::new(alloc),
    })
}

/// A draft of no node, in which all ids of the old ones are touched.
pub fn begin_anew(nodes: &Entries, root: Option<NodeId>) -> Result<Draft, NoMemory>
    ensures { IfOk result (λ d. Forgets nodes.now root d) }
{
    let mut draft = begin(nodes, root)?;
    touch_all(&mut draft)?;
    Ok(Draft {
        nodes: Entries::new(nodes.allocator()),
        root: None,
        touched: draft.touched,
        made: draft.made,
    })
}

/// Applies an update. After a refusal the draft is of no use.
pub fn take_one<L: Ledger>(
    draft: &mut Draft,
    about: &mut About,
    update: &TreeUpdate,
    steps: &mut Steps<L>,
) -> Result<(), Refusal>
    ensures ok { OnOk result (Applies (λ t. applied update.now t) draft.old about.old draft.new about.new) }
    ensures err { IfErr result (λ r. IsRefused (λ t. applied update.now t) draft.old about.old r) }
    ensures tracked { OnOk result (TrackedHeld draft.old draft.new) }
    ensures cost { OnOk result (steps.new + length draft.old.touched ≤ steps.old + length draft.new.touched) }
    ensures only { OnOk result (TouchesOnly (update.now ∷ []) draft.old draft.new) }
    ensures accounts { OnOk result (Accounts (names update.now) (lists_id update.now.nodes) draft.old draft.new) }
    ensures reach { OnErr result (Reaches (names update.now) draft.old draft.new steps.old steps.new) }
{
    match take_update(draft, update, steps) {
        Ok(()) => {}
        Err(refusal) => return Err(refusal),
    }
    match about.tell(&update.tree_data) {
        Ok(()) => Ok(()),
        Err(_) => Err(Refusal::NoMemory),
    }
}

/// Applies updates one after the other. After a refusal the draft is of no use.
pub fn take_all<L: Ledger>(
    draft: &mut Draft,
    about: &mut About,
    updates: &[TreeUpdate],
    steps: &mut Steps<L>,
) -> Result<(), BundleErr>
    ensures ok { OnOk result (Applies (λ t. applied_all updates.now t) draft.old about.old draft.new about.new) }
    ensures err { IfErr result (λ r. IsBroken (λ t. applied_all updates.now t) draft.old about.old r) }
    ensures at { IfErr result (λ r. r.at ≤ length updates.now) }
    ensures tracked { OnOk result (TrackedHeld draft.old draft.new) }
    ensures cost { OnOk result (steps.new + length draft.old.touched ≤ steps.old + length draft.new.touched) }
    ensures only { OnOk result (TouchesOnly updates.now draft.old draft.new) }
    ensures reach { IfErr result (λ r. Reaches (all_names (take (r.at + 1) updates.now)) draft.old draft.new steps.old steps.new) }
    ensures once { OnErr result (NoneTwice draft.new.touched) }
{
    for (at, update) in updates.iter().enumerate() {
        match take_one(draft, about, update, steps) {
            Ok(()) => {}
            Err(why) => {
                // Its contract says that no id is counted twice.
                let _touched = draft.touched.as_slice();
                return Err(BundleErr { at, why });
            }
        }
    }
    Ok(())
}
