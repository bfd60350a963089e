//! Updates that are tried on a mirror.
ghost use Rattle.std.specs.Prelude.{◌≡◌, ℕ, List, IfOk};
ghost use Rattle.ax_tree.specs.declared.packet.HEntry.{HEntry};
ghost use Rattle.ax_tree.specs.declared.packet.HEntry.TheVariants.{Probed};
ghost use Rattle.ax_rules.specs.Mirrors.{built_of};
ghost use Rattle.ax_forest.specs.declared.answers.ProbeOut.TheVariants as probe;
ghost use Rattle.ax_forest.specs.Tallied.{IsPast};
ghost use Rattle.ax_forest.specs.Entries.{history_after, IsAnswer, IsProbed};

use crate::answers::{ForestErr, ProbeOut};
use crate::by_id::value_at;
use crate::tally::Tallies;
use crate::trees::Trees;
use ax_base::{NoMemory, TreeId};
use ax_mirror::Mirror;
use ax_tree::{Grove, HEntry, History, Refusal, TreeUpdate, TreeView};
use std::alloc::Global;

/// Tries an update on a tree, which stays as it is.
pub fn probe_in(
    alloc: Global,
    trees: &Trees,
    tallies: &Tallies,
    history: &mut History,
    t: TreeId,
    update: &TreeUpdate,
) -> Result<ProbeOut, ForestErr>
    ensures out { IfOk result (λ out. (ts : List ℕ) → IsPast trees.now tallies.now ts history.old → IsProbed update.now (built_of history.old t) out) }
    ensures answer { (ts : List ℕ) → IsPast trees.now tallies.now ts history.old → IsAnswer ts history.old t result }
    ensures history { history.new ≡ history_after result (Probed t update.now) history.old }
    ensures past { (ts : List ℕ) → IsPast trees.now tallies.now ts history.old → IsPast trees.now tallies.now ts (history_after result (Probed t update.now) history.old) }
{
    let Some(_tally) = value_at(tallies, t) else {
        return Err(ForestErr::NoTree(t));
    };
    let entry = HEntry::Probed(t, update.copy(alloc)?);
    match trees.tree(t) {
        Some(mirror) => {
            let out = probed(mirror, update)?;
            history.push(entry)?;
            Ok(out)
        }
        None => {
            history.push(entry)?;
            Err(ForestErr::AlreadyGone(t))
        }
    }
}

/// What the update rule makes of an update, on a share of the mirror.
fn probed(mirror: &Mirror, update: &TreeUpdate) -> Result<ProbeOut, NoMemory>
    ensures { IfOk result (IsProbed update.now mirror.now) }
{
    let mut share = mirror.share()?;
    match share.unserialize(update) {
        Ok(_) => Ok(ProbeOut::Accepted(share.count())),
        Err(why) => refused(why),
    }
}

fn refused(why: Refusal) -> Result<ProbeOut, NoMemory>
    ensures out { IfOk result (λ out. out ≡ probe.Refused why) }
    ensures named { IfOk result (λ out. why ≡ Refusal.NoMemory → ⊥) }
{
    match why {
        Refusal::NoMemory => Err(NoMemory),
        _ => Ok(ProbeOut::Refused(why)),
    }
}
