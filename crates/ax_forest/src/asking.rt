//! Asks for a tree, and its end.
ghost use Rattle.std.specs.Prelude.{◌≡◌, ◌+◌, ◌++◌, ◌∷◌, [], ℕ, List, IfOk};
ghost use Rattle.ax_tree.specs.declared.packet.HEntry.{HEntry};
ghost use Rattle.ax_tree.specs.declared.packet.HEntry.TheVariants.{Asked, Ended};
ghost use Rattle.ax_rules.specs.Histories.{token_of};
ghost use Rattle.ax_forest.specs.Tallied.{IsPast};
ghost use Rattle.ax_forest.specs.Entries.{history_after, IsAnswer};

use crate::answers::ForestErr;
use crate::by_id::{put, value_at};
use crate::tally::{Tallies, Tally};
use crate::trees::Trees;
use ax_base::{Token, TreeId};
use ax_tree::{Grove, HEntry, History};

/// Asks for a tree: its token rises by one.
pub fn ask_in(
    trees: &Trees,
    tallies: &mut Tallies,
    history: &mut History,
    t: TreeId,
) -> Result<Token, ForestErr>
    ensures token { IfOk result (λ k. (ts : List ℕ) → IsPast trees.now tallies.old ts history.old → k.0 ≡ token_of history.old t + 1) }
    ensures answer { (ts : List ℕ) → IsPast trees.now tallies.old ts history.old → IsAnswer ts history.old t result }
    ensures history { history.new ≡ history_after result (Asked t) history.old }
    ensures past { (ts : List ℕ) → IsPast trees.now tallies.old ts history.old → IsPast trees.now tallies.new ts (history_after result (Asked t) history.old) }
{
    let Some(tally) = value_at(tallies, t) else {
        return Err(ForestErr::NoTree(t));
    };
    let at = tally.at;
    // A number that passes the last `u64` couldn't be kept.
    let Some(next) = tally.token.0.checked_add(1) else {
        return Err(ForestErr::NoMemory);
    };
    history.push(HEntry::Asked(t))?;
    if !trees.live(t) {
        return Err(ForestErr::AlreadyGone(t));
    }
    let token = Token(next);
    put(tallies, t, Some(Tally { token, at }));
    Ok(token)
}

/// Ends a tree.
pub fn destroy_in(
    trees: &mut Trees,
    tallies: &Tallies,
    history: &mut History,
    t: TreeId,
) -> Result<(), ForestErr>
    ensures answer { (ts : List ℕ) → IsPast trees.old tallies.now ts history.old → IsAnswer ts history.old t result }
    ensures history { history.new ≡ history_after result (Ended t) history.old }
    ensures past { (ts : List ℕ) → IsPast trees.old tallies.now ts history.old → IsPast trees.new tallies.now ts (history_after result (Ended t) history.old) }
{
    let Some(_tally) = value_at(tallies, t) else {
        return Err(ForestErr::NoTree(t));
    };
    history.push(HEntry::Ended(t))?;
    if !trees.live(t) {
        return Err(ForestErr::AlreadyGone(t));
    }
    let Ok(()) = trees.drop_tree(t) else {
        undo(history);
        return Err(ForestErr::NoMemory);
    };
    Ok(())
}

/// Takes back the last entry.
fn undo(history: &mut History)
    ensures { (h : List HEntry) (e : HEntry) → history.old ≡ h ++ e ∷ [] → history.new ≡ h }
{
    let _ = history.pop();
}
