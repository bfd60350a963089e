//! What a packet brings about.
ghost use Rattle.std.specs.Prelude.{◌≡◌, ℕ, List, IfOk, IfErr};
ghost use Rattle.ax_tree.specs.declared.packet.HEntry.{HEntry};
ghost use Rattle.ax_forest.specs.Tallied.{IsPast};
ghost use Rattle.ax_forest.specs.Judging.{IsKept};
ghost use Rattle.ax_forest.specs.Fates.{IsFate, IsFateLive, FollowsTree, FollowsIn, IsWhy, IsWhyLive, IsWhyBroken};

use crate::answers::ForestErr;
use crate::by_id::value_at;
use crate::judging::{Judgement, Renewed, judged, renew};
use crate::tally::{Tallies, Tally};
use crate::trees::Trees;
use ax_base::Token;
use ax_mirror::Mirror;
use ax_pages::Steps;
use ax_tree::{BundleErr, Grove, Packet, Refusal, Verdict};
use std::alloc::Global;
use std::sync::ledger::Ledger;

/// What a packet is to bring about.
#[derive(Drop)]
pub enum Fate {
    /// This verdict, and no change.
    Told(Verdict),
    /// The tree is renewed, and keeps its token.
    Renewed(Renewed, Token),
}

/// What a packet brings about, by its tree's mirror and tally.
pub fn fate_of<L: Ledger>(
    alloc: Global,
    trees: &Trees,
    tallies: &Tallies,
    packet: &Packet,
    steps: &mut Steps<L>,
) -> Result<Fate, ForestErr>
    ensures ok { IfOk result (λ f. (ts : List ℕ) (h : List HEntry) → IsPast trees.now tallies.now ts h → IsFate ts h packet.now f) }
    ensures err { IfErr result (λ e. (ts : List ℕ) (h : List HEntry) → IsPast trees.now tallies.now ts h → IsWhy ts h packet.now e) }
    ensures follows { IfOk result (FollowsIn trees.now packet.now) }
{
    let Some(tally) = value_at(tallies, packet.tree) else {
        return Err(ForestErr::NoTree(packet.tree));
    };
    match trees.tree(packet.tree) {
        Some(old) => fate_at(alloc, old, tally, packet, steps),
        None => Ok(Fate::Told(Verdict::Gone)),
    }
}

fn fate_at<L: Ledger>(
    alloc: Global,
    old: &Mirror,
    tally: &Tally,
    packet: &Packet,
    steps: &mut Steps<L>,
) -> Result<Fate, ForestErr>
    ensures ok { IfOk result (λ f. (h : List HEntry) → IsKept h packet.now.tree old.now tally.now → IsFateLive h packet.now f) }
    ensures err { IfErr result (λ e. (h : List HEntry) → IsKept h packet.now.tree old.now tally.now → IsWhyLive h packet.now e) }
    ensures follows { IfOk result (FollowsTree old.now) }
{
    match judged(tally, packet) {
        Judgement::Stale(had, want) => Ok(Fate::Told(Verdict::Stale { had, want })),
        Judgement::Gap(base, at) => Ok(Fate::Told(Verdict::Gap { base, at })),
        Judgement::Applies => match renew(alloc, old, packet, steps) {
            Ok(renewed) => Ok(Fate::Renewed(renewed, tally.token)),
            Err(err) => Err(why_broken(err)),
        },
    }
}

fn why_broken(err: BundleErr) -> ForestErr
    ensures { IsWhyBroken err result }
{
    match err.why {
        Refusal::NoMemory => ForestErr::NoMemory,
        _ => ForestErr::Refused(err),
    }
}
