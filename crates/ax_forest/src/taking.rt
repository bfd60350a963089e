//! Receipts: a packet is judged first, and then all of it is done or nothing.
ghost use Rattle.std.specs.Prelude.{◌≡◌, ◌++◌, ◌∷◌, [], ℕ, List, IfOk, OnOk, OnErr, IfErr};
ghost use Rattle.ax_tree.specs.declared.packet.HEntry.{HEntry};
ghost use Rattle.ax_tree.specs.declared.packet.HEntry.TheVariants.{Got};
ghost use Rattle.ax_tree.specs.declared.packet.Packet.{Packet};
ghost use Rattle.ax_tree.specs.declared.verdict.Verdict.TheVariants.{Applied};
ghost use Rattle.ax_forest.specs.declared.answers.ForestErr.TheVariants.{NoMemory};
ghost use Rattle.ax_rules.specs.Mirrors.{built_verdict_of};
ghost use Rattle.ax_forest.specs.Shown.{MayFollow};
ghost use Rattle.ax_forest.specs.Tallied.{IsPast};
ghost use Rattle.ax_forest.specs.Fates.{IsFate, IsTaken, IsRenewal, FollowsIn, IsWhy};

use crate::answers::{ForestErr, ReceiveErr};
use crate::by_id::put;
use crate::fate::{Fate, fate_of};
use crate::judging::Renewed;
use crate::tally::{Tallies, Tally};
use crate::trees::Trees;
use ax_base::Token;
use ax_pages::Steps;
use ax_tree::{HEntry, History, Packet, Verdict};
use std::alloc::Global;
use std::sync::ledger::Ledger;

/// Receives a packet, or changes nothing.
pub fn receive_in<L: Ledger>(
    alloc: Global,
    trees: &mut Trees,
    tallies: &mut Tallies,
    history: &mut History,
    packet: Packet,
    steps: &mut Steps<L>,
) -> Result<Verdict, ReceiveErr>
    ensures verdict { IfOk result (λ v. (ts : List ℕ) → IsPast trees.old tallies.old ts history.old → v ≡ built_verdict_of history.old packet) }
    ensures taken { OnOk result ((ts : List ℕ) → IsPast trees.old tallies.old ts history.old → IsTaken ts history.old packet) }
    ensures history { OnOk result (history.new ≡ history.old ++ Got packet ∷ []) }
    ensures past { OnOk result ((ts : List ℕ) → IsPast trees.old tallies.old ts history.old → IsPast trees.new tallies.new ts (history.old ++ Got packet ∷ [])) }
    ensures packet { IfErr result (λ e. e.packet ≡ packet) }
    ensures why { IfErr result (λ e. (ts : List ℕ) → IsPast trees.old tallies.old ts history.old → IsWhy ts history.old packet e.why) }
    ensures unchanged { OnErr result ((trees.new ≡ trees.old) × (tallies.new ≡ tallies.old) × (history.new ≡ history.old)) }
{
    match fate_of(alloc, trees, tallies, &packet, steps) {
        Ok(fate) => take(trees, tallies, history, packet, fate),
        Err(why) => Err(ReceiveErr { packet, why }),
    }
}

/// Brings about what a packet is to bring about, or changes nothing.
fn take(
    trees: &mut Trees,
    tallies: &mut Tallies,
    history: &mut History,
    packet: Packet,
    fate: Fate,
) -> Result<Verdict, ReceiveErr>
    requires { FollowsIn trees.old packet fate }
    ensures verdict { IfOk result (λ v. (ts : List ℕ) → IsFate ts history.old packet fate → v ≡ built_verdict_of history.old packet) }
    ensures history { OnOk result (history.new ≡ history.old ++ Got packet ∷ []) }
    ensures past { OnOk result ((ts : List ℕ) → IsPast trees.old tallies.old ts history.old → IsFate ts history.old packet fate → IsPast trees.new tallies.new ts (history.old ++ Got packet ∷ [])) }
    ensures err { IfErr result (λ e. (e.packet ≡ packet) × (e.why ≡ NoMemory)) }
    ensures unchanged { OnErr result ((trees.new ≡ trees.old) × (tallies.new ≡ tallies.old) × (history.new ≡ history.old)) }
{
    match fate {
        Fate::Told(verdict) => {
            add_packet(history, packet)?;
            Ok(verdict)
        }
        Fate::Renewed(renewed, token) => {
            take_renewed(trees, tallies, history, packet, renewed, token)
        }
    }
}

fn take_renewed(
    trees: &mut Trees,
    tallies: &mut Tallies,
    history: &mut History,
    packet: Packet,
    renewed: Renewed,
    token: Token,
) -> Result<Verdict, ReceiveErr>
    requires { MayFollow trees.old packet.tree renewed.mirror renewed.touched }
    ensures verdict { IfOk result (λ v. v ≡ Applied packet.pass renewed.events) }
    ensures history { OnOk result (history.new ≡ history.old ++ Got packet ∷ []) }
    ensures past { OnOk result ((ts : List ℕ) → IsPast trees.old tallies.old ts history.old → IsRenewal ts history.old packet renewed token → IsPast trees.new tallies.new ts (history.old ++ Got packet ∷ [])) }
    ensures err { IfErr result (λ e. (e.packet ≡ packet) × (e.why ≡ NoMemory)) }
    ensures unchanged { OnErr result ((trees.new ≡ trees.old) × (tallies.new ≡ tallies.old) × (history.new ≡ history.old)) }
{
    let tree = packet.tree;
    let pass = packet.pass;
    add_packet(history, packet)?;
    let Renewed {
        mirror,
        touched,
        events,
    } = renewed;
    let Ok(()) = trees.retell(tree, mirror, touched.as_slice()) else {
        return Err(no_memory(take_back(history)));
    };
    put(tallies, tree, Some(Tally { token, at: pass }));
    Ok(Verdict::Applied { pass, events })
}

/// Adds the entry of a packet, or hands it back.
fn add_packet(history: &mut History, packet: Packet) -> Result<(), ReceiveErr>
    ensures ok { OnOk result (history.new ≡ history.old ++ Got packet ∷ []) }
    ensures err { IfErr result (λ e. (e.packet ≡ packet) × (e.why ≡ NoMemory)) }
    ensures unchanged { OnErr result (history.new ≡ history.old) }
{
    match history.try_push(HEntry::Got(packet)) {
        Ok(()) => Ok(()),
        Err((_, HEntry::Got(packet))) => Err(no_memory(packet)),
        Err(_) => unreachable!(),
    }
}

/// Takes back the entry of a packet that was added last.
fn take_back(history: &mut History) -> Packet
    requires { (h : List HEntry) × ((p : Packet) × (history.old ≡ h ++ Got p ∷ [])) }
    ensures { (h : List HEntry) (p : Packet) → history.old ≡ h ++ Got p ∷ [] → (result ≡ p) × (history.new ≡ h) }
{
    match history.pop() {
        Some(HEntry::Got(packet)) => packet,
        _ => unreachable!(),
    }
}

fn no_memory(packet: Packet) -> ReceiveErr
    ensures packet { result.packet ≡ packet }
    ensures why { result.why ≡ NoMemory }
{
    ReceiveErr {
        packet,
        why: ForestErr::NoMemory,
    }
}
