//! The verdict rule at a live tree, and what an applied packet makes of it.
ghost use Rattle.std.specs.Prelude.{◌≡◌, ℕ, List, Ok, IfOk, IfErr, false, if◌then◌else◌, ◌==◌, ◌||◌};
ghost use Rattle.ax_tree.specs.declared.packet.HEntry.{HEntry};
ghost use Rattle.ax_tree.specs.declared.verdict.Event.{Event};
ghost use Rattle.ax_tree.specs.Tree.{empty};
ghost use Rattle.ax_tree.specs.Forest.{IsSoundTree};
ghost use Rattle.ax_tree.specs.Updates.{applied_all};
ghost use Rattle.ax_mirror.specs.Mirrors.{NamesChanges, BrokenAs};
ghost use Rattle.ax_rules.specs.Histories.{is_gone, verdict_at, applied_pass};
ghost use Rattle.ax_rules.specs.Mirrors.{built_by};
ghost use Rattle.ax_rules.specs.Events.{events_of};
ghost use Rattle.ax_forest.specs.Tallied.{IsTallyOf};
ghost use Rattle.ax_forest.specs.Judging.{verdict_by};

use crate::tally::Tally;
use ax_base::{PassNo, Token};
use ax_events::events;
use ax_mirror::Mirror;
use ax_pages::Steps;
use ax_tree::{BundleErr, Events, Packet, Refusal, Touched, TreeView};
use std::alloc::Global;
use std::sync::ledger::Ledger;

/// What becomes of a packet of a live tree.
#[derive(Clone, Copy, Debug, PartialEq, Eq)]
pub enum Judgement {
    Stale(Token, Token),
    Gap(PassNo, PassNo),
    Applies,
}

/// What an applied packet makes of a tree.
#[derive(Drop)]
pub struct Renewed {
    pub mirror: Mirror,
    pub touched: Touched,
    pub events: Events,
}

/// The verdict rule at a live tree.
pub fn judged(tally: &Tally, packet: &Packet) -> Judgement
    ensures { (h : List HEntry) (told : List Event) → is_gone h packet.now.tree ≡ false → IsTallyOf h packet.now.tree tally.now → verdict_at h (applied_pass h packet.now.tree) packet.now told ≡ verdict_by result packet.now told }
{
    if !same_number(packet.token.0, tally.token.0) {
        return Judgement::Stale(packet.token, tally.token);
    }
    if is_near(packet.base.0, tally.at.0) {
        Judgement::Applies
    } else {
        Judgement::Gap(packet.base, tally.at)
    }
}

fn same_number(a: u64, b: u64) -> bool
    ensures { result ≡ (a == b) }
{
    a == b
}

/// Whether a packet with this base stands upon the empty tree, or upon the last applied pass.
fn is_near(base: u64, at: u64) -> bool
    ensures { result ≡ (base == 0 || base == at) }
{
    base == 0 || base == at
}

/// The mirror after a packet that is applied, with the ids at which it differs and the events between the two. The old
/// mirror stays.
pub fn renew<L: Ledger>(
    alloc: Global,
    old: &Mirror,
    packet: &Packet,
    steps: &mut Steps<L>,
) -> Result<Renewed, BundleErr>
    ensures gives { IfOk result (λ r. old.now.about.tree ≡ packet.now.tree → applied_all packet.now.bundle (if packet.now.base.0 == 0 then empty packet.now.tree else old.now) ≡ Ok r.mirror) }
    ensures built { IfOk result (λ r. old.now.about.tree ≡ packet.now.tree → r.mirror ≡ built_by packet.now old.now) }
    ensures events { IfOk result (λ r. r.events ≡ events_of old.now r.mirror) }
    ensures touched { IfOk result (λ r. NamesChanges old.now r.mirror r.touched) }
    ensures sound { IfOk result (λ r. IsSoundTree old.now.about.tree r.mirror) }
    ensures err { IfErr result (λ e. BrokenAs e (applied_all packet.now.bundle (if packet.now.base.0 == 0 then empty old.now.about.tree else old.now))) }
{
    let Ok(mut mirror) = old.share() else {
        return Err(no_memory());
    };
    let touched = mirror.apply(&packet.bundle, same_number(packet.base.0, 0), steps)?;
    let Ok(events) = events(alloc, old, &mirror, touched.as_slice()) else {
        return Err(no_memory());
    };
    // Asked for what it says: the mirror is well formed, and no chain has more than 256 nodes.
    let _ = mirror.root();
    Ok(Renewed {
        mirror,
        touched,
        events,
    })
}

fn no_memory() -> BundleErr
    ensures { result.why ≡ Refusal.NoMemory }
{
    BundleErr {
        at: 0,
        why: Refusal::NoMemory,
    }
}
