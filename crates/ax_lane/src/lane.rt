//! The lane itself.

ghost use Rattle.std.specs.Prelude.{◌≡◌, ℕ, ◌++◌, [], ◌∷◌, true, false, map, All, IfOk, IfSome, IfNone, MatchResult, MatchOption};
ghost use Rattle.crossbeam_queue.specs.SegTies.{IsSegPassOf};
ghost use Rattle.ax_tree.specs.Packets.{IsGood};
ghost use Rattle.ax_lane.specs.Ends.{IsNextLull, back_of, new_sender, sent_at};
ghost use Rattle.ax_lane.specs.Lanes.{taker, hired, Left};
ghost use Rattle.ax_lane.specs.Packets.{of_tree, places_of, Includes, AllDiffer, AllOf};

use crate::ends::{Line, Pass, Rx, Tx};
use crate::rule::{Hire, Of, Pops, Pushes, Return};
use ax_base::{NoMemory, TreeId};
use ax_tree::Packet;
use std::alloc::{AllocError, Global};
use std::marker::{Brand, Model};
use std::sync::Wait;

/// The senders of a lane, in the order of its trees.
pub type Senders = Vec<Tx>;
/// Packets, in order.
pub type Packets = Vec<Packet>;

/// A queue of packets. Contracts see its identity.
pub struct Lane {
    queue: Line,
    alloc: Global,
}

impl Model for Lane {
    ghost use Rattle.ax_lane.specs.Ends.{LaneId};

    ghost Value = { LaneId };

    ghost view = { λ l. l.queue };
}

impl Drop for Lane {
    fn drop(self) {
        let Self { queue, alloc: _ } = self;
        queue.destroy();
    }
}

/// A new lane, a sender for each tree, and the taker.
pub struct LaneParts {
    pub lane: Lane,
    pub senders: Senders,
    pub taker: Rx,
}

impl Lane {
    /// An empty lane for these trees. It waits for nothing.
    pub fn new<R: Wait>(_rt: &R, alloc: Global, trees: &[TreeId]) -> Result<LaneParts, NoMemory>
        requires { AllDiffer trees.now }
        ensures taker { IfOk result (λ parts. parts.taker ≡ record { lane = parts.lane; got = []; trees = trees.now; lulls = 0 }) }
        ensures senders { IfOk result (λ parts. parts.senders.items ≡ map (new_sender parts.lane) trees.now) }
    {
        let Ok((queue, mut pass)) = Line::with_rule(alloc) else {
            return Err(NoMemory);
        };
        match hire_all(alloc, &queue, &mut pass, trees) {
            Ok(senders) => Ok(LaneParts {
                lane: Lane { queue, alloc },
                senders,
                taker: Rx { pass, lulls: 0 },
            }),
            Err(AllocError) => {
                queue.destroy();
                Err(NoMemory)
            }
        }
    }

    /// Adds a packet of the sender's tree at the back, and its place in the order of all packets is then fixed. Without
    /// memory the packet is given back, and the sender is as it was.
    pub fn send<R: Wait>(&self, rt: &R, tx: &mut Tx, p: Packet) -> Result<(), (NoMemory, Packet)>
        requires sender { tx.old.lane ≡ self.now }
        requires tree { p.tree ≡ tx.old.tree }
        requires good { IsGood tx.old.tree (tx.old.sent ++ p ∷ []) }
        ensures { MatchResult result (λ _. (place : ℕ) × (tx.new ≡ sent_at place p tx.old)) (λ refused. (refused.1 ≡ p) × (tx.new ≡ tx.old)) }
    {
        match self.queue.push_as::<Pushes, R>(rt, &mut tx.pass, p) {
            Ok(()) => Ok(()),
            Err(p) => Err((NoMemory, p)),
        }
    }

    /// Takes the packet at the front. `None` comes where the lane was empty at one moment of the call.
    pub fn take<R: Wait>(&self, rt: &R, rx: &mut Rx) -> Option<Packet>
        requires { rx.old.lane ≡ self.now }
        ensures got { MatchOption result (rx.new ≡ record rx.old { lulls = rx.new.lulls }) (λ p. rx.new ≡ record rx.old { got = rx.old.got ++ p ∷ [] }) }
        ensures lulls { IfNone result (IsNextLull rx.old.lulls rx.new.lulls) }

        // The packet's tree is one of the lane's, and what was taken of it is good.
        ensures known { IfSome result (λ p. Includes rx.old.trees p.tree) }
        ensures good { IfSome result (λ p. IsGood p.tree (of_tree p.tree rx.new.got)) }

        // Where the lane was empty, all that was taken is of its trees, and of each tree good.
        ensures empty { IfNone result (AllOf rx.old.trees rx.new.got × ((t : ℕ) → IsGood t (of_tree t rx.new.got))) }
    {
        let front = self.pop(rt, rx);
        if front.is_none() && rx.lulls < u64::MAX {
            rx.lulls += 1;
        }
        front
    }

    // The count of lulls stays.
    fn pop<R: Wait>(&self, rt: &R, rx: &mut Rx) -> Option<Packet>
        requires { rx.old.lane ≡ self.now }
        ensures got { MatchOption result (rx.new ≡ rx.old) (λ p. rx.new ≡ record rx.old { got = rx.old.got ++ p ∷ [] }) }
        ensures known { IfSome result (λ p. Includes rx.old.trees p.tree) }
        ensures good { IfSome result (λ p. IsGood p.tree (of_tree p.tree rx.new.got)) }
        ensures empty { IfNone result (AllOf rx.old.trees rx.new.got × ((t : ℕ) → IsGood t (of_tree t rx.new.got))) }
    {
        self.queue.pop_as::<Pops, R>(rt, &mut rx.pass)
    }

    /// Ends the lane by its taker and all its senders, and gives the packets that are left, front first. Without memory
    /// they are given up.
    pub fn close<R: Wait>(self, rt: &R, senders: Senders, taker: Rx) -> Result<Packets, NoMemory>
        requires taker { taker.lane ≡ self }
        requires senders { All (λ t. t.lane ≡ self) senders.items }

        // For each sender's tree, what the taker got and then what is left is what the sender has sent, and each packet
        // stands at the place that its sending gave it: what is left stands as it stood in the lane.
        ensures whole { IfOk result (λ left. All (λ t. of_tree t.tree (taker.got ++ left.items) ≡ t.sent) senders.items) }
        ensures order { IfOk result (λ left. All (λ t. places_of t.tree 0 (taker.got ++ left.items) ≡ t.places) senders.items) }
        ensures known { IfOk result (λ left. AllOf taker.trees left.items) }
        ensures good { IfOk result (λ left. (t : ℕ) → IsGood t (of_tree t (taker.got ++ left.items))) }
    {
        let Lane { queue, alloc } = self;
        let Rx { mut pass, lulls: _ } = taker;
        take_back(&queue, &mut pass, senders);
        let left = drain(rt, alloc, &queue, &mut pass);
        queue.destroy();
        match left {
            Ok(packets) => Ok(packets),
            Err(AllocError) => Err(NoMemory),
        }
    }
}

// A sender for each tree.
fn hire_all(
    alloc: Global,
    queue: &Line,
    pass: &mut Pass,
    trees: &[TreeId],
) -> Result<Senders, AllocError>
    requires queue { IsSegPassOf queue.now pass.old }
    requires view { pass.old.me.view.client ≡ taker [] [] [] }
    requires trees { AllDiffer trees.now }
    ensures queue { IsSegPassOf queue.now pass.new }
    ensures view { IfOk result (λ _. pass.new.me.view.client ≡ taker [] trees.now []) }
    ensures senders { IfOk result (λ v. v.items ≡ map (new_sender queue.now) trees.now) }
{
    let mut senders = Vec::new(alloc);
    for tree in trees {
        senders.reserve(1)?;
        senders.push_reserved(hire(queue, pass, *tree));
    }
    Ok(senders)
}

fn hire(queue: &Line, pass: &mut Pass, tree: TreeId) -> Tx
    requires queue { IsSegPassOf queue.now pass.old }
    requires taker { (pass.old.me.view.client.takes ≡ true) × (pass.old.me.view.client.sends ≡ false) }
    requires new { ¬ (Includes pass.old.me.view.client.trees tree) }
    ensures pass { IsSegPassOf queue.now pass.new × (pass.new.me.view.client ≡ hired tree pass.old.me.view.client) }
    ensures sender { result ≡ new_sender queue.now tree }
{
    hire_as::<Brand>(queue, pass, tree)
}

fn hire_as<O: Of>(queue: &Line, pass: &mut Pass, tree: TreeId) -> Tx
    requires tree { tree ≡ O.tree }
    requires queue { IsSegPassOf queue.now pass.old }
    requires taker { (pass.old.me.view.client.takes ≡ true) × (pass.old.me.view.client.sends ≡ false) }
    requires new { ¬ (Includes pass.old.me.view.client.trees tree) }
    ensures pass { IsSegPassOf queue.now pass.new × (pass.new.me.view.client ≡ hired tree pass.old.me.view.client) }
    ensures sender { result ≡ new_sender queue.now tree }
{
    let _tree = tree;
    Tx {
        pass: queue.another::<Hire<O>>(pass),
    }
}

// The taker learns what each sender has sent.
fn take_back(queue: &Line, pass: &mut Pass, senders: Senders)
    requires queue { IsSegPassOf queue.now pass.old }
    requires taker { (pass.old.me.view.client.takes ≡ true) × (pass.old.me.view.client.sends ≡ false) }
    requires senders { All (λ t. t.lane ≡ queue.now) senders.items }
    ensures queue { IsSegPassOf queue.now pass.new }
    ensures view { (pass.new.me.view.client.takes ≡ true) × (pass.new.me.view.client.sends ≡ false) × (pass.new.me.view.client.got ≡ pass.old.me.view.client.got) × (pass.new.me.view.client.trees ≡ pass.old.me.view.client.trees) × (pass.new.me.view.client.back ≡ pass.old.me.view.client.back ++ map back_of senders.items) }
{
    for tx in senders {
        take_one_back(queue, pass, tx);
    }
}

fn take_one_back(queue: &Line, pass: &mut Pass, tx: Tx)
    requires queue { IsSegPassOf queue.now pass.old }
    requires taker { (pass.old.me.view.client.takes ≡ true) × (pass.old.me.view.client.sends ≡ false) }
    requires sender { tx.lane ≡ queue.now }
    ensures queue { IsSegPassOf queue.now pass.new }
    ensures view { pass.new.me.view.client ≡ taker pass.old.me.view.client.got pass.old.me.view.client.trees (pass.old.me.view.client.back ++ back_of tx ∷ []) }
{
    let Tx { pass: other } = tx;
    queue.absorb::<Return>(pass, other);
}

// Takes packets until the lane is empty. Room is made before each, so that none is lost but for want of memory.
fn drain<R: Wait>(
    rt: &R,
    alloc: Global,
    queue: &Line,
    pass: &mut Pass,
) -> Result<Packets, AllocError>
    requires queue { IsSegPassOf queue.now pass.old }
    requires taker { (pass.old.me.view.client.takes ≡ true) × (pass.old.me.view.client.sends ≡ false) }
    ensures queue { IsSegPassOf queue.now pass.new }
    ensures left { IfOk result (λ v. Left (taker (pass.old.me.view.client.got ++ v.items) pass.old.me.view.client.trees pass.old.me.view.client.back) []) }
{
    let mut packets = Vec::new(alloc);
    for _ in rt.forever() {
        packets.reserve(1)?;
        match queue.pop_as::<Pops, R>(rt, pass) {
            Some(p) => packets.push_reserved(p),
            None => return Ok(packets),
        }
    }
    unreachable!()
}
