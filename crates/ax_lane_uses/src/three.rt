//! Two senders and a taker in threads.
ghost use Rattle.std.specs.Prelude.{◌≡◌, ◌+◌, ◌<◌, ◌^◌, ◌++◌, [], ◌∷◌, IfSome, length};
ghost use Rattle.ax_lane.specs.Ends.{new_sender};
ghost use Rattle.ax_lane.specs.Packets.{of_tree};
ghost use Rattle.ax_lane_uses.specs.Plain.{IsPlain, AllPlain, IsAllOf, IsNewSender, HasSent};

use ax_base::{PassNo, Seq, Token, TreeId};
use ax_lane::{Lane, LaneParts, Packets, Rx, Senders, Tx};
use ax_tree::Packet;
use std::alloc::Global;
use std::sync::Wait;
use std::thread;
use std::thread::{Threads, join};

fn plain(alloc: Global, tree: TreeId, number: u64) -> Packet
    ensures { IsPlain tree number result }
{
    Packet {
        tree,
        pass: PassNo(number),
        base: PassNo(0),
        token: Token(0),
        slip: Seq::new(alloc),
        bundle: Seq::new(alloc),
    }
}

// Sends packets number 1 to `count`.
fn send_all<R: Wait>(
    rt: &R,
    alloc: Global,
    lane: &Lane,
    mut tx: Tx,
    tree: TreeId,
    count: u64,
) -> Option<Tx>
    requires tx { IsNewSender lane.now tree tx }
    requires count { count + 1 < 2 ^ 64 }
    ensures { IfSome result (λ t. HasSent lane.now tree count t) }
{
    for number in 0..count {
        let packet = plain(alloc, tree, number + 1);
        match lane.send(rt, &mut tx, packet) {
            Ok(()) => {}
            Err(_) => return None,
        }
    }
    Some(tx)
}

// Takes `count` packets, or as many as there is memory for.
fn take_all<R: Wait>(rt: &R, alloc: Global, lane: &Lane, mut rx: Rx, count: usize) -> (Rx, Packets)
    requires rx { (rx.lane ≡ lane.now) × (rx.got ≡ []) }
    ensures { (result.0.lane ≡ lane.now) × (result.0.got ≡ result.1.items) }
{
    let mut taken = Vec::new(alloc);
    for _ in rt.forever() {
        if taken.len() >= count || taken.reserve(1).is_err() {
            break;
        }
        match lane.take(rt, &mut rx) {
            Some(packet) => taken.push_reserved(packet),
            None => thread::yield_now(),
        }
    }
    (rx, taken)
}

/// Two threads send the packets number 1 to `count`, of the trees 1 and 2, and a third takes up to `limit` of them.
/// The answer is what was taken and what was left. `None` comes only where memory ran out.
pub fn exchange<R: Threads + Wait + Sync>(
    rt: &R,
    alloc: Global,
    count: u64,
    limit: usize,
) -> Option<(Packets, Packets)>
    requires count { count + 1 < 2 ^ 64 }
    ensures first { IfSome result (λ r. IsAllOf 1 count (r.0.items ++ r.1.items)) }
    ensures second { IfSome result (λ r. IsAllOf 2 count (r.0.items ++ r.1.items)) }
{
    let one = TreeId::new(1)?;
    let two = TreeId::new(2)?;
    let LaneParts {
        lane,
        senders,
        taker,
    } = Lane::new(rt, alloc, &[one, two]).ok()?;
    let (first, second, senders) = two_of(&lane, senders)?;
    let lent = &lane;
    let ((a, b), taken) = join(
        rt,
        move || -> (Option<Tx>, Option<Tx>)
            requires { IsNewSender lent.now one first × IsNewSender lent.now two second × (count + 1 < 2 ^ 64) }
            ensures { IfSome result.0 (λ t. HasSent lent.entry.now one count t) × IfSome result.1 (λ t. HasSent lent.entry.now two count t) }
        { send_both(rt, alloc, lent, first, one, second, two, count) },
        move || -> (Rx, Packets)
            requires { (taker.lane ≡ lent.now) × (taker.got ≡ []) }
            ensures { (result.0.lane ≡ lent.entry.now) × (result.0.got ≡ result.1.items) }
        { take_all(rt, alloc, lent, taker, limit) },
    );
    let a = a?;
    let b = b?;
    let (rx, taken) = taken;
    let left = finish(rt, lane, senders, a, b, rx)?;
    Some((taken, left))
}

fn send_both<R: Threads + Wait + Sync>(
    rt: &R,
    alloc: Global,
    lane: &Lane,
    first: Tx,
    one: TreeId,
    second: Tx,
    two: TreeId,
    count: u64,
) -> (Option<Tx>, Option<Tx>)
    requires first { IsNewSender lane.now one first }
    requires second { IsNewSender lane.now two second }
    requires count { count + 1 < 2 ^ 64 }
    ensures first { IfSome result.0 (λ t. HasSent lane.now one count t) }
    ensures second { IfSome result.1 (λ t. HasSent lane.now two count t) }
{
    join(
        rt,
        move || -> Option<Tx>
            requires { IsNewSender lane.now one first × (count + 1 < 2 ^ 64) }
            ensures { IfSome result (λ t. HasSent lane.entry.now one count t) }
        { send_all(rt, alloc, lane, first, one, count) },
        move || -> Option<Tx>
            requires { IsNewSender lane.now two second × (count + 1 < 2 ^ 64) }
            ensures { IfSome result (λ t. HasSent lane.entry.now two count t) }
        { send_all(rt, alloc, lane, second, two, count) },
    )
}

// The two senders, and an empty list.
fn two_of(_lane: &Lane, senders: Senders) -> Option<(Tx, Tx, Senders)>
    requires { senders.items ≡ new_sender _lane.now 1 ∷ new_sender _lane.now 2 ∷ [] }
    ensures first { IfSome result (λ r. IsNewSender _lane.now 1 r.0) }
    ensures second { IfSome result (λ r. IsNewSender _lane.now 2 r.1) }
    ensures rest { IfSome result (λ r. r.2.items ≡ []) }
{
    let (first, second, senders) = pair_of(senders)?;
    Some((first, second, senders))
}

fn pair_of(mut senders: Senders) -> Option<(Tx, Tx, Senders)>
    ensures two { IfSome result (λ r. senders.items ≡ r.0 ∷ r.1 ∷ []) }
    ensures rest { IfSome result (λ r. r.2.items ≡ []) }
{
    if senders.len() != 2 {
        return None;
    }
    let second = senders.pop()?;
    let first = senders.pop()?;
    Some((first, second, senders))
}

fn finish<R: Wait>(
    rt: &R,
    lane: Lane,
    mut senders: Senders,
    first: Tx,
    second: Tx,
    rx: Rx,
) -> Option<Packets>
    requires first { first.lane ≡ lane }
    requires second { second.lane ≡ lane }
    requires rx { rx.lane ≡ lane }
    requires empty { senders.items ≡ [] }
    ensures first { IfSome result (λ left. of_tree first.tree (rx.got ++ left.items) ≡ first.sent) }
    ensures second { IfSome result (λ left. of_tree second.tree (rx.got ++ left.items) ≡ second.sent) }
{
    senders.push(first).ok()?;
    senders.push(second).ok()?;
    lane.close(rt, senders, rx).ok()
}
