//! Stays in a frame's turn. Each seat stands for one maker, and adds what its one call answers.
ghost use Rattle.std.specs.Prelude.{◌≡◌, ◌+◌, ◌∷◌, [], ℕ, IfOk, OnErr};
ghost use Rattle.ax_tree.specs.declared.packet.JEntry.TheVariants.{Marked, MarkedBelow, Passed};
ghost use Rattle.ax_tree.specs.Edits.{HasLeaf};
ghost use Rattle.ax_stays.specs.FrameCalls.{edit_entries, mark_entries, delivery_entries, IsEditAnswer, IsMarkAnswer, IsMade, IsUnmade, KeepsFits, SeenFitsWith};
ghost use Rattle.ax_stays.specs.Makers.{maker_of, IsSeatFor};
ghost use Rattle.ax_stays.specs.Stays.{Stay};

use crate::frame_round::FrameRound;
use crate::parcel::Parcel;
use ax_base::{NoMemory, NodeId, Token};
use ax_tree::{Edit, EditErr, MarkErr};
use ax_turn::{Seat, Turn};
use std::sync::Wait;

pub fn edit_in<R: Wait>(
    rt: &R,
    turn: &Turn<FrameRound>,
    seat: &mut Seat<FrameRound>,
    e: &Edit,
) -> Result<(), EditErr>
    requires turn { seat.old.turn ≡ turn.now }
    requires seat { IsSeatFor 0 seat.old }
    requires leaf { HasLeaf e.now }
    ensures seat { seat.new ≡ record seat.old { seen = seat.new.seen; enters = seat.old.enters + 1 } }
    ensures stay { (t : ℕ) → turn.now.name ≡ t ∷ [] → Stay maker_of 0 1 seat.old.seen (edit_entries e.now result) seat.new.seen (IsEditAnswer t e.now result) }
    ensures fits { (t : ℕ) → turn.now.name ≡ t ∷ [] → KeepsFits t seat.old.seen seat.new.seen }
{
    let mut round = turn.enter(rt, seat);
    let answer = round.edit(e);
    turn.leave(seat, round);
    answer
}

pub fn mark_in<R: Wait>(
    rt: &R,
    turn: &Turn<FrameRound>,
    seat: &mut Seat<FrameRound>,
    id: NodeId,
) -> Result<(), MarkErr>
    requires turn { seat.old.turn ≡ turn.now }
    requires seat { IsSeatFor 0 seat.old }
    ensures seat { seat.new ≡ record seat.old { seen = seat.new.seen; enters = seat.old.enters + 1 } }
    ensures stay { (t : ℕ) → turn.now.name ≡ t ∷ [] → Stay maker_of 0 1 seat.old.seen (mark_entries (Marked id) result) seat.new.seen (IsMarkAnswer t id result) }
    ensures fits { (t : ℕ) → turn.now.name ≡ t ∷ [] → KeepsFits t seat.old.seen seat.new.seen }
{
    let mut round = turn.enter(rt, seat);
    let answer = round.mark(id);
    turn.leave(seat, round);
    answer
}

pub fn mark_below_in<R: Wait>(
    rt: &R,
    turn: &Turn<FrameRound>,
    seat: &mut Seat<FrameRound>,
    id: NodeId,
) -> Result<(), MarkErr>
    requires turn { seat.old.turn ≡ turn.now }
    requires seat { IsSeatFor 0 seat.old }
    ensures seat { seat.new ≡ record seat.old { seen = seat.new.seen; enters = seat.old.enters + 1 } }
    ensures stay { (t : ℕ) → turn.now.name ≡ t ∷ [] → Stay maker_of 0 1 seat.old.seen (mark_entries (MarkedBelow id) result) seat.new.seen (IsMarkAnswer t id result) }
    ensures fits { (t : ℕ) → turn.now.name ≡ t ∷ [] → KeepsFits t seat.old.seen seat.new.seen }
{
    let mut round = turn.enter(rt, seat);
    let answer = round.mark_below(id);
    turn.leave(seat, round);
    answer
}

pub fn pass_in<R: Wait>(
    rt: &R,
    turn: &Turn<FrameRound>,
    seat: &mut Seat<FrameRound>,
) -> Result<Option<Parcel>, NoMemory>
    requires turn { seat.old.turn ≡ turn.now }
    requires seat { IsSeatFor 0 seat.old }
    ensures seat { seat.new ≡ record seat.old { seen = seat.new.seen; enters = seat.old.enters + 1 } }
    ensures made { IfOk result (λ made. (t : ℕ) → turn.now.name ≡ t ∷ [] → Stay maker_of 0 1 seat.old.seen (Passed ∷ []) seat.new.seen (IsMade t made)) }
    ensures broken { OnErr result ((t : ℕ) → turn.now.name ≡ t ∷ [] → IsUnmade seat.old.seen seat.new.seen t) }
    ensures fits { (t : ℕ) → turn.now.name ≡ t ∷ [] → SeenFitsWith t seat.old.seen result seat.new.seen }
{
    let mut round = turn.enter(rt, seat);
    let answer = round.pass();
    turn.leave(seat, round);
    answer
}

/// A delivery, by the browser's seat.
pub fn deliver_in<R: Wait>(
    rt: &R,
    turn: &Turn<FrameRound>,
    seat: &mut Seat<FrameRound>,
    n: Token,
) -> Result<(), NoMemory>
    requires turn { seat.old.turn ≡ turn.now }
    requires seat { IsSeatFor 1 seat.old }
    ensures seat { seat.new ≡ record seat.old { seen = seat.new.seen; enters = seat.old.enters + 1 } }
    ensures stay { Stay maker_of 1 2 seat.old.seen (delivery_entries n result) seat.new.seen (λ before. Unit {0}) }
{
    let mut round = turn.enter(rt, seat);
    let answer = round.deliver(n);
    turn.leave(seat, round);
    answer
}
