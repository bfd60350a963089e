//! Stays in the forest's turn.
ghost use Rattle.std.specs.Prelude.{◌≡◌, ◌+◌, ◌++◌, ◌∷◌, [], IfOk, MatchResult};
ghost use Rattle.ax_tree.specs.declared.packet.HEntry.TheVariants.{Got, Asked, Ended, Probed};
ghost use Rattle.ax_turn.specs.Makers.{GrowsByOthers};
ghost use Rattle.ax_forest.specs.Entries.{history_after, IsAnswer, IsProbed};
ghost use Rattle.ax_rules.specs.Histories.{token_of};
ghost use Rattle.ax_rules.specs.Mirrors.{mirror_of, verdict_of};
ghost use Rattle.ax_stays.specs.Received.{CanBeReceived};
ghost use Rattle.ax_stays.specs.Makers.{by_browser, IsSeatFor};

use crate::forest_round::ForestRound;
use crate::look::Look;
use ax_base::{NoMemory, Token, TreeId};
use ax_forest::{ForestErr, ProbeOut};
use ax_tree::{Packet, TreeUpdate, Verdict};
use ax_turn::{Seat, Turn};
use std::alloc::Global;
use std::sync::Wait;

/// A receipt of a packet that comes next of its tree, by the browser's seat.
pub fn receive_in<R: Wait>(
    rt: &R,
    turn: &Turn<ForestRound>,
    seat: &mut Seat<ForestRound>,
    packet: Packet,
) -> Result<Verdict, (NoMemory, Packet)>
    requires turn { seat.old.turn ≡ turn.now }
    requires seat { IsSeatFor 0 seat.old }
    requires next { CanBeReceived turn.now.name seat.old.seen packet }
    ensures { MatchResult result
        (λ verdict. (verdict ≡ verdict_of seat.old.seen packet) × (seat.new ≡ record seat.old { seen = seat.old.seen ++ Got packet ∷ []; enters = seat.old.enters + 1 }))
        (λ refused. (refused.1 ≡ packet) × (seat.new ≡ record seat.old { enters = seat.old.enters + 1 })) }
{
    let mut round = turn.enter(rt, seat);
    let answer = round.receive(packet);
    turn.leave(seat, round);
    answer
}

pub fn ask_in<R: Wait>(
    rt: &R,
    turn: &Turn<ForestRound>,
    seat: &mut Seat<ForestRound>,
    t: TreeId,
) -> Result<Token, ForestErr>
    requires turn { seat.old.turn ≡ turn.now }
    requires seat { IsSeatFor 0 seat.old }
    ensures token { IfOk result (λ k. k.0 ≡ token_of seat.old.seen t + 1) }
    ensures answer { IsAnswer turn.now.name seat.old.seen t result }
    ensures seat { seat.new ≡ record seat.old { seen = history_after result (Asked t) seat.old.seen; enters = seat.old.enters + 1 } }
{
    let mut round = turn.enter(rt, seat);
    let answer = round.ask(t);
    turn.leave(seat, round);
    answer
}

pub fn destroy_in<R: Wait>(
    rt: &R,
    turn: &Turn<ForestRound>,
    seat: &mut Seat<ForestRound>,
    t: TreeId,
) -> Result<(), ForestErr>
    requires turn { seat.old.turn ≡ turn.now }
    requires seat { IsSeatFor 0 seat.old }
    ensures answer { IsAnswer turn.now.name seat.old.seen t result }
    ensures seat { seat.new ≡ record seat.old { seen = history_after result (Ended t) seat.old.seen; enters = seat.old.enters + 1 } }
{
    let mut round = turn.enter(rt, seat);
    let answer = round.destroy(t);
    turn.leave(seat, round);
    answer
}

pub fn probe_in<R: Wait>(
    rt: &R,
    turn: &Turn<ForestRound>,
    seat: &mut Seat<ForestRound>,
    t: TreeId,
    update: &TreeUpdate,
) -> Result<ProbeOut, ForestErr>
    requires turn { seat.old.turn ≡ turn.now }
    requires seat { IsSeatFor 0 seat.old }
    ensures out { IfOk result (IsProbed update.now (mirror_of seat.old.seen t)) }
    ensures answer { IsAnswer turn.now.name seat.old.seen t result }
    ensures seat { seat.new ≡ record seat.old { seen = history_after result (Probed t update.now) seat.old.seen; enters = seat.old.enters + 1 } }
{
    let mut round = turn.enter(rt, seat);
    let answer = round.probe(t, update);
    turn.leave(seat, round);
    answer
}

/// What a reader sees: it enters, shares the forest and leaves at once.
pub fn look_in<R: Wait>(
    rt: &R,
    alloc: Global,
    turn: &Turn<ForestRound>,
    seat: &mut Seat<ForestRound>,
    number: u64,
) -> Result<Look, NoMemory>
    requires turn { seat.old.turn ≡ turn.now }
    requires seat { IsSeatFor number seat.old }
    ensures look { IfOk result (λ look. look ≡ record { trees = turn.now.name; history = seat.new.seen }) }
    ensures seat { seat.new ≡ record seat.old { seen = seat.new.seen; enters = seat.old.enters + 1 } }
    ensures begins { GrowsByOthers by_browser number (number + 1) seat.old.seen seat.new.seen }
{
    let _number = number;
    let round = turn.enter(rt, seat);
    let look = round.look(alloc);
    turn.leave(seat, round);
    look
}
