//! The calls of the browser's seat in the forest's turn.
ghost use Rattle.std.specs.Prelude.{◌≡◌, ◌+◌, IfOk};
ghost use Rattle.ax_tree.specs.declared.packet.HEntry.TheVariants.{Asked, Ended, Probed};
ghost use Rattle.ax_forest.specs.Entries.{history_after, IsAnswer, IsProbed};
ghost use Rattle.ax_rules.specs.Histories.{token_of};
ghost use Rattle.ax_rules.specs.Mirrors.{mirror_of};
ghost use Rattle.ax_hub.specs.BrowserCalls.{in_forest, HeldCanBeReceived};
ghost use Rattle.ax_hub.specs.Hubs.{trees_of, IsBrowserSeatOf};
ghost use Rattle.ax_stays.specs.Makers.{IsSeatFor};
ghost use Rattle.ax_hub.specs.Receipts.{IsReceipt, IsReceiptIn};

use crate::answers::named;
use crate::{BrowserSeat, Hub, HubErr};
use ax_base::{NoMemory, Token, TreeId};
use ax_forest::ProbeOut;
use ax_stays::{ForestRound, ask_in, destroy_in, hold, probe_in, receive_in};
use ax_tree::{Packet, TreeUpdate, Verdict};
use ax_turn::{Seat, Turn};
use std::sync::Wait;

impl Hub {
    /// Receives the next packet: the one that the seat holds, or else the lane's front. `None` comes where the lane was empty
    /// at one moment of this call. Without memory the seat holds the packet, and the next call takes that one.
    pub fn receive<R: Wait>(
        &self,
        rt: &R,
        seat: &mut BrowserSeat,
    ) -> Result<Option<(TreeId, Verdict)>, NoMemory>
        requires { IsBrowserSeatOf self.now seat.old }
        ensures of { IsBrowserSeatOf self.now seat.new }
        ensures receipt { IsReceipt seat.old result seat.new }
    {
        hold(rt, &self.lane, &mut seat.rx, &mut seat.held);
        receive_held(rt, &self.forest, &mut seat.seat, &mut seat.held)
    }

    /// Asks for a tree, and gives its new token, one more than the last.
    pub fn ask<R: Wait>(&self, rt: &R, seat: &mut BrowserSeat, t: TreeId) -> Result<Token, HubErr>
        requires { IsBrowserSeatOf self.now seat.old }
        ensures of { IsBrowserSeatOf self.now seat.new }
        ensures token { IfOk result (λ k. k.0 ≡ token_of seat.old.seen t + 1) }
        ensures answer { IsAnswer (trees_of self.now) seat.old.seen t (in_forest result) }
        ensures seat { seat.new ≡ record seat.old { seen = history_after (in_forest result) (Asked t) seat.old.seen } }
    {
        named(ask_in(rt, &self.forest, &mut seat.seat, t))
    }

    /// Ends a tree.
    pub fn destroy<R: Wait>(&self, rt: &R, seat: &mut BrowserSeat, t: TreeId) -> Result<(), HubErr>
        requires { IsBrowserSeatOf self.now seat.old }
        ensures of { IsBrowserSeatOf self.now seat.new }
        ensures answer { IsAnswer (trees_of self.now) seat.old.seen t (in_forest result) }
        ensures seat { seat.new ≡ record seat.old { seen = history_after (in_forest result) (Ended t) seat.old.seen } }
    {
        named(destroy_in(rt, &self.forest, &mut seat.seat, t))
    }

    /// Tries an update on a tree, which stays as it is.
    pub fn probe<R: Wait>(
        &self,
        rt: &R,
        seat: &mut BrowserSeat,
        t: TreeId,
        update: &TreeUpdate,
    ) -> Result<ProbeOut, HubErr>
        requires { IsBrowserSeatOf self.now seat.old }
        ensures of { IsBrowserSeatOf self.now seat.new }
        ensures out { IfOk result (IsProbed update.now (mirror_of seat.old.seen t)) }
        ensures answer { IsAnswer (trees_of self.now) seat.old.seen t (in_forest result) }
        ensures seat { seat.new ≡ record seat.old { seen = history_after (in_forest result) (Probed t update.now) seat.old.seen } }
    {
        named(probe_in(rt, &self.forest, &mut seat.seat, t, update))
    }
}

/// Receives the packet that is held, if one is.
fn receive_held<R: Wait>(
    rt: &R,
    turn: &Turn<ForestRound>,
    seat: &mut Seat<ForestRound>,
    held: &mut Option<Packet>,
) -> Result<Option<(TreeId, Verdict)>, NoMemory>
    requires turn { seat.old.turn ≡ turn.now }
    requires seat { IsSeatFor 0 seat.old }
    requires next { HeldCanBeReceived turn.now.name seat.old.seen held.old }
    ensures { IsReceiptIn held.old seat.old result held.new seat.new }
{
    match held.take() {
        None => Ok(None),
        Some(packet) => {
            let tree = packet.tree;
            match receive_in(rt, turn, seat, packet) {
                Ok(verdict) => Ok(Some((tree, verdict))),
                Err(refused) => {
                    *held = Some(refused.1);
                    Err(NoMemory)
                }
            }
        }
    }
}
