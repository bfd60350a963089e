//! The calls of a frame's seat.
ghost use Rattle.std.specs.Prelude.{◌≡◌, None};
ghost use Rattle.ax_tree.specs.declared.packet.JEntry.TheVariants.{Marked, MarkedBelow};
ghost use Rattle.ax_tree.specs.Edits.{HasLeaf};
ghost use Rattle.ax_stays.specs.FrameCalls.{edit_entries, mark_entries, IsEditAnswer, IsMarkAnswer};
ghost use Rattle.ax_hub.specs.Hubs.{IsFrameSeatOf};
ghost use Rattle.ax_stays.specs.Makers.{maker_of};
ghost use Rattle.ax_hub.specs.Passed.{IsMadeInto, IsPassed, IsSameFrame, IsSentFrom};
ghost use Rattle.ax_stays.specs.Stays.{Stay};

use crate::{FrameSeat, Hub};
use ax_ask::PassNote;
use ax_base::{NoMemory, NodeId};
use ax_stays::{edit_in, mark_below_in, mark_in, pass_in, send_kept};
use ax_tree::{Edit, EditErr, MarkErr};
use std::sync::Wait;

impl Hub {
    /// Makes an edit of the frame's source, as the edit rule says of the journal before it.
    pub fn edit<R: Wait>(&self, rt: &R, seat: &mut FrameSeat, e: &Edit) -> Result<(), EditErr>
        requires seat { IsFrameSeatOf self.now seat.old }
        requires leaf { HasLeaf e.now }
        ensures of { IsFrameSeatOf self.now seat.new }
        ensures seat { seat.new ≡ record seat.old { seen = seat.new.seen } }
        ensures stay { Stay maker_of 0 1 seat.old.seen (edit_entries e.now result) seat.new.seen (IsEditAnswer seat.old.tree e.now result) }
    {
        edit_in(rt, &self.frames[seat.at], &mut seat.seat, e)
    }

    /// Marks a node of the frame's source.
    pub fn mark<R: Wait>(&self, rt: &R, seat: &mut FrameSeat, id: NodeId) -> Result<(), MarkErr>
        requires { IsFrameSeatOf self.now seat.old }
        ensures of { IsFrameSeatOf self.now seat.new }
        ensures seat { seat.new ≡ record seat.old { seen = seat.new.seen } }
        ensures stay { Stay maker_of 0 1 seat.old.seen (mark_entries (Marked id) result) seat.new.seen (IsMarkAnswer seat.old.tree id result) }
    {
        mark_in(rt, &self.frames[seat.at], &mut seat.seat, id)
    }

    /// Marks a node of the frame's source and all below it.
    pub fn mark_below<R: Wait>(
        &self,
        rt: &R,
        seat: &mut FrameSeat,
        id: NodeId,
    ) -> Result<(), MarkErr>
        requires { IsFrameSeatOf self.now seat.old }
        ensures of { IsFrameSeatOf self.now seat.new }
        ensures seat { seat.new ≡ record seat.old { seen = seat.new.seen } }
        ensures stay { Stay maker_of 0 1 seat.old.seen (mark_entries (MarkedBelow id) result) seat.new.seen (IsMarkAnswer seat.old.tree id result) }
    {
        mark_below_in(rt, &self.frames[seat.at], &mut seat.seat, id)
    }

    /// Sends what has changed, and tells what it sent. Where the frame finds no memory it keeps the updates that it has made,
    /// and the next pass completes the bundle. Where the send finds no memory the seat keeps the packet, and the next pass
    /// sends that one and makes none.
    pub fn pass<R: Wait>(&self, rt: &R, seat: &mut FrameSeat) -> Result<PassNote, NoMemory>
        requires { IsFrameSeatOf self.now seat.old }
        ensures of { IsFrameSeatOf self.now seat.new }
        ensures same { IsSameFrame seat.old seat.new }
        ensures passed { IsPassed seat.old result seat.new }
    {
        if seat.kept.is_some() {
            return self.send(rt, seat);
        }
        self.make(rt, seat)?;
        self.send(rt, seat)
    }

    /// Makes a parcel, which the seat keeps, where there is something to send.
    fn make<R: Wait>(&self, rt: &R, seat: &mut FrameSeat) -> Result<(), NoMemory>
        requires seat { IsFrameSeatOf self.now seat.old }
        requires none { seat.old.kept ≡ None }
        ensures { IsMadeInto seat.old result seat.new }
    {
        match pass_in(rt, &self.frames[seat.at], &mut seat.seat) {
            Ok(made) => {
                seat.kept = made;
                Ok(())
            }
            Err(NoMemory) => Err(NoMemory),
        }
    }

    fn send<R: Wait>(&self, rt: &R, seat: &mut FrameSeat) -> Result<PassNote, NoMemory>
        requires { IsFrameSeatOf self.now seat.old }
        ensures { IsSentFrom seat.old result seat.new }
    {
        send_kept(rt, &self.lane, &mut seat.tx, &mut seat.kept)
    }
}
