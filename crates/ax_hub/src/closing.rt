//! The end of a hub.
ghost use Rattle.std.specs.Prelude.{◌≡◌, ◌≤◌, ◌+◌, ℕ, false, ◌++◌, ◌∷◌, [], map, slice_get, option_to_list, Some, All, IfOk, OnOk};
ghost use Rattle.ax_turn.specs.Ids.{TurnId};
ghost use Rattle.ax_turn.specs.Makers.{GrowsByOthers};
ghost use Rattle.ax_turn.specs.Seats.{SeatView};
ghost use Rattle.ax_tree.specs.declared.packet.JEntry.{JEntry as EntryOf};
ghost use Rattle.ax_lane.specs.Packets.{AllOf};
ghost use Rattle.ax_hub.specs.Closing.{AreAllReaders, AreFramesClosed, AreMade, AreSeatsClosed, AreWaiting, IsHistoryOf, IsMoreClosed, IsWaiting, PacketsFit, kept_packets, turn_of};
ghost use Rattle.ax_stays.specs.FrameCalls.{packets_in};
ghost use Rattle.ax_hub.specs.Hubs.{trees_of, IsBrowserSeatOf};
ghost use Rattle.ax_stays.specs.Makers.{maker_of, IsSeatFor};
ghost use Rattle.ax_taken.specs.Taking.{cuts_of};

use crate::Hub;
use crate::lists::take_last;
use crate::seats::{BrowserSeat, FrameSeat, FrameSeats, ReaderSeat, ReaderSeats};
use ax_base::NoMemory;
use ax_forest::{Forest, ForestParts};
use ax_frame::{Frame, Frames};
use ax_lane::{Lane, Packets, Rx, Senders};
use ax_stays::{ForestRound, FrameRound, Made, Parcel};
use ax_tree::Packet;
use ax_turn::{Seat, Turn};
use std::alloc::Global;
use std::sync::Wait;

/// What a closed hub leaves.
#[derive(Drop)]
pub struct ClosedHub {
    /// The frames in the order of the trees.
    pub frames: Frames,
    /// For each frame, and there for each packet that it made, how many entries of the journal stand up to and with the pass that
    /// made it.
    pub made: Vec<Made>,
    /// The forest, and the packets that weren't received, of each tree in the order of their passes.
    pub forest: ForestParts,
}

impl Hub {
    /// Ends the hub by all its seats, in the order in which [`Hub::new`] gave them. What wasn't received is the packet that the
    /// browser holds, then those in the lane, and then those that the frames' seats keep. Without memory all is given up.
    pub fn close<R: Wait>(
        self,
        rt: &R,
        frames: FrameSeats,
        browser: BrowserSeat,
        readers: ReaderSeats,
    ) -> Result<ClosedHub, NoMemory>
        requires turns { map turn_of frames.items ≡ self.frames }
        requires lane { All (λ s. s.lane ≡ self.lane) frames.items }
        requires browser { IsBrowserSeatOf self browser }
        requires readers { AreAllReaders self.forest readers.items }

        // Each seat's list begins the whole, and beyond it stands no entry of the seat's maker. So each maker's entries are
        // those of its calls, in their order.
        ensures frames { IfOk result (λ closed. AreFramesClosed frames.items browser.deliveries closed.frames.items) }
        ensures history { IfOk result (λ closed. closed.forest.forest ≡ record { trees = trees_of self; history = browser.seen }) }
        ensures readers { IfOk result (λ closed. All (IsHistoryOf closed.forest.forest.history) readers.items) }

        // The frames have the trees, in their order. Of each tree the packets received, and then those that wait, fit its journal.
        ensures trees { IfOk result (λ closed. map (λ f. f.tree) closed.frames.items ≡ trees_of self) }
        ensures fit { IfOk result (λ closed. All (PacketsFit closed.forest.forest.history closed.forest.waiting.items) closed.frames.items) }
        ensures known { IfOk result (λ closed. AllOf (trees_of self) closed.forest.waiting.items) }
        ensures waiting { IfOk result (λ closed. IsWaiting browser.held (kept_packets frames.items) closed.forest.waiting.items) }

        // The order that the hub took is made of these.
        ensures made { IfOk result (λ closed. AreMade closed.frames.items closed.made.items) }
    {
        let Hub {
            frames: turns,
            forest,
            lane,
            places: _,
            alloc,
        } = self;
        let BrowserSeat {
            seat,
            rx,
            held,
            deliveries,
        } = browser;
        let forest = close_forest(forest, seat, readers);
        let closed = close_frames(alloc, turns, frames, deliveries)?;
        let ClosedFrames {
            frames,
            made,
            senders,
            kept,
        } = closed;
        let waiting = waiting_in(rt, alloc, lane, senders, rx, held, kept)?;
        Ok(ClosedHub {
            frames,
            made,
            forest: ForestParts { forest, waiting },
        })
    }
}

/// The forest, by the seats of the browser and of all readers.
fn close_forest(
    turn: Turn<ForestRound>,
    mut seat: Seat<ForestRound>,
    mut readers: ReaderSeats,
) -> Forest
    requires turn { seat.turn ≡ turn }
    requires seat { IsSeatFor 0 seat }
    requires readers { AreAllReaders turn readers.items }
    ensures forest { result ≡ record { trees = turn.name; history = seat.seen } }
    ensures readers { All (IsHistoryOf seat.seen) readers.items }
{
    readers.reverse();
    while let Some(reader) = readers.pop() {
        join_reader(&turn, &mut seat, reader);
    }
    turn.close_with(seat).into_forest()
}

/// Joins the seat of the reader of the next number. No entry was missed.
fn join_reader(turn: &Turn<ForestRound>, seat: &mut Seat<ForestRound>, reader: ReaderSeat)
    requires turns { (seat.old.turn ≡ turn.now) × (reader.turn ≡ turn.now) }
    requires seat { (seat.old.inside ≡ false) × (seat.old.low ≡ 0) × (seat.old.high ≡ reader.number) }
    requires number { 1 ≤ reader.number }
    ensures seat { seat.new ≡ record seat.old { high = reader.number + 1; enters = seat.new.enters } }
    ensures history { IsHistoryOf seat.old.seen reader }
{
    let ReaderSeat {
        number: _,
        seat: other,
    } = reader;
    turn.join(seat, other);
}

/// What the frames leave.
#[derive(Drop)]
struct ClosedFrames {
    frames: Frames,
    made: Vec<Made>,
    senders: Senders,
    kept: Packets,
}

fn close_frames(
    alloc: Global,
    mut turns: Vec<Turn<FrameRound>>,
    mut seats: FrameSeats,
    mut deliveries: Vec<Seat<FrameRound>>,
) -> Result<ClosedFrames, NoMemory>
    requires turns { map turn_of seats.items ≡ turns.items }
    requires told { map (λ (d : SeatView EntryOf). d.turn) deliveries.items ≡ turns.items }
    requires makers { (at : ℕ) (turn : TurnId) → slice_get turns.items at ≡ Some turn → turn.makers ≡ 2 }
    requires delivers { (at : ℕ) (d : SeatView EntryOf) → slice_get deliveries.items at ≡ Some d → IsSeatFor 1 d }
    ensures closed { IfOk result (λ closed. AreSeatsClosed seats.items deliveries.items closed.frames.items closed.senders.items) }
    ensures kept { IfOk result (λ closed. closed.kept.items ≡ kept_packets seats.items) }
    ensures made { IfOk result (λ closed. AreMade closed.frames.items closed.made.items) }
{
    let mut closed = ClosedFrames {
        frames: Vec::new(alloc),
        made: Vec::new(alloc),
        senders: Vec::new(alloc),
        kept: Vec::new(alloc),
    };
    turns.reverse();
    seats.reverse();
    deliveries.reverse();
    while let Some(turn) = turns.pop() {
        let seat = take_last(&mut seats);
        let other = take_last(&mut deliveries);
        add_closed(&mut closed, turn, seat, other)?;
    }
    Ok(closed)
}

fn add_closed(
    closed: &mut ClosedFrames,
    turn: Turn<FrameRound>,
    seat: FrameSeat,
    other: Seat<FrameRound>,
) -> Result<(), NoMemory>
    requires makers { turn.makers ≡ 2 }
    requires turns { (seat.turn ≡ turn) × (other.turn ≡ turn) }
    requires other { IsSeatFor 1 other }
    ensures closed { OnOk result (IsMoreClosed seat other closed.old.frames.items closed.new.frames.items closed.old.senders.items closed.new.senders.items) }
    ensures kept { OnOk result (closed.new.kept.items ≡ closed.old.kept.items ++ packets_in seat.kept) }
    ensures made { OnOk result (AreMade closed.old.frames.items closed.old.made.items → AreMade closed.new.frames.items closed.new.made.items) }
{
    let FrameSeat {
        at: _,
        seat,
        tx,
        kept,
    } = seat;
    let (frame, made) = close_frame(turn, seat, other);
    closed.frames.push(frame)?;
    closed.made.push(made)?;
    closed.senders.push(tx)?;
    keep(&mut closed.kept, kept)
}

/// Adds the packet of a parcel, if there is one.
fn keep(packets: &mut Packets, parcel: Option<Parcel>) -> Result<(), NoMemory>
    ensures { OnOk result (packets.new.items ≡ packets.old.items ++ packets_in parcel) }
{
    match parcel {
        Some(Parcel { packet, note: _ }) => {
            packets.push(packet)?;
            Ok(())
        }
        None => Ok(()),
    }
}

/// A frame, by its own seat and the browser's in its turn, and the places of the passes that made its packets.
fn close_frame(
    turn: Turn<FrameRound>,
    mut seat: Seat<FrameRound>,
    other: Seat<FrameRound>,
) -> (Frame, Made)
    requires makers { turn.makers ≡ 2 }
    requires turns { (seat.turn ≡ turn) × (other.turn ≡ turn) }
    requires seat { IsSeatFor 0 seat }
    requires other { IsSeatFor 1 other }
    ensures tree { result.0.tree ∷ [] ≡ turn.name }
    ensures own { GrowsByOthers maker_of 0 1 seat.seen result.0.journal }
    ensures told { GrowsByOthers maker_of 1 2 other.seen result.0.journal }
    ensures made { result.1 ≡ cuts_of result.0.tree result.0.journal }
{
    turn.join(&mut seat, other);
    turn.close_with(seat).into_parts()
}

/// The packets that weren't received, of each tree in the order of their passes.
fn waiting_in<R: Wait>(
    rt: &R,
    alloc: Global,
    lane: Lane,
    senders: Senders,
    rx: Rx,
    held: Option<Packet>,
    kept: Packets,
) -> Result<Packets, NoMemory>
    requires taker { rx.lane ≡ lane }
    requires senders { All (λ t. t.lane ≡ lane) senders.items }
    ensures { IfOk result (λ waiting. AreWaiting rx.trees rx.got (option_to_list held) kept.items waiting.items senders.items) }
{
    let mut waiting = held_in(alloc, held)?;
    let left = lane.close(rt, senders, rx)?;
    add_all(&mut waiting, left)?;
    add_all(&mut waiting, kept)?;
    Ok(waiting)
}

fn held_in(alloc: Global, held: Option<Packet>) -> Result<Packets, NoMemory>
    ensures { IfOk result (λ packets. packets.items ≡ option_to_list held) }
{
    let mut packets = Vec::new(alloc);
    match held {
        Some(packet) => {
            packets.push(packet)?;
            Ok(packets)
        }
        None => Ok(packets),
    }
}

fn add_all(packets: &mut Packets, more: Packets) -> Result<(), NoMemory>
    ensures { OnOk result (packets.new.items ≡ packets.old.items ++ more.items) }
{
    for packet in more {
        packets.push(packet)?;
    }
    Ok(())
}
