//! A new hub.
ghost use Rattle.std.specs.Prelude.{◌≡◌, ◌<◌, ◌≤◌, ◌+◌, ◌^◌, ◌∷◌, [], length, map, All, IfOk, OnOk};
ghost use Rattle.ax_trees.specs.Lists.{NoneTwice};
ghost use Rattle.ax_lane.specs.Ends.{new_sender};
ghost use Rattle.ax_hub.specs.Hubs.{trees_of, IsFrameSeatOf, IsBrowserSeatOf, IsReaderSeatOf};
ghost use Rattle.ax_stays.specs.Makers.{new_seat};
ghost use Rattle.ax_hub.specs.Opening.{new_frame_seat, new_browser_seat, AreNewFrames, AreNewReaders, IsFrameAdded};

use crate::hub::{Hub, HubParts};
use crate::lists::take_last;
use crate::places::Places;
use crate::seats::{BrowserSeat, FrameSeat, FrameSeats, ReaderSeat, ReaderSeats};
use ax_base::{NoMemory, TreeId};
use ax_lane::{Lane, LaneParts, Senders, Tx};
use ax_stays::{ForestRound, FrameRound};
use ax_turn::{Seat, Turn};
use std::alloc::Global;
use std::sync::Wait;

impl Hub {
    /// A hub for these trees, with a seat for each frame in their order, the browser's seat, and a seat for each reader. All
    /// frames are empty, and all trees are live and empty. It waits for nothing.
    pub fn new<R: Wait>(
        rt: &R,
        alloc: Global,
        trees: &[TreeId],
        readers: usize,
    ) -> Result<HubParts, NoMemory>
        requires some { 1 ≤ length trees.now }
        requires once { NoneTwice trees.now }
        ensures trees { IfOk result (λ parts. trees_of parts.hub ≡ trees.now) }
        ensures makers { IfOk result (λ parts. parts.hub.forest.makers ≡ readers + 1) }
        ensures frames { IfOk result (λ parts. AreNewFrames parts.hub.lane 0 trees.now parts.hub.frames parts.frames.items) }
        ensures browser { IfOk result (λ parts. parts.browser ≡ new_browser_seat parts.hub) }
        ensures readers { IfOk result (λ parts. AreNewReaders parts.hub.forest 1 readers parts.readers.items) }
        ensures frame_seats { IfOk result (λ parts. All (IsFrameSeatOf parts.hub) parts.frames.items) }
        ensures browser_seat { IfOk result (λ parts. IsBrowserSeatOf parts.hub parts.browser) }
        ensures reader_seats { IfOk result (λ parts. All (IsReaderSeatOf parts.hub) parts.readers.items) }
    {
        let LaneParts {
            lane,
            senders,
            taker,
        } = Lane::new(rt, alloc, trees)?;
        let side = frame_side(alloc, &lane, trees, senders)?;
        let (forest, seat, readers) = forest_side(alloc, trees, readers)?;
        let places = Places::new(alloc, trees)?;
        let FrameSide {
            turns,
            seats,
            deliveries,
        } = side;
        Ok(HubParts {
            hub: Hub {
                frames: turns,
                forest,
                lane,
                places,
                alloc,
            },
            frames: seats,
            browser: BrowserSeat {
                seat,
                rx: taker,
                held: None,
                deliveries,
            },
            readers,
        })
    }
}

/// The frames' turns with both seats of each, in the order of the trees.
#[derive(Drop)]
struct FrameSide {
    turns: Vec<Turn<FrameRound>>,
    seats: FrameSeats,
    deliveries: Vec<Seat<FrameRound>>,
}

/// A frame's turn, the frame's seat and the browser's.
fn frame_turn(
    alloc: Global,
    tree: TreeId,
) -> Result<(Turn<FrameRound>, Seat<FrameRound>, Seat<FrameRound>), NoMemory>
    ensures turn { IfOk result (λ made. (made.0.makers ≡ 2) × (made.0.name ≡ tree ∷ [])) }
    ensures own { IfOk result (λ made. made.1 ≡ new_seat made.0 0 1) }
    ensures told { IfOk result (λ made. made.2 ≡ new_seat made.0 1 2) }
{
    match Turn::new(alloc, FrameRound::new(alloc, tree), 2) {
        Ok((turn, mut own)) => {
            let told = turn.split(&mut own, 1)?;
            Ok((turn, own, told))
        }
        Err(_) => Err(NoMemory),
    }
}

fn frame_side(
    alloc: Global,
    lane: &Lane,
    trees: &[TreeId],
    mut senders: Senders,
) -> Result<FrameSide, NoMemory>
    requires { senders.items ≡ map (new_sender lane.now) trees.now }
    ensures seats { IfOk result (λ side. AreNewFrames lane.now 0 trees.now side.turns.items side.seats.items) }
    ensures deliveries { IfOk result (λ side. side.deliveries.items ≡ map (λ turn. new_seat turn 1 2) side.turns.items) }
{
    let _lane = lane;
    let mut side = FrameSide {
        turns: Vec::new(alloc),
        seats: Vec::new(alloc),
        deliveries: Vec::new(alloc),
    };
    senders.reverse();
    for tree in trees {
        let tx = take_last(&mut senders);
        add_frame(alloc, &mut side, *tree, tx)?;
    }
    Ok(side)
}

/// Puts the frame of a tree at the end.
fn add_frame(alloc: Global, side: &mut FrameSide, tree: TreeId, tx: Tx) -> Result<(), NoMemory>
    requires { tx ≡ new_sender tx.lane tree }
    ensures { OnOk result (IsFrameAdded tx.lane tree side.old.turns.items side.new.turns.items side.old.seats.items side.new.seats.items side.old.deliveries.items side.new.deliveries.items) }
{
    let (turn, own, told) = frame_turn(alloc, tree)?;
    let at = side.seats.len();
    let seat = FrameSeat {
        at,
        seat: own,
        tx,
        kept: None,
    };
    side.turns.push(turn)?;
    side.seats.push(seat)?;
    side.deliveries.push(told)?;
    Ok(())
}

/// The forest's turn, the browser's seat and the readers'.
fn forest_side(
    alloc: Global,
    trees: &[TreeId],
    readers: usize,
) -> Result<(Turn<ForestRound>, Seat<ForestRound>, ReaderSeats), NoMemory>
    requires some { 1 ≤ length trees.now }
    requires once { NoneTwice trees.now }
    ensures turn { IfOk result (λ made. (made.0.makers ≡ readers + 1) × (made.0.name ≡ trees.now)) }
    ensures browser { IfOk result (λ made. made.1 ≡ new_seat made.0 0 1) }
    ensures readers { IfOk result (λ made. AreNewReaders made.0 1 readers made.2.items) }
{
    let round = ForestRound::new(alloc, trees)?;
    // More makers than `u64` counts want more memory than there is.
    let Some(makers) = (readers as u64).checked_add(1) else {
        return Err(NoMemory);
    };
    match Turn::new(alloc, round, makers) {
        Ok((turn, mut browser)) => {
            let rest = turn.split(&mut browser, 1)?;
            let seats = reader_seats(alloc, &turn, rest, readers)?;
            Ok((turn, browser, seats))
        }
        Err(_) => Err(NoMemory),
    }
}

/// A seat for each number from 1 on.
fn reader_seats(
    alloc: Global,
    turn: &Turn<ForestRound>,
    mut rest: Seat<ForestRound>,
    readers: usize,
) -> Result<ReaderSeats, NoMemory>
    requires rest { rest ≡ new_seat turn.now 1 (readers + 1) }
    requires fits { readers + 1 < 2 ^ 64 }
    ensures { IfOk result (λ seats. AreNewReaders turn.now 1 readers seats.items) }
{
    let mut seats = Vec::new(alloc);
    for at in 0..readers {
        let number = at as u64 + 1;
        let later = turn.split(&mut rest, number + 1)?;
        let seat = std::mem::replace(&mut rest, later);
        seats.push(ReaderSeat { number, seat })?;
    }
    Ok(seats)
}
