//! The seats of a hub.
ghost use Rattle.std.specs.Prelude.{◌≡◌};

use ax_lane::{Rx, Tx};
use ax_stays::{ForestRound, FrameRound, Parcel};
use ax_tree::Packet;
use ax_turn::Seat;
use std::marker::Model;

/// The seat of a frame. It makes the frame's edits, touches and passes.
///
/// Contracts see its place among the frames, its turn and its lane, its tree, the entries of the journal that it has seen,
/// the packets that it has sent, and the one that a pass made and couldn't send for want of memory.
#[derive(Drop)]
pub struct FrameSeat {
    pub(crate) at: usize,
    pub(crate) seat: Seat<FrameRound>,
    pub(crate) tx: Tx,
    pub(crate) kept: Option<Parcel>,
}

impl Model for FrameSeat {
    ghost use Rattle.ax_hub.specs.Seats.{FrameSeatView, frame_seat_view, IsFrameSeatWhole};

    ghost Value = { FrameSeatView };

    ghost view = { λ s. frame_seat_view s.at s.seat s.tx s.kept };

    ghost invariant = { λ s. IsFrameSeatWhole s.seat s.tx s.kept };
}

/// The seats of the frames, in the order of their trees.
pub type FrameSeats = Vec<FrameSeat>;

/// The seat of the browser. It receives packets, asks for trees, ends and probes them, and delivers tokens to frames.
///
/// Contracts see its turn and its lane, the entries of the history that it has seen, the packet that it took out of the lane
/// and couldn't receive for want of memory, how often it has found the lane empty, and its seats in the frames' turns.
#[derive(Drop)]
pub struct BrowserSeat {
    pub(crate) seat: Seat<ForestRound>,
    pub(crate) rx: Rx,
    pub(crate) held: Option<Packet>,
    pub(crate) deliveries: Vec<Seat<FrameRound>>,
}

impl Model for BrowserSeat {
    ghost use Rattle.ax_hub.specs.Seats.{BrowserSeatView, browser_seat_view, IsBrowserSeatWhole};

    ghost Value = { BrowserSeatView };

    ghost view = { λ s. browser_seat_view s.seat s.rx s.held s.deliveries.items };

    ghost invariant = { λ s. IsBrowserSeatWhole s.seat s.rx s.held s.deliveries.items };
}

impl BrowserSeat {
    /// How often a receipt has found the lane empty, up to the end of `u64`.
    pub fn lulls(&self) -> u64
        ensures { result ≡ self.now.lulls }
    {
        self.rx.lulls()
    }
}

/// The seat of a reader. It takes snapshots and adds nothing.
///
/// Contracts see its turn, its number, the entries of the history that it has seen, and how often it has entered.
#[derive(Drop)]
pub struct ReaderSeat {
    pub(crate) number: u64,
    pub(crate) seat: Seat<ForestRound>,
}

impl Model for ReaderSeat {
    ghost use Rattle.ax_hub.specs.Seats.{ReaderSeatView, reader_seat_view};
    ghost use Rattle.ax_stays.specs.Makers.{IsSeatFor};

    ghost Value = { ReaderSeatView };

    ghost view = { λ s. reader_seat_view s.number s.seat };

    ghost invariant = { λ s. IsSeatFor s.number s.seat };
}

impl ReaderSeat {
    /// The reader's number, from 1.
    pub fn number(&self) -> u64
        ensures { result ≡ self.now.number }
    {
        self.number
    }
}

/// The seats of the readers, in the order of their numbers.
pub type ReaderSeats = Vec<ReaderSeat>;
