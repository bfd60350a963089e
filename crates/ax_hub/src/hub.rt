//! The hub.
use crate::places::Places;
use crate::seats::{BrowserSeat, FrameSeats, ReaderSeats};
use ax_lane::Lane;
use ax_stays::{ForestRound, FrameRound};
use ax_turn::Turn;
use std::alloc::Global;
use std::marker::Model;

/// What the threads share: the turn of each frame, the turn of the forest, and the lane.
///
/// Contracts see which turns and which lane they are. The name of a frame's turn is its tree's number alone, and that of the
/// forest's turn is the numbers of all trees, in their order.
#[derive(Drop)]
pub struct Hub {
    pub(crate) frames: Vec<Turn<FrameRound>>,
    pub(crate) forest: Turn<ForestRound>,
    pub(crate) lane: Lane,
    pub(crate) places: Places,
    pub(crate) alloc: Global,
}

impl Model for Hub {
    ghost use Rattle.ax_hub.specs.Hubs.{HubView, IsHubWhole};

    ghost Value = { HubView };

    ghost view = { λ h. record { frames = h.frames.items; forest = h.forest; lane = h.lane } };

    ghost invariant = { λ h. IsHubWhole h.frames.items h.forest h.places };
}

/// A new hub with its seats.
pub struct HubParts {
    pub hub: Hub,
    pub frames: FrameSeats,
    pub browser: BrowserSeat,
    pub readers: ReaderSeats,
}
