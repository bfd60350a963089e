//! Snapshots.
ghost use Rattle.std.specs.Prelude.{◌≡◌, ◌+◌, IfOk};
ghost use Rattle.ax_turn.specs.Makers.{GrowsByOthers};
ghost use Rattle.ax_hub.specs.Hubs.{trees_of, IsReaderSeatOf};
ghost use Rattle.ax_stays.specs.Makers.{by_browser};

use crate::{Hub, ReaderSeat, Snap};
use ax_base::NoMemory;
use ax_stays::look_in;
use std::sync::Wait;

impl Hub {
    /// The forest at what the seat then has seen, which begins with all that it had seen. The turn is entered, the forest is
    /// shared, and the turn is left at once: no page, mirror or list is copied there. Constant time beside the wait.
    pub fn snapshot<R: Wait>(&self, rt: &R, seat: &mut ReaderSeat) -> Result<Snap, NoMemory>
        requires { IsReaderSeatOf self.now seat.old }
        ensures of { IsReaderSeatOf self.now seat.new }
        ensures snap { IfOk result (λ snap. snap ≡ record { trees = trees_of self.now; history = seat.new.seen }) }
        ensures seat { seat.new ≡ record seat.old { seen = seat.new.seen; enters = seat.old.enters + 1 } }
        ensures begins { GrowsByOthers by_browser seat.old.number (seat.old.number + 1) seat.old.seen seat.new.seen }
    {
        let look = look_in(rt, self.alloc, &self.forest, &mut seat.seat, seat.number)?;
        Snap::of(self.alloc, look)
    }
}
