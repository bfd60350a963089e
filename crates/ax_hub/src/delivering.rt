//! Deliveries of tokens, and what the browser tells a reader.
ghost use Rattle.std.specs.Prelude.{◌≡◌};
ghost use Rattle.std.specs.Result.{IsOk};
ghost use Rattle.ax_rules.specs.Laws.{Begins};
ghost use Rattle.ax_turn.specs.Makers.{longer};
ghost use Rattle.ax_hub.specs.Deliveries.{told_by, IsDelivery};
ghost use Rattle.ax_hub.specs.Hubs.{trees_of, IsBrowserSeatOf, IsReaderSeatOf};

use crate::{BrowserSeat, Hub, HubErr, ReaderSeat};
use ax_base::{NoMemory, Token, TreeId};
use ax_stays::deliver_in;
use std::sync::Wait;

impl Hub {
    /// Tells the tree's frame a token, by the browser's seat in the frame's turn. The frame's next pass sends the whole tree.
    pub fn deliver<R: Wait>(
        &self,
        rt: &R,
        seat: &mut BrowserSeat,
        t: TreeId,
        n: Token,
    ) -> Result<(), HubErr>
        requires { IsBrowserSeatOf self.now seat.old }
        ensures of { IsBrowserSeatOf self.now seat.new }
        ensures told { IsDelivery (trees_of self.now) t n seat.old result seat.new }
    {
        let Some(at) = self.places.place_of(t) else {
            return Err(HubErr::NoTree(t));
        };
        let answer = deliver_in(rt, &self.frames[at], &mut seat.deliveries[at], n);
        told(answer)
    }

    /// Tells a reader what the browser has seen. Its next snapshot then begins with all that. It waits for nothing and takes no
    /// memory.
    pub fn tell(&self, from: &mut BrowserSeat, to: &mut ReaderSeat) -> Result<(), NoMemory>
        requires from { IsBrowserSeatOf self.now from.old }
        requires to { IsReaderSeatOf self.now to.old }
        ensures ok { IsOk result }
        ensures from { from.new ≡ from.old }
        ensures to { to.new ≡ record to.old { seen = longer to.old.seen from.old.seen } }
        ensures own { Begins to.new.seen to.old.seen }
        ensures told { Begins to.new.seen from.old.seen }
    {
        let note = self.forest.split(&mut from.seat, 1)?;
        self.forest.join(&mut to.seat, note);
        Ok(())
    }
}

fn told(answer: Result<(), NoMemory>) -> Result<(), HubErr>
    ensures { result ≡ told_by answer }
{
    match answer {
        Ok(()) => Ok(()),
        Err(NoMemory) => Err(HubErr::NoMemory),
    }
}
