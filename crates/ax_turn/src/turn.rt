//! The turn itself.
ghost use Rattle.std.specs.Prelude.{◌≡◌, ℕ, ◌<◌, ◌≤◌, ◌+◌, ◌⊎◌, true, false, if◌then◌else◌, nat_lt, IfOk, IfErr, IsOkAnd};
ghost use Rattle.ax_turn.specs.Makers.{AllOwn, GrowsByOwn, GrowsByOthers, longer};

use crate::kept::Kept;
use crate::known::Known;
use crate::rule::{Cut, Learn, OneInside, Opening, Place, Release, Take, Together};
use crate::seat::{Seat, SeatOver};
use atomic_table::{Refused, Table};
use ax_base::NoMemory;
use std::alloc::Global;
use std::marker::{Brand, Model};
use std::snapshot::Snapshot;
use std::sync::Wait;
use std::thread;

/// A cell whose value is taken by one seat at a time.
///
/// Contracts see its identity, how many makers there are, and the name of its values.
#[derive(Drop)]
pub struct Turn<T: Kept> {
    table: Table<Option<T>, Known<T::Entry>, Opening<T>, OneInside, Global>,
}

impl<T: Kept> Model for Turn<T> {
    ghost use Rattle.std.specs.Prelude.{◌≡◌};
    ghost use Rattle.ax_turn.specs.Ids.{TurnId, turn_id_coded};

    ghost Value = { TurnId };

    ghost coded = { turn_id_coded };

    ghost view = { λ t. record { table = t.table.shared.table_id; makers = t.table.shared.key.makers; name = T.name t.table.shared.key.value.value } };

    ghost invariant = { λ t. (t.table.shared.table_id.words ≡ 1) × (t.table.shared.table_id.slots ≡ 1) };
}

impl<T: Kept> Turn<T> {
    /// A turn with the value at home, and its first seat, which stands for every number below `makers`. Without
    /// memory the value is given back.
    pub fn new(alloc: Global, value: T, makers: u64) -> Result<(Turn<T>, Seat<T>), (NoMemory, T)>
        requires makers { 0 < makers }
        requires made { AllOwn T.maker 0 makers (T.entries value) }
        ensures turn { IfOk result (λ made. (made.0.makers ≡ makers) × (made.0.name ≡ T.name value)) }
        ensures seat { IfOk result (λ made.
            made.1 ≡ record { turn = made.0; inside = false; seen = T.entries value; low = 0; high = makers; enters = 0 }) }
        ensures err { IfErr result (λ refused. refused.1 ≡ value) }
    {
        let Ok(mut slots) = Vec::with_capacity(alloc, 1) else {
            return Err((NoMemory, value));
        };
        let opening = Opening {
            value: Snapshot::of(&value),
            makers,
        };
        slots.push_reserved(Some(value));
        match Table::new(alloc, &[0], slots, &opening) {
            Ok((table, place)) => Ok((Turn { table }, SeatOver { place })),
            Err(Refused { mut slots }) => {
                let value = slots.pop().unwrap().unwrap();
                slots.destroy_empty();
                Err((NoMemory, value))
            }
        }
    }

    /// Waits for the turn, and takes the value. It tries until its compare and exchange has won.
    pub fn enter<R: Wait>(&self, rt: &R, seat: &mut Seat<T>) -> T
        requires seat { seat.old.turn ≡ self.now }
        requires idle { seat.old.inside ≡ false }
        requires number { seat.old.low < seat.old.high }
        ensures seat { seat.new ≡ record seat.old { inside = true; seen = T.entries result; enters = seat.old.enters + 1 } }

        // The entries begin with those that the seat had seen, and go on with entries of other makers.
        ensures begins { GrowsByOthers T.maker seat.old.low seat.old.high seat.old.seen (T.entries result) }
        ensures name { T.name result ≡ self.now.name }
    {
        for _ in rt.forever() {
            if self.table.shared.peek(0) == 0
                && self
                    .table
                    .shared
                    .compare_exchange::<Take>(&mut seat.place, 0, 0, 1)
                    == 0
            {
                return self
                    .table
                    .shared
                    .exchange(&mut seat.place, 0, None)
                    .unwrap();
            }
            thread::yield_now();
        }
        unreachable!()
    }

    /// Gives the value back with more entries, which the seat's makers made, and the turn with it.
    pub fn leave(&self, seat: &mut Seat<T>, value: T)
        requires seat { seat.old.turn ≡ self.now }
        requires inside { seat.old.inside ≡ true }
        requires grows { GrowsByOwn T.maker seat.old.low seat.old.high seat.old.seen (T.entries value) }
        requires name { T.name value ≡ self.now.name }
        ensures { seat.new ≡ record seat.old { inside = false; seen = T.entries value } }
    {
        let nothing = self.table.shared.exchange(&mut seat.place, 0, Some(value));
        let None = nothing else { unreachable!() };
        self.table.shared.store::<Release>(&mut seat.place, 0, 0);
    }

    /// Cuts the seat's numbers in two: it keeps those below `at`, and the new seat has the others. A seat that is split
    /// at its `high` gives one that stands for no number, and that serves only to be joined. It takes no memory, so
    /// `NoMemory` never comes.
    pub fn split(&self, seat: &mut Seat<T>, at: u64) -> Result<Seat<T>, NoMemory>
        requires seat { seat.old.turn ≡ self.now }
        requires idle { seat.old.inside ≡ false }
        requires place { (seat.old.low ≤ at) × (at ≤ seat.old.high) }
        ensures kept { seat.new ≡ record seat.old { high = at } }
        ensures given { IsOkAnd result (λ given. given ≡ record seat.old { low = at; enters = 0 }) }
    {
        Ok(self.split_at::<Brand>(seat, at))
    }

    fn split_at<P: Place>(&self, seat: &mut Seat<T>, at: u64) -> Seat<T>
        requires at { at ≡ P.at }
        requires seat { seat.old.turn ≡ self.now }
        requires idle { seat.old.inside ≡ false }
        requires place { (seat.old.low ≤ at) × (at ≤ seat.old.high) }
        ensures kept { seat.new ≡ record seat.old { high = at } }
        ensures given { result ≡ record seat.old { low = at; enters = 0 } }
    {
        SeatOver {
            place: self.table.shared.split_seat::<Cut<P>>(&mut seat.place),
        }
    }

    /// Gives the seat the other's numbers too, and the longer of the lists that the two have seen.
    pub fn join(&self, seat: &mut Seat<T>, other: Seat<T>)
        requires seats { (seat.old.turn ≡ self.now) × (other.turn ≡ self.now) }
        requires idle { (seat.old.inside ≡ false) × (other.inside ≡ false) }
        requires beside { (other.high ≤ other.low) ⊎ (other.low ≡ seat.old.high) }
        ensures seat { seat.new ≡ record seat.old {
          seen = longer seat.old.seen other.seen;
          high = if nat_lt other.low other.high then other.high else seat.old.high;
          enters = seat.old.enters + other.enters;
        } }

        // Each list begins the longer, and beyond it stand entries of makers for which its own seat did not stand.
        ensures first { GrowsByOthers T.maker seat.old.low seat.old.high seat.old.seen seat.new.seen }
        ensures second { GrowsByOthers T.maker other.low other.high other.seen seat.new.seen }
    {
        let SeatOver { place } = other;
        self.table
            .shared
            .join_seat::<Together>(&mut seat.place, place);
        self.table.shared.load::<Learn>(&mut seat.place, 0);
    }

    /// Ends the turn by the seat that stands for every number, and gives the value back. No entry stands beyond those
    /// that the seat has seen.
    pub fn close_with(self, seat: Seat<T>) -> T
        requires seat { seat.turn ≡ self }
        requires idle { seat.inside ≡ false }
        requires all { (seat.low ≡ 0) × (seat.high ≡ self.makers) }
        ensures entries { T.entries result ≡ seat.seen }
        ensures name { T.name result ≡ self.name }
    {
        let Turn { table } = self;
        let SeatOver { place } = seat;
        let mut closed = table.close_with(place);
        let value = closed.take(0).unwrap();
        closed.free();
        value
    }
}
