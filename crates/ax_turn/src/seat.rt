//! Seats.
use crate::kept::Kept;
use crate::known::Known;
use std::marker::Model;

/// A place at a turn of values `T` with entries `E`. It takes no bytes.
///
/// Contracts see which turn it is of, whether it is inside, the entries that it has seen, the numbers of makers for
/// which it stands, from `low` to before `high`, and how often it has entered.
#[derive(Drop)]
pub struct SeatOver<T, E> {
    pub(crate) place: atomic_table::Seat<Option<T>, Known<E>>,
}

impl<T, E> Model for SeatOver<T, E> {
    ghost use Rattle.ax_turn.specs.Seats.{SeatView, seat_view_coded, seat_view, IsSeatWhole};

    ghost Value = { SeatView E };

    ghost coded = { seat_view_coded E.code };

    ghost view = { λ s. seat_view s.place };

    ghost invariant = { λ s. IsSeatWhole s.place };
}

/// A seat of a `Turn<T>`.
pub type Seat<T> = SeatOver<T, <T as Kept>::Entry>;
