//! The rule of a turn, and what each of its steps tells.

ghost use Rattle.std.specs.Prelude.{ℕ};

use crate::kept::Kept;
use crate::known::Known;
use atomic_table::{Join, Play, Split, TableRule};
use std::marker::{Brand, PhantomData};
use std::snapshot::Snapshot;

/// What a turn is told when it is made, and keeps: its first value, of which the proofs alone know, and how many
/// makers there are.
pub struct Opening<T> {
    pub value: Snapshot<T>,
    pub makers: u64,
}

impl<T> Drop for Opening<T> {
    fn drop(self) {
        let Self {
            value: _,
            makers: _,
        } = self;
    }
}

/// The rule.
pub struct OneInside;

impl<T: Kept> TableRule<Option<T>, Known<T::Entry>, Opening<T>> for OneInside {
    ghost use Rattle.ax_turn.specs.Rule.{Turned, newcomer};

    ghost holds = { λ key. Turned T.entries T.maker T.name key.makers (T.name key.value.value) };

    ghost first = { λ key. newcomer (T.entries key.value.value) key.makers (T.name key.value.value) };
}

/// To take the turn, and the slot with it.
pub(crate) struct Take;

impl<T: Kept> Play<Option<T>, Known<T::Entry>> for Take {
    ghost use Rattle.ax_turn.specs.Rule.{took};

    ghost then = { took T.entries T.maker T.name };
}

/// To give the turn back, and the slot with it.
pub(crate) struct Release;

impl<T: Kept> Play<Option<T>, Known<T::Entry>> for Release {
    ghost use Rattle.ax_turn.specs.Rule.{released};

    ghost then = { released T.entries T.maker T.name };
}

/// To learn after a join that the shorter list begins the longer.
pub(crate) struct Learn;

impl<T: Kept> Play<Option<T>, Known<T::Entry>> for Learn {
    ghost use Rattle.ax_turn.specs.Rule.{learned};

    ghost then = { learned T.entries T.maker T.name };
}

/// The number at which a seat is split. A split takes no run-time argument, so a type carries the number.
pub trait Place {
    ghost at: { ℕ };
}

impl Place for Brand {
    ghost at = { 0 };
}

pub(crate) struct Cut<P> {
    place: PhantomData<P>,
}

impl<E, P: Place> Split<Known<E>> for Cut<P> {
    ghost use Rattle.ax_turn.specs.Rule.{cut_below, cut_above};

    ghost left = { cut_below P.at };

    ghost right = { cut_above P.at };
}

pub(crate) struct Together;

impl<E> Join<Known<E>> for Together {
    ghost use Rattle.ax_turn.specs.Rule.{joined, spent};

    ghost both = { joined };

    ghost spent = { spent };
}
