//! States.
ghost use Rattle.std.specs.Prelude.{◌≡◌, ◌<◌, ◌≤◌, ◌↔◌, ℕ, Some};
ghost use Rattle.std.specs.Option.{SomeIff};
ghost use Rattle.ax_attrs.specs.Entry.{name_of, number_named, IsNamed, number_within, event_of};
ghost use Rattle.ax_attrs.specs.Tables.{state_rows, state_count};

use crate::name::{number_named, row_at};
use crate::tables::state_list;
use crate::{EventKind, Version, When};
use std::marker::Model;

/// A state, as the number of its row.
#[derive(Clone, Copy, Debug, PartialEq, Eq, PartialOrd, Ord, Hash)]
pub struct State {
    pub(crate) number: u16,
}

impl Model for State {
    ghost use Rattle.std.specs.Prelude.{ℕ, ◌<◌, ◌≤◌};

    ghost Value = { ℕ };

    ghost view = { λ a. a.number };

    ghost invariant = { (λ a. (0 < a.number) × (a.number ≤ 12)) };

    ghost inverse = { λ n. record { number = n } };
}

impl State {
    pub const FOCUSABLE: State = State { number: 1 };

    pub const EXPANDED: State = State { number: 2 };

    pub const COLLAPSED: State = State { number: 3 };

    pub const EDITABLE: State = State { number: 4 };

    pub const INVISIBLE: State = State { number: 5 };

    pub const REQUIRED: State = State { number: 6 };

    pub const VISITED: State = State { number: 7 };

    pub const IGNORED: State = State { number: 8 };

    pub const MULTISELECTABLE: State = State { number: 9 };

    pub const PROTECTED: State = State { number: 10 };

    pub const OFFSCREEN: State = State { number: 11 };

    pub const PRESSED: State = State { number: 12 };

    /// How many rows there are.
    pub const COUNT: u16 = 12;

    /// The row of that number.
    pub fn of(number: u16) -> Option<State>
        ensures { SomeIff result ((0 < number) × (number ≤ 12)) number }
    {
        if number == 0 || number > State::COUNT {
            None
        } else {
            Some(State { number })
        }
    }

    /// The number of the row, from 1.
    pub fn number(self) -> u16
        ensures same { result ≡ self }
        ensures above { 0 < result }
        ensures below { result ≤ 12 }
    {
        self.number
    }

    /// The row that has the name.
    pub fn named(name: &str) -> Option<State>
        ensures value { result ≡ number_named state_rows name.now }
        ensures exactly { (number : ℕ) → (result ≡ Some number) ↔ IsNamed state_rows number name.now }
    {
        let number = number_named(state_list(), name)?;
        Some(State { number })
    }

    /// The name of the row.
    pub fn name(self) -> &'static str
        ensures { name_of state_rows self ≡ Some result.now }
    {
        row_at(state_list(), self.number).name
    }

    /// The row that has the name, where it is one of the version's table.
    pub fn named_in(name: &str, version: Version) -> Option<State>
        ensures value { result ≡ number_within (state_count version) state_rows name.now }
        ensures exactly { (number : ℕ) →
            (result ≡ Some number) ↔ ((number ≤ state_count version) × IsNamed state_rows number name.now) }
    {
        let count = match version {
            Version::One => 8,
            Version::Two => State::COUNT,
        };
        match State::named(name) {
            Some(found) if found.number <= count => Some(found),
            _ => None,
        }
    }

    /// The event of the state, and which change of the state makes it.
    pub fn event(self) -> (EventKind, When)
        ensures { event_of state_rows self ≡ Some (result.0, result.1) }
    {
        let (number, when) = row_at(state_list(), self.number).event.unwrap();
        (EventKind::of(number).unwrap(), when)
    }
}
