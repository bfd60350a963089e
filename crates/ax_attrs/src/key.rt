//! Attributes.
ghost use Rattle.std.specs.Prelude.{◌≡◌, ◌<◌, ◌≤◌, ◌↔◌, ℕ, Some, option_map};
ghost use Rattle.std.specs.Option.{SomeIff};
ghost use Rattle.ax_attrs.specs.Entry.{name_of, number_named, IsNamed, number_within, event_of, kind_of};
ghost use Rattle.ax_attrs.specs.Tables.{key_rows, key_count};

use crate::name::{number_named, row_at};
use crate::tables::key_list;
use crate::{EventKind, Kind, Version};
use std::marker::Model;

/// An attribute, as the number of its row.
#[derive(Clone, Copy, Debug, PartialEq, Eq, PartialOrd, Ord, Hash)]
pub struct Key {
    pub(crate) number: u16,
}

impl Model for Key {
    ghost use Rattle.std.specs.Prelude.{ℕ, ◌<◌, ◌≤◌};

    ghost Value = { ℕ };

    ghost view = { λ a. a.number };

    ghost invariant = { (λ a. (0 < a.number) × (a.number ≤ 38)) };

    ghost inverse = { λ n. record { number = n } };
}

impl Key {
    pub const NAME: Key = Key { number: 1 };

    pub const DESCRIPTION: Key = Key { number: 2 };

    pub const VALUE: Key = Key { number: 3 };

    pub const PLACEHOLDER: Key = Key { number: 4 };

    pub const LANGUAGE: Key = Key { number: 5 };

    pub const CHILD_TREE: Key = Key { number: 6 };

    pub const LIVE: Key = Key { number: 7 };

    pub const LEVEL: Key = Key { number: 8 };

    pub const POS_IN_SET: Key = Key { number: 9 };

    pub const SET_SIZE: Key = Key { number: 10 };

    pub const CHECKED: Key = Key { number: 11 };

    pub const ACTIVE_DESCENDANT: Key = Key { number: 12 };

    pub const CONTROLS: Key = Key { number: 13 };

    pub const CLIPS: Key = Key { number: 14 };

    pub const BUSY: Key = Key { number: 15 };

    pub const MODAL: Key = Key { number: 16 };

    pub const SELECTED: Key = Key { number: 17 };

    pub const VALUE_NOW: Key = Key { number: 18 };

    pub const VALUE_MIN: Key = Key { number: 19 };

    pub const VALUE_MAX: Key = Key { number: 20 };

    pub const URL: Key = Key { number: 21 };

    pub const ACCESS_KEY: Key = Key { number: 22 };

    pub const CLASS_NAME: Key = Key { number: 23 };

    pub const ATOMIC: Key = Key { number: 24 };

    pub const ROLE_DESCRIPTION: Key = Key { number: 25 };

    pub const KEY_SHORTCUTS: Key = Key { number: 26 };

    pub const TOOLTIP: Key = Key { number: 27 };

    pub const INVALID: Key = Key { number: 28 };

    pub const ERROR_MESSAGE: Key = Key { number: 29 };

    pub const DETAILS: Key = Key { number: 30 };

    pub const FLOW_TO: Key = Key { number: 31 };

    pub const LABELLED_BY: Key = Key { number: 32 };

    pub const ROW_COUNT: Key = Key { number: 33 };

    pub const COLUMN_COUNT: Key = Key { number: 34 };

    pub const AUTO_COMPLETE: Key = Key { number: 35 };

    pub const CONTAINER: Key = Key { number: 36 };

    pub const SCROLL_X: Key = Key { number: 37 };

    pub const SCROLL_Y: Key = Key { number: 38 };

    /// How many rows there are.
    pub const COUNT: u16 = 38;

    /// The row of that number.
    pub fn of(number: u16) -> Option<Key>
        ensures { SomeIff result ((0 < number) × (number ≤ 38)) number }
    {
        if number == 0 || number > Key::COUNT {
            None
        } else {
            Some(Key { number })
        }
    }

    /// The number of the row, from 1.
    pub fn number(self) -> u16
        ensures same { result ≡ self }
        ensures above { 0 < result }
        ensures below { result ≤ 38 }
    {
        self.number
    }

    /// The row that has the name.
    pub fn named(name: &str) -> Option<Key>
        ensures value { result ≡ number_named key_rows name.now }
        ensures exactly { (number : ℕ) → (result ≡ Some number) ↔ IsNamed key_rows number name.now }
    {
        let number = number_named(key_list(), name)?;
        Some(Key { number })
    }

    /// The name of the row.
    pub fn name(self) -> &'static str
        ensures { name_of key_rows self ≡ Some result.now }
    {
        row_at(key_list(), self.number).name
    }

    /// The row that has the name, where it is one of the version's table.
    pub fn named_in(name: &str, version: Version) -> Option<Key>
        ensures value { result ≡ number_within (key_count version) key_rows name.now }
        ensures exactly { (number : ℕ) →
            (result ≡ Some number) ↔ ((number ≤ key_count version) × IsNamed key_rows number name.now) }
    {
        let count = match version {
            Version::One => 24,
            Version::Two => Key::COUNT,
        };
        match Key::named(name) {
            Some(found) if found.number <= count => Some(found),
            _ => None,
        }
    }

    /// What the attribute's values are.
    pub fn kind(self) -> Kind
        ensures { kind_of key_rows self ≡ Some result }
    {
        row_at(key_list(), self.number).kind.unwrap()
    }

    /// The event that a change of the attribute makes, if it makes one.
    pub fn event(self) -> Option<EventKind>
        ensures { result ≡ option_map (λ event. event.0) (event_of key_rows self) }
    {
        let (number, _) = row_at(key_list(), self.number).event?;
        EventKind::of(number)
    }
}
