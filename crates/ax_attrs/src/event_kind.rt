//! Kinds of events.
ghost use Rattle.std.specs.Prelude.{◌≡◌, ◌<◌, ◌≤◌, ◌↔◌, ℕ, Some};
ghost use Rattle.std.specs.Option.{SomeIff};
ghost use Rattle.ax_attrs.specs.Entry.{name_of, number_named, IsNamed};
ghost use Rattle.ax_attrs.specs.Tables.{event_rows};

use crate::name::{number_named, row_at};
use crate::tables::event_list;
use std::marker::Model;

/// A kind of event, as the number of its row.
#[derive(Clone, Copy, Debug, PartialEq, Eq, PartialOrd, Ord, Hash)]
pub struct EventKind {
    pub(crate) number: u16,
}

impl Model for EventKind {
    ghost use Rattle.std.specs.Prelude.{ℕ, ◌<◌, ◌≤◌};

    ghost Value = { ℕ };

    ghost view = { λ a. a.number };

    ghost invariant = { (λ a. (0 < a.number) × (a.number ≤ 30)) };

    ghost inverse = { λ n. record { number = n } };
}

impl EventKind {
    pub const DOCUMENT_TITLE_CHANGED: EventKind = EventKind { number: 1 };

    pub const URL_CHANGED: EventKind = EventKind { number: 2 };

    pub const LOAD_COMPLETE: EventKind = EventKind { number: 3 };

    pub const SELECTION_CHANGED: EventKind = EventKind { number: 4 };

    pub const FOCUS_CHANGED: EventKind = EventKind { number: 5 };

    pub const ROLE_CHANGED: EventKind = EventKind { number: 6 };

    pub const EXPANDED: EventKind = EventKind { number: 7 };

    pub const COLLAPSED: EventKind = EventKind { number: 8 };

    pub const STATE_CHANGED: EventKind = EventKind { number: 9 };

    pub const IGNORED_CHANGED: EventKind = EventKind { number: 10 };

    pub const NAME_CHANGED: EventKind = EventKind { number: 11 };

    pub const DESCRIPTION_CHANGED: EventKind = EventKind { number: 12 };

    pub const VALUE_CHANGED: EventKind = EventKind { number: 13 };

    pub const PLACEHOLDER_CHANGED: EventKind = EventKind { number: 14 };

    pub const CHILD_TREE_CHANGED: EventKind = EventKind { number: 15 };

    pub const LIVE_STATUS_CHANGED: EventKind = EventKind { number: 16 };

    pub const LEVEL_CHANGED: EventKind = EventKind { number: 17 };

    pub const CHECKED_CHANGED: EventKind = EventKind { number: 18 };

    pub const ACTIVE_DESCENDANT_CHANGED: EventKind = EventKind { number: 19 };

    pub const BUSY_CHANGED: EventKind = EventKind { number: 20 };

    pub const SELECTED_CHANGED: EventKind = EventKind { number: 21 };

    pub const ATTRIBUTE_CHANGED: EventKind = EventKind { number: 22 };

    pub const LOCATION_CHANGED: EventKind = EventKind { number: 23 };

    pub const CHILDREN_CHANGED: EventKind = EventKind { number: 24 };

    pub const SUBTREE_CREATED: EventKind = EventKind { number: 25 };

    pub const LIVE_REGION_CHANGED: EventKind = EventKind { number: 26 };

    pub const SHOWN: EventKind = EventKind { number: 27 };

    pub const PRESSED_CHANGED: EventKind = EventKind { number: 28 };

    pub const ROLE_DESCRIPTION_CHANGED: EventKind = EventKind { number: 29 };

    pub const ERROR_CHANGED: EventKind = EventKind { number: 30 };

    /// How many rows there are.
    pub const COUNT: u16 = 30;

    /// The row of that number.
    pub fn of(number: u16) -> Option<EventKind>
        ensures { SomeIff result ((0 < number) × (number ≤ 30)) number }
    {
        if number == 0 || number > EventKind::COUNT {
            None
        } else {
            Some(EventKind { number })
        }
    }

    /// The number of the row, from 1.
    pub fn number(self) -> u16
        ensures same { result ≡ self }
        ensures above { 0 < result }
        ensures below { result ≤ 30 }
    {
        self.number
    }

    /// The row that has the name.
    pub fn named(name: &str) -> Option<EventKind>
        ensures value { result ≡ number_named event_rows name.now }
        ensures exactly { (number : ℕ) → (result ≡ Some number) ↔ IsNamed event_rows number name.now }
    {
        let number = number_named(event_list(), name)?;
        Some(EventKind { number })
    }

    /// The name of the row.
    pub fn name(self) -> &'static str
        ensures { name_of event_rows self ≡ Some result.now }
    {
        row_at(event_list(), self.number).name
    }
}
