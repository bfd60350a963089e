//! Roles.
ghost use Rattle.std.specs.Prelude.{◌≡◌, ◌<◌, ◌≤◌, ◌↔◌, ℕ, Some};
ghost use Rattle.std.specs.Option.{SomeIff};
ghost use Rattle.ax_attrs.specs.Entry.{name_of, number_named, IsNamed, number_within};
ghost use Rattle.ax_attrs.specs.Tables.{role_rows, role_count};

use crate::Version;
use crate::name::{number_named, row_at};
use crate::tables::role_list;
use std::marker::Model;

/// A role, as the number of its row.
#[derive(Clone, Copy, Debug, PartialEq, Eq, PartialOrd, Ord, Hash)]
pub struct Role {
    pub(crate) number: u16,
}

impl Model for Role {
    ghost use Rattle.std.specs.Prelude.{ℕ, ◌<◌, ◌≤◌};

    ghost Value = { ℕ };

    ghost view = { λ a. a.number };

    ghost invariant = { (λ a. (0 < a.number) × (a.number ≤ 36)) };

    ghost inverse = { λ n. record { number = n } };
}

impl Role {
    pub const GENERIC: Role = Role { number: 1 };

    pub const ROOT_WEB_AREA: Role = Role { number: 2 };

    pub const HEADING: Role = Role { number: 3 };

    pub const PARAGRAPH: Role = Role { number: 4 };

    pub const STATIC_TEXT: Role = Role { number: 5 };

    pub const LINK: Role = Role { number: 6 };

    pub const BUTTON: Role = Role { number: 7 };

    pub const CHECKBOX: Role = Role { number: 8 };

    pub const TEXT_FIELD: Role = Role { number: 9 };

    pub const IMAGE: Role = Role { number: 10 };

    pub const LIST: Role = Role { number: 11 };

    pub const LIST_ITEM: Role = Role { number: 12 };

    pub const TABLE: Role = Role { number: 13 };

    pub const ROW: Role = Role { number: 14 };

    pub const CELL: Role = Role { number: 15 };

    pub const IFRAME: Role = Role { number: 16 };

    pub const DIALOG: Role = Role { number: 17 };

    pub const ALERT: Role = Role { number: 18 };

    pub const MENU: Role = Role { number: 19 };

    pub const MENU_ITEM: Role = Role { number: 20 };

    pub const TAB: Role = Role { number: 21 };

    pub const TAB_LIST: Role = Role { number: 22 };

    pub const MAIN: Role = Role { number: 23 };

    pub const NAVIGATION: Role = Role { number: 24 };

    pub const FORM: Role = Role { number: 25 };

    pub const SLIDER: Role = Role { number: 26 };

    pub const STATUS: Role = Role { number: 27 };

    pub const ARTICLE: Role = Role { number: 28 };

    pub const BANNER: Role = Role { number: 29 };

    pub const COMPLEMENTARY: Role = Role { number: 30 };

    pub const SEARCH: Role = Role { number: 31 };

    pub const REGION: Role = Role { number: 32 };

    pub const TREE: Role = Role { number: 33 };

    pub const TREE_ITEM: Role = Role { number: 34 };

    pub const SWITCH: Role = Role { number: 35 };

    pub const PROGRESS_BAR: Role = Role { number: 36 };

    /// How many rows there are.
    pub const COUNT: u16 = 36;

    /// The row of that number.
    pub fn of(number: u16) -> Option<Role>
        ensures { SomeIff result ((0 < number) × (number ≤ 36)) number }
    {
        if number == 0 || number > Role::COUNT {
            None
        } else {
            Some(Role { number })
        }
    }

    /// The number of the row, from 1.
    pub fn number(self) -> u16
        ensures same { result ≡ self }
        ensures above { 0 < result }
        ensures below { result ≤ 36 }
    {
        self.number
    }

    /// The row that has the name.
    pub fn named(name: &str) -> Option<Role>
        ensures value { result ≡ number_named role_rows name.now }
        ensures exactly { (number : ℕ) → (result ≡ Some number) ↔ IsNamed role_rows number name.now }
    {
        let number = number_named(role_list(), name)?;
        Some(Role { number })
    }

    /// The name of the row.
    pub fn name(self) -> &'static str
        ensures { name_of role_rows self ≡ Some result.now }
    {
        row_at(role_list(), self.number).name
    }

    /// The row that has the name, where it is one of the version's table.
    pub fn named_in(name: &str, version: Version) -> Option<Role>
        ensures value { result ≡ number_within (role_count version) role_rows name.now }
        ensures exactly { (number : ℕ) →
            (result ≡ Some number) ↔ ((number ≤ role_count version) × IsNamed role_rows number name.now) }
    {
        let count = match version {
            Version::One => 28,
            Version::Two => Role::COUNT,
        };
        match Role::named(name) {
            Some(found) if found.number <= count => Some(found),
            _ => None,
        }
    }
}
