//! The tables of roles, states, attributes and events, and the numbers of their rows.
//!
//! Version 2 of the script has longer tables than version 1, and each table of version 1 is the first part of
//! version 2's. `named` looks in version 2's table, `named_in` in that of a version.
//!
//! A look-up by name goes over the rows and compares lengths before bytes; it allocates nothing. All other calls take
//! one step.
#![tactic(auto)]

mod event_kind;
mod key;
mod name;
mod role;
mod state;
mod table;
mod tables;

pub use event_kind::EventKind;
pub use key::Key;
pub use role::Role;
pub use state::State;
pub use table::{Kind, Row, Table, Version, When};
pub use tables::{events, keys, roles, states, tables_hold};
