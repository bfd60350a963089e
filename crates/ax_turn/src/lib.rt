//! A cell whose value is taken by one seat at a time. The value stands for a list of entries, and each seat knows a
//! beginning of that list, to which others only add.
//!
//! Nothing is claimed of waiting, of fairness or of time: [`Turn::enter`] may wait for ever, and its promise holds
//! where it returns.
#![tactic(auto)]

mod kept;
mod known;
mod rule;
mod seat;
mod turn;

pub use ax_base::NoMemory;
pub use kept::Kept;
pub use seat::{Seat, SeatOver};
pub use turn::Turn;
