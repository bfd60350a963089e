//! The order that a closed hub took, made of its journals, its history, and the number of entries that the snapshot of each
//! query counted. It is the order of `ax_run_rules/specs/Taken.antt`, whose laws stand in `ax_order_laws`.
//!
//! Costs the entries of the journals, and for each entry of the history a look at each reader.
#![tactic(auto)]

mod closed;
mod entries;
mod frames;
mod order;
mod queries;

pub use closed::{Closed, ClosedFrame};
pub use order::taken;
