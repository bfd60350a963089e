//! The text of an order by the lines that the calls of its items gave: each item has the next line of its list, as
//! `ax_order_laws/specs/Told.antt` says.
//!
//! Costs the items and the bytes.
#![tactic(auto)]

mod item;
mod lists;
mod text;
mod told;

pub use text::placed_text;
pub use told::{FrameTold, Told};
