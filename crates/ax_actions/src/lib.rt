//! Actions of readers, sent back to frames.
//!
//! `perform` does one action at a frame. An inbox holds the letters that one thread posts and another takes, in order.
//! `act_all` posts the actions of many frames to workers: what it gives is what performing the actions one after the other
//! gives, for every schedule. Nothing is claimed of waiting: a call that waits keeps its promise where it returns.
#![tactic(auto)]

mod acting;
mod edits;
mod hand;
mod inbox;
mod performing;
mod rule;
mod sharing;

pub use acting::act_all;
pub use hand::Letter;
pub use inbox::{Doer, Inbox, Poster};
pub use performing::{Done, line_of, perform};
