//! Packets of several frames on their way to one taker, in the order of each frame.
//!
//! Nothing is claimed of waiting, of fairness or of time: a call that takes the runtime may wait for another thread, and
//! its promise holds where it returns. A send and a take cost a constant number of steps where no other thread is at
//! the same end.
#![tactic(auto)]

mod ends;
mod holding;
mod lane;
mod rule;

pub use ax_base::NoMemory;
pub use ends::{Rx, Tx};
pub use lane::{Lane, LaneParts, Packets, Senders};
