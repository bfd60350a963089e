//! The words of a command line.
//!
//! The words are tested by hand, so which of them are a command is exact. Only a command is handed to `clap`, whose values
//! are taken: no option, help or version of `clap` is ever reached.
#![tactic(auto)]

mod by_clap;
mod by_hand;

pub use ax_base::NoMemory;
pub use by_clap::read_words;

/// What the words ask for.
#[derive(Clone, Copy, Debug, PartialEq, Eq)]
pub enum Command {
    Replay,
    Race,
    Combine,
    Act,
    /// The seed, the number of frames from 1 to 1000, and the number of operations from 1 to 900,000.
    Gen { seed: u32, frames: u32, ops: u32 },
}
