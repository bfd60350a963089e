//! Uses of a turn by two threads: each adds its notes to one list, and each stay of a thread sees all that an earlier
//! one of its stays had seen.
#![tactic(auto)]

mod notes;
#[cfg(test)]
mod tests;
mod two;

pub use notes::{Note, Notes};
pub use two::{look_twice, two_writers};
