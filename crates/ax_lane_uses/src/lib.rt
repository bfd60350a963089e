//! A use of a lane by three threads: two send, and a third takes. Of each sender's list what was taken and what was left
//! are the whole, in order.
#![tactic(auto)]

#[cfg(test)]
mod tests;
mod three;

pub use three::exchange;
