//! The run of a script by one thread: frames with what is left of their operations, the packets that wait, the browser's
//! forest, and readers.
//!
//! `Core` is seen as the state of the run, and its calls are stated by the rules of runs: a step is exactly the rule's in
//! state and line, and the finale is exactly the rule's, but for passes that complete a bundle for which an earlier one had
//! no memory. An operation is found and done without a look at any list: each list is taken from its front.
#![tactic(auto)]

mod answers;
mod browsing;
mod finale;
mod listener;
mod operating;
mod places;
mod queue;
mod reading;
mod receiving;
mod resuming;
mod run;
mod seat;
mod starting;
mod stepping;

pub use answers::{Closed, CoreErr};
pub use listener::Listener;
pub use run::Core;
