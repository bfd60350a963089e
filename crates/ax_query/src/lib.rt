//! Replies to readers' queries over the trees that hang together.
//!
//! `answer` gives exactly the reply of the definition `answer_of` of `ax_run_rules/specs/Replies.antt`, over any grove. Which
//! queries take memory, the definition `takes_memory` of `specs/Memory.antt` says.
#![tactic(auto)]

mod moves;
mod names;
mod neighbours;
mod node;
mod positions;
mod refusal;
mod replies;
mod shown;

pub use names::query_name;
pub use replies::answer;
