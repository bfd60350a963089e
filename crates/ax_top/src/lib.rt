//! The top call: it runs a script of accessibility edits over any source and any sink, and writes every step and the trees
//! that their receivers hold.
#![tactic(auto)]

mod answer;
mod ending;
mod making;
mod running;
mod top;

pub use top::{Status, calm_main};
