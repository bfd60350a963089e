//! How a client tree differs from a source: common ancestors, what is reached from a node, and closed nodes. The words
//! are those of the serialisation rule in `ax_tree/specs/SerialRule.antt`.
//!
//! What is asked of a client costs its depth at most. A walk costs the nodes that it lists, with their child lists; the
//! search for the lowest closed node sees each node below it once.
#![tactic(auto)]

mod closing;
mod reaching;
mod starting;

pub use closing::{closed, lowest_closed};
pub use reaching::reach;
pub use starting::{last_common, start};
