//! Trees that are kept as a map from each id to its node: when a map keeps a tree, and the walks that all trees need.
//!
//! `specs/Kept.antt` says when a map keeps a tree, over any look-up by id, so it serves a hash map and shared pages alike.
#![tactic(auto)]

mod climb;
mod gone;
mod walk;

pub use climb::{chain, depth, is_below};
pub use gone::take_out;
pub use walk::{height_below, pre};
