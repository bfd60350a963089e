//! Partial updates: the update at a node of a source that brings a receiver nearer to it, and the bundle of a pass. The
//! rule is that of `ax_tree/specs/SerialRule.antt`.
#![tactic(auto)]

mod bundling;
mod following;
mod planning;
mod serializer;
mod updating;

pub use serializer::{SerErr, Serializer};
