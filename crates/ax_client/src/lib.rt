//! What the serializer of a frame knows of its receiver: the ids that the receiver has, with their child lists.
#![tactic(auto)]

mod children;
mod client_tree;
mod held;
mod parting;

pub use client_tree::ClientTree;
pub use parting::place_near;
