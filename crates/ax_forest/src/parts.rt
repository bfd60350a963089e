//! A forest that is handed on with the packets that it hasn't received.
use crate::Forest;
use ax_tree::Packet;

/// What is left of a browser that was closed.
#[derive(Drop)]
pub struct ForestParts {
    pub forest: Forest,
    /// The packets not yet received, of each tree in the order of their passes.
    pub waiting: Vec<Packet>,
}
