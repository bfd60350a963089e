//! A tree while updates are applied to it.

use crate::entries::Entries;
use ax_base::{Ids, NodeId};
use ax_tree::Touched;

/// A tree while updates are applied to it.
#[derive(Drop)]
pub struct Draft {
    pub nodes: Entries,
    pub root: Option<NodeId>,
    /// The ids that were touched since the draft was begun.
    pub touched: Touched,
    /// The ids that became pending in this update.
    pub made: Ids,
}
