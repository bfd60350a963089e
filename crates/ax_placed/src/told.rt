//! The lines that the calls of a run gave, by who made them.
use ax_ask::Lines;
use ax_base::{Seq, TreeId};

/// The lines of a frame's operations, in order.
#[derive(Debug, Drop)]
pub struct FrameTold {
    pub tree: TreeId,
    pub lines: Lines,
}

/// What the calls of a run told.
#[derive(Debug, Drop)]
pub struct Told {
    pub frames: Seq<FrameTold>,
    /// The lines of receipts and of the browser's operations, in order.
    pub entries: Lines,
    /// The lines of each reader's queries, in order.
    pub readers: Seq<Lines>,
}
