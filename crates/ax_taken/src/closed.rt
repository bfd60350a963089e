//! The plain parts of a closed hub from which its order is made.
use ax_base::{Seq, TreeId};
use ax_tree::{History, Journal, Packet};

/// What a closed hub has of a frame.
#[derive(Debug, Drop)]
pub struct ClosedFrame {
    pub tree: TreeId,
    pub journal: Journal,
    /// For each packet that was made, how many entries stand up to and with the pass that made it.
    pub made: Seq<usize>,
}

/// What a closed hub gives.
#[derive(Debug, Drop)]
pub struct Closed {
    pub frames: Seq<ClosedFrame>,
    pub history: History,
    /// The packets that weren't received, each tree's in their order.
    pub waiting: Seq<Packet>,
}
