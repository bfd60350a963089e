//! Operations of frames and of the browser, and the steps of a run.
use crate::OpName;
use ax_base::{NodeId, Seq, Token, TreeId};
use ax_tree::{Edit, TreeUpdate};

/// A list of operations of a frame.
pub type FrameOps = Seq<FrameOp>;
/// A list of operations of the browser.
pub type TimedOps = Seq<TimedOp>;
/// The steps of a run, in order.
pub type Items = Seq<Item>;

/// What a frame is asked to do. The node data in an edit have no children.
#[derive(Debug, Drop)]
pub enum FrameOp {
    Edit(Edit),
    /// The node is to be sent anew.
    Touch(NodeId),
    /// The node and all below it are to be sent anew.
    TouchBelow(NodeId),
    /// What has changed is to be sent.
    Pass,
}

/// Which operation of a frame it is.
#[derive(Clone, Copy, Debug, PartialEq, Eq)]
pub enum FrameOpName {
    /// An edit of a node.
    Edit(OpName),
    /// An edit of the tree data.
    Data,
    Touch,
    TouchBelow,
    Pass,
}

/// What the browser is asked to do.
#[derive(Debug, Drop)]
pub enum BrowserOp {
    /// The frame is to send its whole tree again.
    Ask(TreeId),
    /// The tree goes for good.
    Destroy(TreeId),
    /// Whether the tree would take the update.
    Probe(TreeId, TreeUpdate),
}

/// Which operation of the browser it is.
#[derive(Clone, Copy, Debug, PartialEq, Eq)]
pub enum BrowserOpName {
    Ask,
    Destroy,
    Probe,
}

/// An operation of the browser, which is due once this many packets were received.
#[derive(Debug, Drop)]
pub struct TimedOp {
    pub after: u64,
    pub op: BrowserOp,
}

/// One step of a run.
#[derive(Clone, Copy, Debug, PartialEq, Eq)]
pub enum Item {
    /// The frame's next operation.
    Frame(TreeId),
    /// The receipt of the tree's oldest packet.
    Receive(TreeId),
    /// The browser's next operation.
    Browser,
    /// The frame is told the token.
    Deliver(TreeId, Token),
    /// The next query of the reader of this number, from 1.
    Reader(usize),
}
