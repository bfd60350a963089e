//! What a frame sends, its journal, and the browser's history.
use crate::{Bundle, Edit, TreeUpdate};
use ax_base::{NodeId, PassNo, Seq, Token, TreeId};

/// The accepted edits since the packet before.
pub type Slip = Seq<Edit>;
/// The journal of a frame: its answered operations, in order.
pub type Journal = Seq<JEntry>;
/// What the browser has done and received, in order.
pub type History = Seq<HEntry>;

/// What a pass of a frame sends.
#[derive(Debug, Drop)]
pub struct Packet {
    pub tree: TreeId,
    pub pass: PassNo,
    /// The pass upon which the bundle stands, 0 for the empty tree.
    pub base: PassNo,
    pub token: Token,
    pub slip: Slip,
    pub bundle: Bundle,
}

/// An entry of a frame's journal. An operation that was refused by name is an entry too.
#[derive(Debug, Drop)]
pub enum JEntry {
    Edited(Edit),
    Marked(NodeId),
    MarkedBelow(NodeId),
    Passed,
    /// A pass ran out of memory and kept the updates that it had made.
    Short,
    Delivered(Token),
}

/// An entry of the browser's history.
#[derive(Debug, Drop)]
pub enum HEntry {
    Got(Packet),
    Asked(TreeId),
    Ended(TreeId),
    Probed(TreeId, TreeUpdate),
}
