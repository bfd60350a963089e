//! Actions of readers.
use ax_base::{NodeId, Seq, Text, TreeId};

/// A list of actions.
pub type Actions = Seq<Action>;

/// What a reader does at a node of a frame.
#[derive(Debug, Drop)]
pub struct Action {
    pub tree: TreeId,
    pub node: NodeId,
    pub what: What,
}

#[derive(Debug, Drop)]
pub enum What {
    /// The node gets the focus.
    Focus,
    /// The node gets this value.
    SetValue(Text),
    /// The node's offset container scrolls to the node's corner.
    Scroll,
}

/// Which action it is.
#[derive(Clone, Copy, Debug, PartialEq, Eq)]
pub enum DoName {
    Focus,
    SetValue,
    Scroll,
}

/// What became of an action.
#[derive(Clone, Copy, Debug, PartialEq, Eq)]
pub enum ActNote {
    Ok,
    /// The tree was destroyed.
    Gone,
    NoRoot,
    UnknownNode(NodeId),
    /// The node has no offset container.
    NoContainer(NodeId),
}
