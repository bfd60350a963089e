//! Lines, which answer the steps of a run.
use crate::{ActNote, DoName, QueryName, Reply};
use ax_base::{Ids, NodeId, PassNo, Seq, Token, TreeId};
use ax_tree::{EditErr, MarkErr, Refusal, Verdict};

/// A list of lines.
pub type Lines = Seq<Line>;
/// What is told of the updates of a packet.
pub type UpdateNotes = Seq<UpdateNote>;

/// Which edit of a node it is.
#[derive(Clone, Copy, Debug, PartialEq, Eq)]
pub enum OpName {
    Root,
    Insert,
    Remove,
    Move,
    Set,
}

/// What is told of an update.
#[derive(Debug, Drop)]
pub struct UpdateNote {
    pub clear: Option<NodeId>,
    pub root: Option<NodeId>,
    pub nodes: Ids,
    pub with_data: bool,
}

/// What is told of a packet that a pass made.
#[derive(Debug, Drop)]
pub struct MadeNote {
    pub pass: PassNo,
    pub base: PassNo,
    pub token: Token,
    /// The pass completes a bundle for which an earlier one had no memory.
    pub resumed: bool,
    pub updates: UpdateNotes,
}

/// What became of a pass.
#[derive(Debug, Drop)]
pub enum PassNote {
    /// There was nothing to send.
    Nothing,
    Made(MadeNote),
}

/// What became of a probe.
#[derive(Clone, Copy, Debug, PartialEq, Eq)]
pub enum ProbeNote {
    /// How many nodes the tree would then have.
    Accepted(usize),
    Refused(Refusal),
    Gone,
}

/// The answer to one step of a run, with the values that its text shows.
#[derive(Debug, Drop)]
pub enum Line {
    Edited {
        tree: TreeId,
        name: OpName,
        node: NodeId,
        refused: Option<EditErr>,
    },
    DataSet {
        tree: TreeId,
    },
    Touched {
        tree: TreeId,
        below: bool,
        node: NodeId,
        refused: Option<MarkErr>,
    },
    Passed {
        tree: TreeId,
        note: PassNote,
    },
    Received {
        tree: TreeId,
        verdict: Verdict,
    },
    /// No token stands for a tree that is gone.
    Asked {
        tree: TreeId,
        token: Option<Token>,
    },
    Destroyed {
        tree: TreeId,
        gone: bool,
    },
    Probed {
        tree: TreeId,
        note: ProbeNote,
    },
    Delivered {
        tree: TreeId,
        token: Token,
    },
    Answered {
        reader: usize,
        query: QueryName,
        reply: Reply,
    },
    Acted {
        tree: TreeId,
        name: DoName,
        node: NodeId,
        out: ActNote,
    },
}
