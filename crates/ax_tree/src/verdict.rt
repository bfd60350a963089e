//! What becomes of a received packet, and the events that it tells.
use ax_attrs::EventKind;
use ax_base::{NodeId, PassNo, Seq, Token, TreeId};

/// A list of events.
pub type Events = Seq<Event>;

/// An event at a node, or at the tree itself.
#[derive(Clone, Copy, Debug, PartialEq, Eq)]
pub struct Event {
    pub tree: TreeId,
    pub node: Option<NodeId>,
    pub kind: EventKind,
}

/// What became of a received packet.
#[derive(Debug, Drop)]
pub enum Verdict {
    Applied { pass: PassNo, events: Events },
    Stale { had: Token, want: Token },
    Gap { base: PassNo, at: PassNo },
    Gone,
}
