//! What an end of a lane knows.
use ax_base::TreeId;
use ax_tree::Packet;
use std::collections::LinkedList;

/// What a sender or the taker knows, as the rule of a lane speaks of it. It exists in the proofs alone.
///
/// A sender knows its tree, what it has sent, and at which places among all that was ever sent. The taker knows what it
/// got, the trees for which it has made senders, and what the senders knew that it has taken back.
pub struct Holding {
    pub sends: bool,
    pub tree: TreeId,
    pub sent: LinkedList<Packet>,
    pub places: LinkedList<u64>,
    pub takes: bool,
    pub got: LinkedList<Packet>,
    pub trees: LinkedList<TreeId>,
    pub back: LinkedList<(TreeId, LinkedList<Packet>, LinkedList<u64>)>,
}
