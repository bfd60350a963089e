//! Answers to queries.
use ax_attrs::Role;
use ax_base::{Place, Places, Pos, Text};
use std::cmp::Ordering;

/// The answer to a query.
#[derive(Debug, Drop)]
pub enum Reply {
    Place(Place),
    Places(Places),
    /// A node's role, and how many children it has in the stitched list.
    Node(Role, usize),
    Order(Ordering),
    Offset(usize),
    Pos(Pos),
    Text(Text),
    /// The left upper corner, the width and the height.
    Bounds(i64, i64, i64, i64),
    /// The position is null, or its tree isn't live.
    NoTree,
    /// The place isn't in the stitched list.
    NoNode,
    /// The child's index, and how many children there are.
    BadIndex(usize, usize),
    /// The offset, and the text's length.
    BadOffset(usize, usize),
    NoHit,
    NoFocus,
    NoParent,
    AtStart,
    AtEnd,
    /// The place isn't shown.
    Ignored,
}
