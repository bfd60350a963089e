//! Queries of readers.
use ax_base::{Place, Point, Pos, Seq, Unit, Way};

/// A reader's queries.
pub type TimedQueries = Seq<TimedQuery>;

/// What a reader asks.
#[derive(Clone, Copy, Debug, PartialEq, Eq)]
pub enum Query {
    Node(Place),
    Parent(Place),
    Children(Place),
    Next(Place),
    Prev(Place),
    Bounds(Place),
    UParent(Place),
    UChildren(Place),
    UNext(Place),
    UPrev(Place),
    UText(Place),
    Hit(Point),
    Focus,
    Offset(Pos),
    Leaf(Pos),
    Up(Pos),
    Compare(Pos, Pos),
    Text(Pos, Pos),
    Move(Pos, Unit, Way),
}

/// Which query it is.
#[derive(Clone, Copy, Debug, PartialEq, Eq)]
pub enum QueryName {
    Node,
    Parent,
    Children,
    Next,
    Prev,
    Bounds,
    UParent,
    UChildren,
    UNext,
    UPrev,
    UText,
    Hit,
    Focus,
    Offset,
    Leaf,
    Up,
    Compare,
    Text,
    Move,
}

/// A query, which is asked once this many packets were received.
#[derive(Clone, Copy, Debug, PartialEq, Eq)]
pub struct TimedQuery {
    pub after: u64,
    pub query: Query,
}
