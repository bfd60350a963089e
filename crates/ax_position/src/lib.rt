//! Positions in the text of the trees that hang together: which are refused, their global offsets, their forms on a leaf
//! and on the place above, their order, and the text between two.
//!
//! A call walks over the places of the joined list in their order, counts the scalars of leaves, and ends as soon as the
//! answer is settled: a position is settled where as much of its place's text was counted as its offset, a leaf behind
//! the last one that starts by the offset (or at the first that ends from it on), a text at its greater offset. So each
//! walk costs the nodes up to there. A call walks once at most; `compare` looks for both positions at once, and ends where
//! both are settled. `range_text` alone walks twice: for both positions at once, and then for the text, so that no text is
//! made for a position that is refused. No call makes a list, nor any text but the one that is answered.
#![tactic(auto)]

mod between;
mod child_search;
mod forms;
mod gathered;
mod kids;
mod leaves;
mod marked;
mod pairs;
mod places;
mod positions;
mod ranks;
mod starts;
mod survey;
mod targets;

pub use between::range_text;
pub use forms::{at, leaf, leaf_at};
pub use places::{Visitor, walk, walk_for_two};
pub use positions::{check, offset, up};
pub use ranks::compare;
pub use targets::{Targets, Within};
