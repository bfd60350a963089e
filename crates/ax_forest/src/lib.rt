//! The browser's forest: the mirrors of all trees, which packets renew by the verdict rule, and the history of what was done
//! and received.
//!
//! A receipt looks at its own tree alone, and costs what its bundle costs, whatever the forest holds. Mirrors share the pages
//! that differ in nothing, and a view shares all with the forest: it is taken in constant time. The receipt after it copies a
//! page of at most 64 mirrors and the table of at most 16 such pages, each at the cost of a count.
#![tactic(auto)]

mod answers;
mod asking;
mod by_id;
mod fate;
mod forest;
mod judging;
mod parts;
mod probing;
mod table;
mod taking;
mod tally;
mod trees;
mod view;

pub use answers::{ForestErr, ProbeOut, ReceiveErr};
pub use forest::Forest;
pub use parts::ForestParts;
pub use view::ForestView;
