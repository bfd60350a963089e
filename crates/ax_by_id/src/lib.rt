//! Values by the ids of nodes and of trees, kept in pages that several owners share.
//!
//! A share costs a count, and takes no memory. The first change behind it copies the table of pages (a count for each) and the
//! page of the id (a count for each of its values); the other owner keeps what it had. Where there is one owner, a change copies
//! nothing. After want of memory nothing has changed.
#![tactic(auto)]

mod by_node;
mod by_tree;

pub use by_node::ByNode;
pub use by_tree::ByTree;
