//! Which tree hangs at which node: the live trees by id, and of each what the hanging rule asks of the tree last told.
//!
//! `live`, `host_of`, `hosted_by` and `drop_tree` cost a few look-ups each. `retouch` costs the touched ids, and the depth of
//! those that begin or cease to name a tree. Nodes of one tree that name the same tree contend for it: they, and all ids
//! above them, are watched, since a change there can make another one the first. Where a watched id is touched, a node
//! begins or ceases to name a tree, or the tree's root or parent changes, the contenders are put into pre-order anew: these
//! nodes, times their depth, with the child lists of the nodes where their ways part. As long as none of this happens, they
//! cost nothing.
//!
//! What is kept stands in shared pages, so `share` takes constant time and no memory. Where a `retouch` changes what the rule
//! asks, it copies one page of at most 64 summaries and the table of at most 16 pages, and of the tree's nodes that name trees
//! the table of pages with the pages that change. Where nothing changes of what the rule asks, it copies nothing.
#![tactic(auto)]

mod contest;
mod gone;
mod index;
mod managers;
mod naming;
mod summary;

pub use managers::Managers;
