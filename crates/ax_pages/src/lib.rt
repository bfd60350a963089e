//! Values by node id, kept in pages that several owners share.
//!
//! A page has the 64 ids from a multiple of 64 on, a block the 64 pages of 4,096 such ids, and one table names all blocks.
//! Table, blocks and pages are counted: a share takes one more count of the table, and the first write behind a share copies
//! the table (a count for each block), the one block (a count for each of its pages) and the one page that changes (a count
//! for each of its values). So among 100,000 ids in a row it takes at most 25 + 64 + 64 counts. A later write copies what
//! it is the first to change. Of these copies that of a page takes a step of the counter, and the others none. Values are
//! never copied. A read takes one look-up in the table and two indexings.
//!
//! Contracts see a finite map from ids to values, and nothing of what is shared: whatever is done to one owner, the
//! others keep theirs.
#![tactic(auto)]

mod block;
mod page;
mod paged;
mod steps;
mod table;

use ax_node::NodeData;
pub use paged::Paged;
pub use steps::Steps;

/// Nodes by id.
pub type Pages = Paged<NodeData>;
