//! Walks of the trees of a grove that hang together, as one list of places: the first tree's places in pre-order, with
//! each hanging tree below its host, to eight levels of trees. No walk makes the list.
//!
//! A walk climbs and looks up. It costs the depth of a place, 8 × 256 nodes at most, and finding a child among its
//! siblings.
#![tactic(auto)]

mod extents;
mod level;
mod order;
mod walks;

pub use extents::{Origin, base, bounds, container_of};
pub use level::{LEVELS, levels_below};
pub use walks::{children, has, has_node, hung_root, next, parent, prev, root};
