//! Walks of the joined trees that pass over ignored nodes, and the text without them.
//!
//! A place is shown where its node isn't ignored. `parent` costs the depth. `next` and `prev` cost the nodes that they pass
//! over, and finding each node that they climb through among its siblings; `children` the nodes down to the shown ones;
//! `text` the nodes at the place and below it. A walk down takes a frame of the stack for each node of a chain, 8 × 256 at
//! most. Only `children` and `text` take memory.
#![tactic(auto)]

mod backward;
mod forward;
mod gathered;
mod ids;
mod inner;
mod show;
mod texts;
mod upward;

pub use backward::prev;
pub use forward::next;
pub use inner::children;
pub use show::shown;
pub use texts::text;
pub use upward::parent;
