//! What a node and a tree have: roles, states, attributes and rectangles, and the data of a whole tree.
//!
//! Attributes are a finite map whose values are of their keys' kinds, and contracts see it as the sorted list of its
//! entries. States are a set, seen as the ascending list of its states. Looking a key or a state up takes as many steps
//! as there are entries before it, at most as many as the table has rows; so does a change, which also moves the entries
//! behind it.
#![tactic(auto)]

mod attrs;
mod node;
mod states;
mod tree_data;
mod value;

pub use attrs::{AttrErr, AttrList};
pub use node::{NodeData, same_but_children};
pub use states::StateSet;
pub use tree_data::TreeData;
pub use value::Value;
