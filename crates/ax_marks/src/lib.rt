//! What the serializer of a frame keeps: the marks of nodes that are to be sent.
#![tactic(auto)]

mod mark_list;

pub use mark_list::Marks;
