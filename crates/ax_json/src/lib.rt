//! How a JSON value is read: as what it is to be, or the first refusal with the way to it.
//!
//! A value is read by taking it apart: each part is freed as soon as it has been read. A path is made only for a refusal,
//! from the inside out, and a member is looked up once. So reading takes time in the size of the value, and no memory
//! beside what is read.
#![tactic(auto)]

mod form;
mod list;
mod member;
mod object;
mod refusal;
mod value;

pub use form::{Flag, Form, Node, NodeOrNone, Signed, Tree, TreeOrNone, Whole, Words};
pub use list::{ListOf, array_of, each, list_of};
pub use member::{optional, required, tag};
pub use object::{
    fields1, fields2, fields3, fields4, fields5, fields6, fields7, fields8, is_none_left,
    object_of, taken,
};
pub use refusal::{Fault, WalkErr, in_item, in_member, refuse};
pub use value::{
    flag_of, int_of, node_id, node_or_none, number_in, str_of, text_of, tree_id, tree_or_none,
};
