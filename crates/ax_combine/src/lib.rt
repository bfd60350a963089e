//! One tree with fresh ids for all places of the joined list: node k is the k-th place, and its children are the numbers of
//! the places below it. Attributes that name a node of the list name its number; those that name another node, or a tree,
//! are left out.
//!
//! The places are numbered by one walk of the joined trees, and each node is then made on its own, so the whole costs the
//! places and their attributes.
#![tactic(auto)]

mod about;
mod attributes;
mod combined;
mod nodes;
mod numbering;
mod walk;

pub use combined::{Combined, combine};
