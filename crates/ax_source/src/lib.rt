//! The source tree of a frame: a tree that is edited, and remembers which nodes have to be sent.
//!
//! What an edit makes of tree and marks, and which refusal stands first, is the rule of `ax_tree/specs/Edits.antt`. A refused
//! call leaves everything as it was.
#![tactic(auto)]

mod attributes;
mod children;
mod edits;
mod entries;
mod marking;
mod refusals;
mod source;

pub use source::SourceTree;
