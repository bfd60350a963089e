//! Where a position moves to: the nearest bound above or below a global offset, by characters, words and leaves.
//!
//! A call walks once over the places of the joined list, in their order, and counts the scalars of leaves. Above an offset
//! the walk ends at the leaf that has the bound; below it, at the first leaf that starts from the offset on. The bounds of
//! a text are listed of one leaf at most; of the others, by words, the text is read up to its first word. A text that is
//! kept on the way below is shared and not copied. By leaves a call takes no memory.
#![tactic(auto)]

mod above;
mod below;
mod lists;
mod names;
mod words;

pub use above::after;
pub use below::before;
