//! A frame: its source, the serializer of its passes, and its journal. A frame is seen as its tree and its journal, and
//! each call is stated by what it adds to the journal; `ax_tree/specs/Journals.antt` says what a journal stands for.
#![tactic(auto)]

mod counts;
mod frame;
mod notes;
mod passing;

pub use counts::{Counts, Frames, Numbers};
pub use frame::Frame;
pub use passing::PassOut;
