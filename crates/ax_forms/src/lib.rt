//! The parts of a script: rectangles, positions, queries, tree data, nodes, updates and the operations of a frame.
//!
//! Each has a definition in `specs/` that says which value it is, or the first refusal and where it stands.
#![tactic(auto)]

mod edit;
mod look;
mod news;
mod place;
mod query;
mod update;

pub use edit::FrameOpForm;
pub use news::{NewsForm, UpdateDataForm};
pub use place::{PositionForm, RectForm, Selection, SelectionEnd, SelectionForm};
pub use query::{PairQuery, PlaceQuery, PositionQuery, QueryForm, Sought, after_of};
pub use update::UpdateForm;
