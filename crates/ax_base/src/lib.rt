//! What every crate stands on: ids and numbers, the one list type, texts with their bounds, rectangles and positions.
//!
//! A growing value keeps the allocator that it was made with, so `new`, `of` and their like take one and methods take
//! none. Want of memory is an answer, `NoMemory`, after which nothing has changed.
#![tactic(auto)]

mod id;
mod pass;
mod position;
mod rect;
mod seq;
mod text;

pub use id::{NodeId, TreeId};
pub use pass::{PassNo, Token};
pub use position::{Affinity, Place, Pos, PosErr, Unit, Way};
pub use rect::{Point, Rect};
pub use seq::{NoMemory, Seq};
pub use text::{SliceErr, Text};

/// A list of node ids.
pub type Ids = Seq<NodeId>;
/// A list of offsets, in scalars.
pub type Offsets = Seq<usize>;
/// A list of places.
pub type Places = Seq<Place>;
