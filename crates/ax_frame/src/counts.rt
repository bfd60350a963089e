//! Lists of frames, and how far a run has come.
use crate::Frame;

/// The frames of a run, in the order of their trees.
pub type Frames = Vec<Frame>;

/// How many operations each list has behind it.
pub type Numbers = Vec<u64>;

/// How many operations of each frame, of the browser and of each reader are done.
#[derive(Debug, Drop)]
pub struct Counts {
    pub frames: Numbers,
    pub browser: u64,
    pub readers: Numbers,
}
