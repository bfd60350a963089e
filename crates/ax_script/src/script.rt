//! Scripts as they were read.
use ax_ask::{Actions, FrameOps, Items, TimedOps, TimedQueries};
use ax_attrs::Version;
use ax_base::{Seq, TreeId};

/// The frames, in the script's order.
pub type FrameScripts = Seq<FrameScript>;
/// The readers' queries, reader by reader.
pub type ReaderScripts = Seq<TimedQueries>;

/// What a frame is asked to do, in order.
#[derive(Debug, Drop)]
pub struct FrameScript {
    pub tree: TreeId,
    pub ops: FrameOps,
}

/// What a run is asked for. The frames' trees differ from one another, and there is at least one frame.
#[derive(Debug, Drop)]
pub struct Script {
    pub version: Version,
    pub frames: FrameScripts,
    pub browser: TimedOps,
    pub readers: ReaderScripts,
    pub order: Items,
    pub actions: Actions,
}
