//! What is asked of frames, of the browser and of readers, and the lines that answer.
//!
//! `FrameOp`, `BrowserOp`, `Query` and `Action` are what a script asks for, `Item` is one step of a run, and a `Line` is
//! the answer to one step. It holds the values that its printed text shows. The desks are what a run asks. The words of
//! operations, queries, actions and affinities stand here once, for the reader of scripts and for the printer of lines.
#![tactic(auto)]

mod action;
mod desk;
mod line;
mod op;
mod query;
mod reply;
mod word;

pub use action::{ActNote, Action, Actions, DoName, What};
pub use desk::{BrowserDesk, FrameDesk, ReaderDesk};
pub use line::{Line, Lines, MadeNote, OpName, PassNote, ProbeNote, UpdateNote, UpdateNotes};
pub use op::{
    BrowserOp, BrowserOpName, FrameOp, FrameOpName, FrameOps, Item, Items, TimedOp, TimedOps,
};
pub use query::{Query, QueryName, TimedQueries, TimedQuery};
pub use reply::Reply;
pub use word::{affinity_name, affinity_named};
