//! Edits, updates and packets of a tree, what refuses them, and trees and groves that can be read.
//!
//! The rules stand in `specs/`: what an edit and an update make of a tree, with the first refusal in order; which marks
//! an edit leaves; which update a serializer sends; and what the journal of a frame stands for.
#![tactic(auto)]

mod edit;
mod packet;
mod touching;
mod update;
mod verdict;
mod view;

pub use ax_base::Places;
pub use edit::{AttrChange, AttrChanges, Edit, EditErr, Edits, MarkErr, SetNode, SetTree};
pub use packet::{HEntry, History, JEntry, Journal, Packet, Slip};
pub use touching::Touched;
pub use update::{Bundle, BundleErr, Nodes, Refusal, TreeUpdate, Updates};
pub use verdict::{Event, Events, Verdict};
pub use view::{Grove, TreeView};
