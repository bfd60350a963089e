//! What the forest's calls answer where they do more than give a value.
ghost use Rattle.std.specs.Prelude.{◌≡◌};
ghost use Rattle.ax_forest.specs.declared.answers.ForestErr.TheVariants.{NoMemory as HasNoMemory};

use ax_base::{NoMemory, TreeId};
use ax_tree::{BundleErr, Packet, Refusal};

/// Why a call at a tree was refused.
#[derive(Clone, Copy, Debug, PartialEq, Eq)]
pub enum ForestErr {
    /// No tree of the forest has this id.
    NoTree(TreeId),
    /// The tree had ended before.
    AlreadyGone(TreeId),
    /// The packet is in order, and its bundle is refused.
    Refused(BundleErr),
    NoMemory,
}

impl From<NoMemory> for ForestErr {
    ghost from_gives = { λ _ e. e ≡ HasNoMemory };

    fn from(_: NoMemory) -> ForestErr {
        ForestErr::NoMemory
    }
}

/// A packet that wasn't received, and why.
#[derive(Debug, Drop)]
pub struct ReceiveErr {
    pub packet: Packet,
    pub why: ForestErr,
}

/// What the update rule makes of an update that is tried.
#[derive(Clone, Copy, Debug, PartialEq, Eq)]
pub enum ProbeOut {
    /// How many nodes the tree would have.
    Accepted(usize),
    Refused(Refusal),
}
