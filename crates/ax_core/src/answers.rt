//! Why a step isn't done, and the parts of a run that has ended.
ghost use Rattle.std.specs.Prelude.{◌≡◌};
ghost use Rattle.ax_core.specs.declared.answers.CoreErr.TheVariants.{NoMemory as HasNoMemory};

use ax_ask::Item;
use ax_base::NoMemory;
use ax_forest::ForestParts;
use ax_frame::Frames;

/// The frames in their order, and the forest with the packets that wait.
pub type Closed = (Frames, ForestParts);

/// Why a step isn't done.
#[derive(Clone, Copy, Debug, PartialEq, Eq)]
pub enum CoreErr {
    /// What the item asks for isn't there: a tree, an operation, a packet, a reader or a query.
    NotThere(Item),
    /// Nothing is changed, or a pass was broken off, and its frame is short.
    NoMemory,
}

impl From<NoMemory> for CoreErr {
    ghost from_gives = { λ _ e. e ≡ HasNoMemory };

    fn from(_: NoMemory) -> CoreErr {
        CoreErr::NoMemory
    }
}
