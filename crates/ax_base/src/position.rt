//! Places and positions in a forest.
use crate::{NoMemory, NodeId, TreeId};
use thiserror::Error;

/// A node of a tree.
#[derive(Clone, Copy, Debug, PartialEq, Eq, PartialOrd, Ord, Hash)]
pub struct Place {
    pub tree: TreeId,
    pub node: NodeId,
}

/// At which of two lines that meet at an offset a text position stands: at the end of the upper one, or the start of
/// the lower one.
#[derive(Clone, Copy, Debug, PartialEq, Eq)]
pub enum Affinity {
    Up,
    Down,
}

/// By what a position moves.
#[derive(Clone, Copy, Debug, PartialEq, Eq)]
pub enum Unit {
    Char,
    Word,
    Leaf,
}

/// Which way a position moves.
#[derive(Clone, Copy, Debug, PartialEq, Eq)]
pub enum Way {
    Next,
    Prev,
}

/// A position in a forest: none, before a child of a node (or after the last one), or at an offset of a node's text, in
/// scalars.
#[derive(Clone, Copy, Debug, PartialEq, Eq)]
pub enum Pos {
    Null,
    Tree {
        tree: TreeId,
        node: NodeId,
        child: usize,
    },
    Text {
        tree: TreeId,
        node: NodeId,
        offset: usize,
        affinity: Affinity,
    },
}

/// Why a position is refused, the first that applies.
#[derive(Clone, Copy, Debug, PartialEq, Eq, Error)]
pub enum PosErr {
    #[error("the position is null, or its tree isn't live")]
    NoTree,
    #[error("its place isn't in the joined tree")]
    NoNode,
    /// The child's index, and how many children there are.
    #[error("index {0} of {1} children")]
    BadIndex(usize, usize),
    /// The offset, and the text's length.
    #[error("offset {0} in {1} scalars")]
    BadOffset(usize, usize),
    #[error("memory is wanting")]
    NoMemory,
}

impl From<NoMemory> for PosErr {
    ghost use Rattle.std.specs.Prelude.{◌≡◌};
    ghost use Rattle.ax_base.specs.declared.position.PosErr.TheVariants.{NoMemory as OutOfMemory};

    ghost from_gives = { λ _ e. e ≡ OutOfMemory };

    fn from(_error: NoMemory) -> PosErr {
        PosErr::NoMemory
    }
}
