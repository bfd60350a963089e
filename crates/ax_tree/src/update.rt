//! Updates of a tree, bundles of them, and why they are refused.
ghost use Rattle.std.specs.Prelude.{◌≡◌, IfOk};
ghost use Rattle.ax_tree.specs.declared.update.Refusal.TheVariants.{NoMemory as HasNoMemory};

use ax_base::{NoMemory, NodeId, Seq};
use ax_node::{NodeData, TreeData};
use std::alloc::Global;

/// A list of nodes.
pub type Nodes = Seq<NodeData>;
/// A list of updates.
pub type Updates = Seq<TreeUpdate>;
/// The updates of a packet, which are applied one after the other.
pub type Bundle = Seq<TreeUpdate>;

/// A change of a tree: an id to clear, a root, the data of nodes in order, and tree data.
#[derive(Debug, Drop)]
pub struct TreeUpdate {
    pub clear: Option<NodeId>,
    pub root: Option<NodeId>,
    pub nodes: Nodes,
    pub tree_data: Option<TreeData>,
}

/// Why an update was refused.
#[derive(Clone, Copy, Debug, PartialEq, Eq)]
pub enum Refusal {
    /// The id to clear isn't in the tree.
    BadClear(NodeId),
    /// A node has data and isn't in the tree.
    NotInTree(NodeId),
    /// A child stands twice in one list.
    DuplicateChild(NodeId),
    /// A child stands elsewhere in the tree.
    Reparented(NodeId),
    /// The least id whose data never came.
    Pending(NodeId),
    /// How many nodes the longest chain would have.
    TooDeep(usize),
    NoMemory,
}

impl From<NoMemory> for Refusal {
    ghost from_gives = { λ _ e. e ≡ HasNoMemory };

    fn from(_: NoMemory) -> Refusal {
        Refusal::NoMemory
    }
}

/// Why a bundle was refused, and at which of its updates. There is no `From<NoMemory>`, since only who applies the bundle
/// knows the place.
#[derive(Clone, Copy, Debug, PartialEq, Eq)]
pub struct BundleErr {
    pub at: usize,
    pub why: Refusal,
}

impl TreeUpdate {
    /// The same update once more. Linear in its size.
    pub fn copy(&self, alloc: Global) -> Result<TreeUpdate, NoMemory>
        ensures { IfOk result (λ u. u ≡ self.now) }
    {
        let nodes = copy_nodes(alloc, self.nodes.as_slice())?;
        let tree_data = match &self.tree_data {
            Some(tree_data) => Some(tree_data.copy()?),
            None => None,
        };
        Ok(TreeUpdate {
            clear: self.clear,
            root: self.root,
            nodes,
            tree_data,
        })
    }
}

fn copy_nodes(alloc: Global, nodes: &[NodeData]) -> Result<Nodes, NoMemory>
    ensures { IfOk result (λ copy. copy ≡ nodes.now) }
{
    let mut copy = Nodes::new(alloc);
    for node in nodes {
        copy.push(node.copy()?)?;
    }
    Ok(copy)
}
