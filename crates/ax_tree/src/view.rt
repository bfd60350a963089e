//! Trees and forests that can be read, whatever keeps them.
ghost use Rattle.std.specs.Prelude.{◌≡◌, ◌≤◌, IfSome, Some, option_map, is_some, IsTrue, ◌↔◌, IsSome};
ghost use Rattle.std.specs.Option.{option_copied};
ghost use Rattle.ax_trees.specs.Trees.{root_of, height, count};
ghost use Rattle.ax_trees.specs.Nodes.{parent};
ghost use Rattle.ax_tree.specs.Tree.{Tree, IsWellFormed, node};
ghost use Rattle.ax_tree.specs.Forest.{Forest, IsSound, first_tree, live_tree, host_of, hosted_by};

use ax_base::{NodeId, Place, TreeId};
use ax_node::{NodeData, TreeData};

/// A tree that can be read, whatever keeps it. It is well formed.
pub trait TreeView {
    /// The tree.
    ghost tree: { Self → Tree };

    /// The root's id.
    fn root(&self) -> Option<NodeId>
        ensures root { result ≡ root_of (tree self.now).trees }
        ensures well_formed { IsWellFormed (tree self.now) };

    /// The node of an id.
    fn node(&self, id: NodeId) -> Option<&NodeData>
        ensures { option_copied result ≡ node (tree self.now) id };

    /// The id above an id.
    fn parent(&self, id: NodeId) -> Option<NodeId>
        ensures { result ≡ parent (tree self.now).trees id };

    /// What is known of the whole tree.
    fn tree_data(&self) -> &TreeData
        ensures { result.now ≡ (tree self.now).about };

    /// How many nodes there are.
    fn count(&self) -> usize
        ensures { result ≡ count (tree self.now).trees };
}

/// Trees in their order, some of them gone, that hang at nodes of one another. Their ids differ; each live tree is well
/// formed, has its own id in its data, and no chain of more than 256 nodes.
pub trait Grove {
    /// The forest.
    ghost forest: { Self → Forest };

    type Tree: TreeView;

    /// The first tree.
    fn first(&self) -> TreeId
        ensures { first_tree (forest self.now) ≡ Some result };

    /// Whether a tree is there and isn't gone.
    fn live(&self, t: TreeId) -> bool
        ensures { IsTrue result ↔ IsSome (live_tree (forest self.now) t) };

    /// The tree, where it is live. Whatever tree is asked for, the whole forest is sound.
    fn tree(&self, t: TreeId) -> Option<&Self::Tree>
        ensures tree { option_map (λ r. Self.Tree.tree r.now) result ≡ live_tree (forest self.now) t }
        ensures low { IfSome result (λ r. height (Self.Tree.tree r.now).trees ≤ 256) }
        ensures sound { IsSound (forest self.now) };

    /// The node at which the tree hangs.
    fn host_of(&self, t: TreeId) -> Option<Place>
        ensures { result ≡ host_of (forest self.now) t };

    /// The tree that hangs at the node.
    fn hosted_by(&self, p: Place) -> Option<TreeId>
        ensures { result ≡ hosted_by (forest self.now) p };
}
