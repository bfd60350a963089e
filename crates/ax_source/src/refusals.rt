//! What stands against an edit.
ghost use Rattle.std.specs.Prelude.{◌≡◌, ◌==◌, ◌||◌, filter, length, not};
ghost use Rattle.ax_trees.specs.Trees.{has, is_bare, is_root};
ghost use Rattle.ax_trees.specs.Nodes.{below, children};
ghost use Rattle.ax_tree.specs.Edits.{refusal};
ghost use Rattle.ax_tree.specs.declared.edit.Edit.TheVariants as edits;

use crate::SourceTree;
use crate::attributes::first_bad;
use crate::children::others_count;
use ax_base::NodeId;
use ax_node::NodeData;
use ax_tree::{EditErr, SetNode, TreeView};
use ax_views::{depth, height_below, is_below};

// The most nodes of a tree, and of a chain.
const MOST_NODES: usize = 100_000;

const DEEPEST: usize = 256;

impl SourceTree {
    fn is_empty(&self) -> bool
        ensures { result ≡ is_bare self.now.tree.trees }
    {
        self.root().is_none()
    }

    fn is_root(&self, id: NodeId) -> bool
        ensures { result ≡ is_root self.now.tree.trees id }
    {
        match self.root() {
            Some(root) => root == id,
            None => false,
        }
    }

    pub(crate) fn holds(&self, id: NodeId) -> bool
        ensures { result ≡ has self.now.tree.trees id }
    {
        self.entries.contains_key(&id)
    }

    fn child_count(&self, id: NodeId) -> usize
        ensures { result ≡ length (children self.now.tree.trees id) }
    {
        match self.node(id) {
            Some(node) => node.children.len(),
            None => 0,
        }
    }

    /// How many children a node has beside `child`.
    fn other_count(&self, id: NodeId, child: NodeId) -> usize
        ensures { result ≡ length (filter (λ other. not (other == child)) (children self.now.tree.trees id)) }
    {
        match self.node(id) {
            Some(node) => others_count(node.children.as_slice(), child),
            None => 0,
        }
    }
}

/// What stands first against each edit. None of these takes memory, so a refusal never gives way to want of it.
impl SourceTree {
    pub(crate) fn insert_refusal(
        &self,
        parent: NodeId,
        index: usize,
        node: &NodeData,
    ) -> Option<EditErr>
        ensures { result ≡ refusal (edits.Insert parent index node.now) self.now.tree }
    {
        let _entries = &self.entries;
        if self.is_empty() {
            return Some(EditErr::NoRoot);
        }
        if !self.holds(parent) {
            return Some(EditErr::UnknownNode(parent));
        }
        if self.holds(node.id) {
            return Some(EditErr::IdTaken(node.id));
        }
        let len = self.child_count(parent);
        if index > len {
            return Some(EditErr::BadIndex(index, len));
        }
        let count = self.count() + 1;
        if count > MOST_NODES {
            return Some(EditErr::TooMany(count));
        }
        let deep = depth(self, parent) + 1;
        if deep > DEEPEST {
            return Some(EditErr::TooDeep(deep));
        }
        None
    }

    pub(crate) fn remove_refusal(&self, id: NodeId) -> Option<EditErr>
        ensures { result ≡ refusal (edits.Remove id) self.now.tree }
    {
        if self.is_empty() {
            return Some(EditErr::NoRoot);
        }
        if !self.holds(id) {
            return Some(EditErr::UnknownNode(id));
        }
        if self.is_root(id) {
            return Some(EditErr::IsRoot(id));
        }
        None
    }

    pub(crate) fn move_refusal(&self, node: NodeId, parent: NodeId, index: usize) -> Option<EditErr>
        ensures { result ≡ refusal (edits.Move node parent index) self.now.tree }
    {
        let _entries = &self.entries;
        if self.is_empty() {
            return Some(EditErr::NoRoot);
        }
        if !self.holds(node) {
            return Some(EditErr::UnknownNode(node));
        }
        if !self.holds(parent) {
            return Some(EditErr::UnknownNode(parent));
        }
        let len = self.other_count(parent, node);
        if index > len {
            return Some(EditErr::BadIndex(index, len));
        }
        if self.is_root(node) {
            return Some(EditErr::IsRoot(node));
        }
        if self.is_within(parent, node) {
            return Some(EditErr::IntoItself(node));
        }
        let deep = depth(self, parent) + 1 + height_below(self, node);
        if deep > DEEPEST {
            return Some(EditErr::TooDeep(deep));
        }
        None
    }

    /// Whether an id is `over`, or stands below it.
    fn is_within(&self, id: NodeId, over: NodeId) -> bool
        ensures { result ≡ (over == id || has (below self.now.tree.trees over) id) }
    {
        over == id || is_below(self, id, over)
    }

    pub(crate) fn set_refusal(&self, set: &SetNode) -> Option<EditErr>
        ensures { result ≡ refusal (edits.Set set.now) self.now.tree }
    {
        if self.is_empty() {
            return Some(EditErr::NoRoot);
        }
        if !self.holds(set.node) {
            return Some(EditErr::UnknownNode(set.node));
        }
        match first_bad(set.attrs.as_slice()) {
            Some(key) => Some(EditErr::BadAttr(key)),
            None => None,
        }
    }
}
