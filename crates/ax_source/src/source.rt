//! The source tree and its calls.
ghost use Rattle.std.specs.Prelude.{ℕ, ◌≡◌, ◌≤◌, [], false, true, IfErr, IsTrue, OnOk, OnErr};
ghost use Rattle.ax_marks.specs.MarkList.{without};
ghost use Rattle.ax_trees.specs.Lists.{contains, NoneTwice};
ghost use Rattle.ax_trees.specs.Trees.{count, has, height, root_of};
ghost use Rattle.ax_trees.specs.Nodes.{pre};
ghost use Rattle.ax_tree.specs.MarkRule.{add_mark, add_marks};
ghost use Rattle.ax_tree.specs.Tree.{empty, IsWellFormed};
ghost use Rattle.ax_source.specs.Source.{IsMarkRefusal};

use crate::entries::Entry;
use crate::marking::mark_all;
use ax_base::{NodeId, TreeId};
use ax_marks::Marks;
use ax_node::{NodeData, TreeData};
use ax_tree::{MarkErr, TreeView};
use ax_views::pre;
use std::alloc::Global;
use std::collections::HashMap;
use std::marker::Model;

/// The tree of a frame, with the marks of nodes that have to be sent. It has at most 100,000 nodes, no chain of more than
/// 256, and marks of its own nodes alone.
#[derive(Drop)]
pub struct SourceTree {
    pub(crate) entries: HashMap<NodeId, Entry>,
    pub(crate) root: Option<NodeId>,
    pub(crate) about: TreeData,
    pub(crate) marks: Marks,
    pub(crate) changed: bool,
    pub(crate) alloc: Global,
}

impl Model for SourceTree {
    ghost use Rattle.ax_source.specs.Source.{Source, coded_source};

    ghost Value = { Source };

    ghost coded = { coded_source };

    ghost use Rattle.ax_source.specs.Kept.{IsSource, trees_kept};

    ghost view = { λ a. record { tree = record { about = a.about; trees = trees_kept a.entries a.root }; marks = a.marks; changed = a.changed } };

    ghost invariant = { λ a. IsSource a.entries a.root a.marks (trees_kept a.entries a.root) };
}

impl SourceTree {
    /// The empty tree, with blank data and without marks.
    pub fn new(alloc: Global, tree: TreeId) -> SourceTree
        ensures { result ≡ record { tree = empty tree; marks = []; changed = false } }
    {
        SourceTree {
            entries: HashMap::new(alloc),
            root: None,
            about: TreeData::blank(alloc, tree),
            marks: Marks::new(alloc),
            changed: false,
            alloc,
        }
    }

    /// The marks, in order: ids of nodes of the tree, each once.
    pub fn marks(&self) -> &Marks
        ensures marks { result.now ≡ self.now.marks }
        ensures there { (z : ℕ) → contains self.now.marks z ≡ true → has self.now.tree.trees z ≡ true }
        ensures once { NoneTwice self.now.marks }
    {
        // Its contract says that none stands twice.
        let _len = self.marks.len();
        &self.marks
    }

    /// Whether tree data were changed since they were last sent.
    pub fn data_changed(&self) -> bool
        ensures { result ≡ self.now.changed }
    {
        self.changed
    }

    /// Tree data were sent.
    pub fn data_sent(&mut self)
        ensures { self.new ≡ record self.old { changed = false } }
    {
        self.changed = false;
    }
}

impl SourceTree {
    /// Marks a node. A mark that is there keeps its place. Constant, over all calls.
    pub fn mark(&mut self, id: NodeId) -> Result<(), MarkErr>
        ensures ok { OnOk result (self.new ≡ record self.old { marks = add_mark self.old.marks id }) }
        ensures there { OnOk result (IsTrue (has self.old.tree.trees id)) }
        ensures refused { IfErr result (IsMarkRefusal self.old.tree.trees id) }
        ensures unchanged { OnErr result (self.new ≡ self.old) }
    {
        if !self.holds(id) {
            return Err(MarkErr::UnknownNode(id));
        }
        match self.marks.add(id) {
            Ok(_) => {}
            Err(_) => return Err(MarkErr::NoMemory),
        }
        Ok(())
    }

    /// Marks a node and all below it, in pre-order. Costs these nodes.
    pub fn mark_below(&mut self, id: NodeId) -> Result<(), MarkErr>
        ensures ok { OnOk result (self.new ≡ record self.old { marks = add_marks self.old.marks (pre self.old.tree.trees id) }) }
        ensures there { OnOk result (IsTrue (has self.old.tree.trees id)) }
        ensures refused { IfErr result (IsMarkRefusal self.old.tree.trees id) }
        ensures unchanged { OnErr result (self.new ≡ self.old) }
    {
        if !self.holds(id) {
            return Err(MarkErr::UnknownNode(id));
        }
        let ids = match pre(self.alloc, self, id) {
            Ok(ids) => ids,
            Err(_) => return Err(MarkErr::NoMemory),
        };
        match mark_all(self.alloc, &mut self.marks, ids.as_slice()) {
            Ok(()) => {}
            Err(_) => return Err(MarkErr::NoMemory),
        }
        Ok(())
    }

    /// Takes a mark out, if it is there. Constant, over all calls.
    pub fn unmark(&mut self, id: NodeId)
        ensures { self.new ≡ record self.old { marks = without self.old.marks id } }
    {
        let _ = self.marks.remove(id);
    }
}

impl TreeView for SourceTree {
    ghost use Rattle.ax_source.specs.Source.{Source};

    ghost tree = { λ s. s.tree };

    /// The root's id. No chain has more than 256 nodes.
    fn root(&self) -> Option<NodeId>
        ensures root { result ≡ root_of self.now.tree.trees }
        ensures well_formed { IsWellFormed self.now.tree }
        ensures low { height self.now.tree.trees ≤ 256 }
    {
        self.root
    }

    fn node(&self, id: NodeId) -> Option<&NodeData> {
        match self.entries.get(&id) {
            Some(entry) => Some(&entry.node),
            None => None,
        }
    }

    fn parent(&self, id: NodeId) -> Option<NodeId> {
        match self.entries.get(&id) {
            Some(entry) => entry.above,
            None => None,
        }
    }

    fn tree_data(&self) -> &TreeData {
        &self.about
    }

    /// How many nodes there are: at most 100,000.
    fn count(&self) -> usize
        ensures count { result ≡ count self.now.tree.trees }
        ensures few { result ≤ 100000 }
    {
        self.entries.len()
    }
}
