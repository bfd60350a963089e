//! The six edits.
ghost use Rattle.std.specs.Prelude.{◌≡◌, [], IfErr, IfSome, IsTrue, None, OnErr, OnOk};
ghost use Rattle.ax_node.specs.Look.{look_of};
ghost use Rattle.ax_trees.specs.Trees.{has};
ghost use Rattle.ax_trees.specs.Nodes.{pre};
ghost use Rattle.ax_tree.specs.Tree.{node};
ghost use Rattle.ax_tree.specs.Edits.{HasLeaf, look_set, refusal, IsRefusal};
ghost use Rattle.ax_tree.specs.declared.edit.Edit.TheVariants as edits;
ghost use Rattle.ax_source.specs.Parts.{look_with};
ghost use Rattle.ax_source.specs.Source.{after_edit};

use crate::SourceTree;
use crate::attributes::{Parts, new_parts, set_data};
use crate::entries::{Entry, drop_child, plant, put_in, relink};
use crate::marking::{mark_two, unmark_all, unmark_two};
use ax_base::NodeId;
use ax_marks::Marks;
use ax_node::NodeData;
use ax_tree::{Edit, EditErr, SetNode, SetTree, TreeView};
use ax_views::{pre, take_out};
use std::collections::HashMap;

impl SourceTree {
    /// Makes an edit: the tree, the marks and the flag of changed tree data are then those of the rule. Refused by the first
    /// refusal that stands, or for want of memory where none does, and then all is as it was. Costs the depth and the
    /// children of the nodes that it is about, and a removal the nodes that go; a move walks what it moves for its height.
    pub fn edit(&mut self, e: &Edit) -> Result<(), EditErr>
        requires { HasLeaf e.now }
        ensures ok { OnOk result (self.new ≡ after_edit e.now self.old) }
        ensures allowed { OnOk result (refusal e.now self.old.tree ≡ None) }
        ensures refused { IfErr result (IsRefusal e.now self.old.tree) }
        ensures unchanged { OnErr result (self.new ≡ self.old) }
    {
        match e {
            Edit::Root(node) => self.set_root(node),
            Edit::Insert {
                parent,
                index,
                node,
            } => self.insert(*parent, *index, node),
            Edit::Remove(node) => self.remove(*node),
            Edit::Move {
                node,
                parent,
                index,
            } => self.move_to(*node, *parent, *index),
            Edit::Set(set) => self.set_node(set),
            Edit::Tree(set) => self.set_tree(set),
        }
    }
}

impl SourceTree {
    fn set_root(&mut self, node: &NodeData) -> Result<(), EditErr>
        requires { node.now.children ≡ [] }
        ensures ok { OnOk result (self.new ≡ after_edit (edits.Root node.now) self.old) }
        ensures err { IfErr result (λ e. e ≡ EditErr.NoMemory) }
        ensures unchanged { OnErr result (self.new ≡ self.old) }
    {
        let node = match node.copy() {
            Ok(node) => node,
            Err(_) => return Err(EditErr::NoMemory),
        };
        let id = node.id;
        let mut entries = HashMap::new(self.alloc);
        match entries.insert(id, Entry { node, above: None }) {
            Ok(_) => {}
            Err(_) => return Err(EditErr::NoMemory),
        }
        let mut marks = Marks::new(self.alloc);
        match marks.add(id) {
            Ok(_) => {}
            Err(_) => return Err(EditErr::NoMemory),
        }
        self.entries = entries;
        self.root = Some(id);
        self.marks = marks;
        Ok(())
    }

    fn insert(&mut self, parent: NodeId, index: usize, node: &NodeData) -> Result<(), EditErr>
        requires { node.now.children ≡ [] }
        ensures ok { OnOk result (self.new ≡ after_edit (edits.Insert parent index node.now) self.old) }
        ensures allowed { OnOk result (refusal (edits.Insert parent index node.now) self.old.tree ≡ None) }
        ensures refused { IfErr result (IsRefusal (edits.Insert parent index node.now) self.old.tree) }
        ensures unchanged { OnErr result (self.new ≡ self.old) }
    {
        if let Some(refusal) = self.insert_refusal(parent, index, node) {
            return Err(refusal);
        }
        let node = match node.copy() {
            Ok(node) => node,
            Err(_) => return Err(EditErr::NoMemory),
        };
        self.plant(parent, index, node)
    }

    fn plant(&mut self, parent: NodeId, index: usize, node: NodeData) -> Result<(), EditErr>
        requires leaf { node.children ≡ [] }
        requires allowed { refusal (edits.Insert parent index node) self.old.tree ≡ None }
        ensures ok { OnOk result (self.new ≡ after_edit (edits.Insert parent index node) self.old) }
        ensures memory { IfErr result (λ e. e ≡ EditErr.NoMemory) }
        ensures unchanged { OnErr result (self.new ≡ self.old) }
    {
        let id = node.id;
        let new = match mark_two(&mut self.marks, parent, id) {
            Ok(new) => new,
            Err(_) => return Err(EditErr::NoMemory),
        };
        match plant(&mut self.entries, parent, index, node) {
            Ok(()) => Ok(()),
            Err(_) => {
                unmark_two(&mut self.marks, parent, id, new);
                Err(EditErr::NoMemory)
            }
        }
    }

    fn remove(&mut self, id: NodeId) -> Result<(), EditErr>
        ensures ok { OnOk result (self.new ≡ after_edit (edits.Remove id) self.old) }
        ensures allowed { OnOk result (refusal (edits.Remove id) self.old.tree ≡ None) }
        ensures refused { IfErr result (IsRefusal (edits.Remove id) self.old.tree) }
        ensures unchanged { OnErr result (self.new ≡ self.old) }
    {
        if let Some(refusal) = self.remove_refusal(id) {
            return Err(refusal);
        }
        let gone = match pre(self.alloc, self, id) {
            Ok(gone) => gone,
            Err(_) => return Err(EditErr::NoMemory),
        };
        self.prune(id, gone.as_slice())
    }

    fn prune(&mut self, id: NodeId, gone: &[NodeId]) -> Result<(), EditErr>
        requires allowed { refusal (edits.Remove id) self.old.tree ≡ None }
        requires gone { gone.now ≡ pre self.old.tree.trees id }
        ensures ok { OnOk result (self.new ≡ after_edit (edits.Remove id) self.old) }
        ensures memory { IfErr result (λ e. e ≡ EditErr.NoMemory) }
        ensures unchanged { OnErr result (self.new ≡ self.old) }
    {
        let _entries = &self.entries;
        let parent = match self.parent(id) {
            Some(parent) => parent,
            None => unreachable!(),
        };
        match self.marks.add(parent) {
            Ok(_) => {}
            Err(_) => return Err(EditErr::NoMemory),
        }
        unmark_all(&mut self.marks, gone);
        drop_child(&mut self.entries, parent, id);
        take_out(&mut self.entries, gone);
        Ok(())
    }

    fn move_to(&mut self, node: NodeId, parent: NodeId, index: usize) -> Result<(), EditErr>
        ensures ok { OnOk result (self.new ≡ after_edit (edits.Move node parent index) self.old) }
        ensures allowed { OnOk result (refusal (edits.Move node parent index) self.old.tree ≡ None) }
        ensures refused { IfErr result (IsRefusal (edits.Move node parent index) self.old.tree) }
        ensures unchanged { OnErr result (self.new ≡ self.old) }
    {
        if let Some(refusal) = self.move_refusal(node, parent, index) {
            return Err(refusal);
        }
        self.relink(node, parent, index)
    }

    fn relink(&mut self, node: NodeId, parent: NodeId, index: usize) -> Result<(), EditErr>
        requires { refusal (edits.Move node parent index) self.old.tree ≡ None }
        ensures ok { OnOk result (self.new ≡ after_edit (edits.Move node parent index) self.old) }
        ensures memory { IfErr result (λ e. e ≡ EditErr.NoMemory) }
        ensures unchanged { OnErr result (self.new ≡ self.old) }
    {
        let _entries = &self.entries;
        let old = match self.parent(node) {
            Some(old) => old,
            None => unreachable!(),
        };
        let new = match mark_two(&mut self.marks, old, parent) {
            Ok(new) => new,
            Err(_) => return Err(EditErr::NoMemory),
        };
        match relink(&mut self.entries, node, old, parent, index) {
            Ok(()) => Ok(()),
            Err(_) => {
                unmark_two(&mut self.marks, old, parent, new);
                Err(EditErr::NoMemory)
            }
        }
    }

    fn set_node(&mut self, set: &SetNode) -> Result<(), EditErr>
        ensures ok { OnOk result (self.new ≡ after_edit (edits.Set set.now) self.old) }
        ensures allowed { OnOk result (refusal (edits.Set set.now) self.old.tree ≡ None) }
        ensures refused { IfErr result (IsRefusal (edits.Set set.now) self.old.tree) }
        ensures unchanged { OnErr result (self.new ≡ self.old) }
    {
        if let Some(refusal) = self.set_refusal(set) {
            return Err(refusal);
        }
        let parts = match self.node(set.node) {
            Some(node) => match new_parts(node, set) {
                Ok(parts) => parts,
                Err(_) => return Err(EditErr::NoMemory),
            },
            None => unreachable!(),
        };
        self.put(set, parts)
    }

    fn put(&mut self, set: &SetNode, parts: Parts) -> Result<(), EditErr>
        requires there { IsTrue (has self.old.tree.trees set.now.node) }
        requires ready { IfSome (node self.old.tree set.now.node) (λ n. look_with set.now parts (look_of n) ≡ look_set set.now (look_of n)) }
        ensures ok { OnOk result (self.new ≡ after_edit (edits.Set set.now) self.old) }
        ensures memory { IfErr result (λ e. e ≡ EditErr.NoMemory) }
        ensures unchanged { OnErr result (self.new ≡ self.old) }
    {
        match self.marks.add(set.node) {
            Ok(_) => {}
            Err(_) => return Err(EditErr::NoMemory),
        }
        put_in(&mut self.entries, set, parts);
        Ok(())
    }

    fn set_tree(&mut self, set: &SetTree) -> Result<(), EditErr>
        ensures ok { OnOk result (self.new ≡ after_edit (edits.Tree set.now) self.old) }
        ensures err { IfErr result (λ e. e ≡ EditErr.NoMemory) }
        ensures unchanged { OnErr result (self.new ≡ self.old) }
    {
        match set_data(&mut self.about, set) {
            Ok(()) => {}
            Err(_) => return Err(EditErr::NoMemory),
        }
        self.changed = true;
        Ok(())
    }
}
