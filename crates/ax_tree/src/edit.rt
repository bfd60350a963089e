//! Edits of a source tree, and why an edit or a mark is refused.
ghost use Rattle.std.specs.Prelude.{◌≡◌, IfOk};
ghost use Rattle.ax_tree.specs.declared.edit.EditErr.TheVariants.{NoMemory as EditHasNoMemory};
ghost use Rattle.ax_tree.specs.declared.edit.MarkErr.TheVariants.{NoMemory as MarkHasNoMemory};

use ax_attrs::{Key, Role};
use ax_base::{NoMemory, NodeId, Rect, Seq, Text, TreeId};
use ax_node::{NodeData, StateSet, Value};
use std::alloc::Global;
use thiserror::Error;

/// A list of edits.
pub type Edits = Seq<Edit>;
/// The attributes that are to be replaced or removed, in order.
pub type AttrChanges = Seq<AttrChange>;

/// An edit of a source tree. The node data of `Root` and `Insert` have no children.
#[derive(Debug, Drop)]
pub enum Edit {
    /// The tree becomes this one node.
    Root(NodeData),
    /// A leaf more, at `index` of the parent's children.
    Insert {
        parent: NodeId,
        index: usize,
        node: NodeData,
    },
    /// The node goes, with all below it.
    Remove(NodeId),
    /// The node, with all below it, stands at `index` among the other children of the new parent.
    Move {
        node: NodeId,
        parent: NodeId,
        index: usize,
    },
    /// What is given of the node is replaced.
    Set(SetNode),
    /// What is given of the tree data is replaced.
    Tree(SetTree),
}

/// What is to be replaced of a node.
#[derive(Debug, Drop)]
pub struct SetNode {
    pub node: NodeId,
    pub role: Option<Role>,
    pub states: Option<StateSet>,
    pub attrs: AttrChanges,
    pub rect: Option<Rect>,
}

/// An attribute with its new value, or none, which removes it.
#[derive(Debug, Drop)]
pub struct AttrChange {
    pub key: Key,
    pub value: Option<Value>,
}

/// What is to be replaced of tree data: an outer `Some` replaces the field, an outer `None` leaves it.
#[derive(Debug, Drop)]
pub struct SetTree {
    pub parent: Option<Option<TreeId>>,
    pub focused: Option<Option<TreeId>>,
    pub loaded: Option<bool>,
    pub focus: Option<Option<NodeId>>,
    pub anchor: Option<Option<(NodeId, u32)>>,
    pub end: Option<Option<(NodeId, u32)>>,
    pub title: Option<Text>,
    pub url: Option<Text>,
}

/// Why an edit was refused.
#[derive(Clone, Copy, Debug, PartialEq, Eq, Error)]
pub enum EditErr {
    #[error("the tree has no root")]
    NoRoot,
    #[error("node {} is not in the tree", .0.get())]
    UnknownNode(NodeId),
    #[error("node {} is in the tree already", .0.get())]
    IdTaken(NodeId),
    /// The index, and how many children there are.
    #[error("index {0} is beyond the {1} children")]
    BadIndex(usize, usize),
    #[error("node {} is the root", .0.get())]
    IsRoot(NodeId),
    #[error("node {} would stand below itself", .0.get())]
    IntoItself(NodeId),
    /// How many nodes there would be.
    #[error("the tree would have {0} nodes")]
    TooMany(usize),
    /// How many nodes the longest chain would have.
    #[error("a chain would have {0} nodes")]
    TooDeep(usize),
    #[error("attribute {} does not take this value, or is given twice", .0.number())]
    BadAttr(Key),
    #[error("no memory")]
    NoMemory,
}

/// Why a mark was refused.
#[derive(Clone, Copy, Debug, PartialEq, Eq, Error)]
pub enum MarkErr {
    #[error("node {} is not in the tree", .0.get())]
    UnknownNode(NodeId),
    #[error("no memory")]
    NoMemory,
}

impl From<NoMemory> for EditErr {
    ghost from_gives = { λ _ e. e ≡ EditHasNoMemory };

    fn from(_: NoMemory) -> EditErr {
        EditErr::NoMemory
    }
}

impl From<NoMemory> for MarkErr {
    ghost from_gives = { λ _ e. e ≡ MarkHasNoMemory };

    fn from(_: NoMemory) -> MarkErr {
        MarkErr::NoMemory
    }
}

impl Edit {
    /// The same edit once more, as a journal and a slip both hold it. Linear in its size.
    pub fn copy(&self, alloc: Global) -> Result<Edit, NoMemory>
        ensures { IfOk result (λ e. e ≡ self.now) }
    {
        match self {
            Edit::Root(node) => Ok(Edit::Root(node.copy()?)),
            Edit::Insert {
                parent,
                index,
                node,
            } => Ok(Edit::Insert {
                parent: *parent,
                index: *index,
                node: node.copy()?,
            }),
            Edit::Remove(node) => Ok(Edit::Remove(*node)),
            Edit::Move {
                node,
                parent,
                index,
            } => Ok(Edit::Move {
                node: *node,
                parent: *parent,
                index: *index,
            }),
            Edit::Set(set) => Ok(Edit::Set(set.copy(alloc)?)),
            Edit::Tree(set) => Ok(Edit::Tree(set.copy()?)),
        }
    }
}

impl SetNode {
    pub fn copy(&self, alloc: Global) -> Result<SetNode, NoMemory>
        ensures { IfOk result (λ s. s ≡ self.now) }
    {
        let states = match &self.states {
            Some(states) => Some(states.copy()?),
            None => None,
        };
        let attrs = copy_changes(alloc, self.attrs.as_slice())?;
        Ok(SetNode {
            node: self.node,
            role: self.role,
            states,
            attrs,
            rect: self.rect,
        })
    }
}

impl AttrChange {
    pub fn copy(&self) -> Result<AttrChange, NoMemory>
        ensures { IfOk result (λ c. c ≡ self.now) }
    {
        let value = match &self.value {
            Some(value) => Some(value.copy()?),
            None => None,
        };
        Ok(AttrChange {
            key: self.key,
            value,
        })
    }
}

impl SetTree {
    pub fn copy(&self) -> Result<SetTree, NoMemory>
        ensures { IfOk result (λ s. s ≡ self.now) }
    {
        let title = copy_text(&self.title)?;
        let url = copy_text(&self.url)?;
        Ok(SetTree {
            parent: self.parent,
            focused: self.focused,
            loaded: self.loaded,
            focus: self.focus,
            anchor: self.anchor,
            end: self.end,
            title,
            url,
        })
    }
}

fn copy_text(text: &Option<Text>) -> Result<Option<Text>, NoMemory>
    ensures { IfOk result (λ t. t ≡ text.now) }
{
    match text {
        Some(text) => Ok(Some(text.copy()?)),
        None => Ok(None),
    }
}

fn copy_changes(alloc: Global, changes: &[AttrChange]) -> Result<AttrChanges, NoMemory>
    ensures { IfOk result (λ copy. copy ≡ changes.now) }
{
    let mut copy = AttrChanges::new(alloc);
    for change in changes {
        copy.push(change.copy()?)?;
    }
    Ok(copy)
}
