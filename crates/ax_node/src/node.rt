//! Nodes.
ghost use Rattle.std.specs.Prelude.{◌≡◌, ◌↔◌, [], IfOk, IsTrue};
ghost use Rattle.ax_node.specs.Look.{look_of, node_of, blank_look};

use crate::{AttrList, StateSet};
use ax_attrs::Role;
use ax_base::{Ids, NoMemory, NodeId, Rect};
use std::alloc::Global;

/// A node with the ids of its children.
#[derive(Debug, Drop)]
pub struct NodeData {
    pub id: NodeId,
    pub role: Role,
    pub states: StateSet,
    pub attrs: AttrList,
    pub rect: Rect,
    pub children: Ids,
}

impl NodeData {
    /// A generic node without states, attributes or children, and with an empty rectangle at the origin.
    pub fn blank(alloc: Global, id: NodeId) -> NodeData
        ensures { result ≡ node_of id blank_look [] }
    {
        NodeData {
            id,
            role: Role::GENERIC,
            states: StateSet::new(alloc),
            attrs: AttrList::new(alloc),
            rect: Rect::blank(),
            children: Ids::new(alloc),
        }
    }

    /// At most three blocks, for states, attributes and children; its texts are shared.
    pub fn copy(&self) -> Result<NodeData, NoMemory>
        ensures { IfOk result (λ n. n ≡ self.now) }
    {
        let states = self.states.copy()?;
        let attrs = self.attrs.copy()?;
        let children = self.children.copy()?;
        Ok(NodeData {
            id: self.id,
            role: self.role,
            states,
            attrs,
            rect: self.rect,
            children,
        })
    }
}

/// Whether role, states, attributes and rectangle are the same. The ids aren't asked.
pub fn same_but_children(a: &NodeData, b: &NodeData) -> bool
    ensures { IsTrue result ↔ (look_of a.now ≡ look_of b.now) }
{
    if a.role != b.role {
        return false;
    }
    if !a.rect.same(&b.rect) {
        return false;
    }
    if !a.states.same(&b.states) {
        return false;
    }
    a.attrs.same(&b.attrs)
}
