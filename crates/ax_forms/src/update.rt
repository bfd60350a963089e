//! Updates.
ghost use Rattle.std.specs.Prelude.{◌≡◌, Result, option_map};
ghost use Rattle.serde_json.specs.Data.{Data};
ghost use Rattle.serde_json.specs.View.{view};
ghost use Rattle.ax_json.specs.Refused.{Refusal, Gives};
ghost use Rattle.ax_forms.specs.Updates.{update_node, update_node_from, update_of, with_children};

use crate::look::{FoundLook, node_from};
use crate::news::UpdateDataForm;
use ax_attrs::Version;
use ax_base::{Ids, TreeId};
use ax_json::{Form, ListOf, Node, NodeOrNone, WalkErr, fields4, fields6, optional, required};
use ax_node::NodeData;
use ax_tree::TreeUpdate;
use serde_json::Value;
use std::alloc::Global;

#[tactic(auto, unfolding(crate::specs::Updates::with_children))]
fn with_children(node: NodeData, children: Ids) -> NodeData
    ensures { result ≡ with_children node children }
{
    let NodeData {
        id,
        role,
        states,
        attrs,
        rect,
        children: _,
    } = node;
    NodeData {
        id,
        role,
        states,
        attrs,
        rect,
        children,
    }
}

/// The members of a node of an update, as they are found.
#[derive(Drop)]
struct FoundNode {
    node: Option<Value>,
    look: FoundLook,
    children: Option<Value>,
}

#[tactic(auto, unfolding(crate::specs::Updates::update_node_from))]
fn update_node_from(alloc: Global, version: Version, found: FoundNode) -> Result<NodeData, WalkErr>
    ensures { Gives (λ x. x) result (update_node_from version (option_map view found.node) (option_map view found.look.role) (option_map view found.look.states) (option_map view found.look.attrs) (option_map view found.look.rect) (option_map view found.children)) }
{
    let FoundNode {
        node,
        look,
        children,
    } = found;
    let id = required(alloc, &Node, "node", node)?;
    let node = node_from(alloc, version, id, look)?;
    let children = optional(alloc, &ListOf { form: Node }, "children", children)?;
    Ok(with_children(node, children.unwrap_or(Ids::new(alloc))))
}

/// The data of a node of an update.
#[derive(Clone, Copy)]
struct UpdateNodeForm {
    version: Version,
}

impl Form for UpdateNodeForm {
    type Item = NodeData;

    ghost reads = { λ f. update_node f.version };

    #[tactic(auto, unfolding(crate::specs::Updates::update_node))]
    fn read(&self, alloc: Global, v: Value) -> Result<NodeData, WalkErr> {
        let (node, role, states, attrs, rect, children) = fields6(
            alloc, v, "node", "role", "states", "attrs", "rect", "children",
        )?;
        let look = FoundLook {
            role,
            states,
            attrs,
            rect,
        };
        update_node_from(
            alloc,
            self.version,
            FoundNode {
                node,
                look,
                children,
            },
        )
    }
}

/// An update of this tree, in a script of this version.
#[derive(Clone, Copy)]
pub struct UpdateForm {
    pub version: Version,
    pub tree: TreeId,
}

impl Form for UpdateForm {
    type Item = TreeUpdate;

    ghost reads = { λ f. update_of f.version f.tree };

    #[tactic(auto, unfolding(crate::specs::Updates::update_of))]
    fn read(&self, alloc: Global, v: Value) -> Result<TreeUpdate, WalkErr> {
        let (clear, root, nodes, news) = fields4(alloc, v, "clear", "root", "nodes", "data")?;
        let clear = optional(alloc, &NodeOrNone, "clear", clear)?;
        let root = optional(alloc, &NodeOrNone, "root", root)?;
        let form = ListOf {
            form: UpdateNodeForm {
                version: self.version,
            },
        };
        let nodes = required(alloc, &form, "nodes", nodes)?;
        let news = optional(alloc, &UpdateDataForm { tree: self.tree }, "data", news)?;
        Ok(TreeUpdate {
            clear: clear.unwrap_or(None),
            root: root.unwrap_or(None),
            nodes,
            tree_data: news,
        })
    }
}
