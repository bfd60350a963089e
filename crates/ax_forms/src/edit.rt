//! The operations of a frame.
ghost use Rattle.std.specs.Prelude.{◌≡◌, Result, option_map};
ghost use Rattle.serde_json.specs.Data.{Data};
ghost use Rattle.serde_json.specs.View.{view};
ghost use Rattle.ax_json.specs.Refused.{Refusal, Gives};
ghost use Rattle.ax_forms.specs.Edits.{insert_from, insert_op, move_op, node_alone, op_as, op_of, pass_op, root_op, set_op};

use crate::look::{FoundLook, node_from, set_from};
use crate::news::NewsForm;
use crate::place::OFFSET;
use ax_ask::{FrameOp, FrameOpName, OpName};
use ax_attrs::Version;
use ax_base::NodeId;
use ax_json::{
    Fault, Form, Node, WalkErr, fields1, fields2, fields4, fields6, fields8, in_member, refuse,
    required, tag,
};
use ax_tree::Edit;
use serde_json::Value;
use std::alloc::Global;

#[tactic(auto, unfolding(crate::specs::Edits::root_op))]
fn root_op(alloc: Global, version: Version, v: Value) -> Result<FrameOp, WalkErr>
    ensures { Gives (λ x. x) result (root_op version (view v)) }
{
    let (_, node, role, states, attrs, rect) = fields6(
        alloc, v, "op", "node", "role", "states", "attrs", "rect",
    )?;
    let id = required(alloc, &Node, "node", node)?;
    let found = FoundLook {
        role,
        states,
        attrs,
        rect,
    };
    let node = node_from(alloc, version, id, found)?;
    Ok(FrameOp::Edit(Edit::Root(node)))
}

/// The members of `insert`, as they are found.
#[derive(Drop)]
struct FoundInsert {
    parent: Option<Value>,
    index: Option<Value>,
    node: Option<Value>,
    look: FoundLook,
}

#[tactic(auto, unfolding(crate::specs::Edits::insert_from))]
fn insert_from(alloc: Global, version: Version, found: FoundInsert) -> Result<FrameOp, WalkErr>
    ensures { Gives (λ x. x) result (insert_from version (option_map view found.parent) (option_map view found.index) (option_map view found.node) (option_map view found.look.role) (option_map view found.look.states) (option_map view found.look.attrs) (option_map view found.look.rect)) }
{
    let FoundInsert {
        parent,
        index,
        node,
        look,
    } = found;
    let parent = required(alloc, &Node, "parent", parent)?;
    let index = required(alloc, &OFFSET, "index", index)?;
    let id = required(alloc, &Node, "node", node)?;
    let node = node_from(alloc, version, id, look)?;
    Ok(FrameOp::Edit(Edit::Insert {
        parent,
        index: index as usize,
        node,
    }))
}

#[tactic(auto, unfolding(crate::specs::Edits::insert_op, ax_json::specs::Walk::known))]
fn insert_op(alloc: Global, version: Version, v: Value) -> Result<FrameOp, WalkErr>
    ensures { Gives (λ x. x) result (insert_op version (view v)) }
{
    let (_, parent, index, node, role, states, attrs, rect) = fields8(
        alloc, v, "op", "parent", "index", "node", "role", "states", "attrs", "rect",
    )?;
    let look = FoundLook {
        role,
        states,
        attrs,
        rect,
    };
    insert_from(
        alloc,
        version,
        FoundInsert {
            parent,
            index,
            node,
            look,
        },
    )
}

/// An operation that names a node alone.
#[tactic(auto, unfolding(crate::specs::Edits::node_alone))]
fn node_alone(alloc: Global, v: Value) -> Result<NodeId, WalkErr>
    ensures { Gives (λ x. x) result (node_alone (view v)) }
{
    let (_, node) = fields2(alloc, v, "op", "node")?;
    required(alloc, &Node, "node", node)
}

#[tactic(auto, unfolding(crate::specs::Edits::move_op))]
fn move_op(alloc: Global, v: Value) -> Result<FrameOp, WalkErr>
    ensures { Gives (λ x. x) result (move_op (view v)) }
{
    let (_, node, parent, index) = fields4(alloc, v, "op", "node", "parent", "index")?;
    let node = required(alloc, &Node, "node", node)?;
    let parent = required(alloc, &Node, "parent", parent)?;
    let index = required(alloc, &OFFSET, "index", index)?;
    Ok(FrameOp::Edit(Edit::Move {
        node,
        parent,
        index: index as usize,
    }))
}

#[tactic(auto, unfolding(crate::specs::Edits::set_op))]
fn set_op(alloc: Global, version: Version, v: Value) -> Result<FrameOp, WalkErr>
    ensures { Gives (λ x. x) result (set_op version (view v)) }
{
    let (_, node, role, states, attrs, rect) = fields6(
        alloc, v, "op", "node", "role", "states", "attrs", "rect",
    )?;
    let id = required(alloc, &Node, "node", node)?;
    let found = FoundLook {
        role,
        states,
        attrs,
        rect,
    };
    let changes = set_from(alloc, version, id, found)?;
    Ok(FrameOp::Edit(Edit::Set(changes)))
}

#[tactic(auto, unfolding(crate::specs::Edits::pass_op))]
fn pass_op(alloc: Global, v: Value) -> Result<FrameOp, WalkErr>
    ensures { Gives (λ x. x) result (pass_op (view v)) }
{
    let _ = fields1(alloc, v, "op")?;
    Ok(FrameOp::Pass)
}

#[tactic(auto, unfolding(crate::specs::Edits::op_as))]
fn op_as(alloc: Global, version: Version, which: FrameOpName, v: Value) -> Result<FrameOp, WalkErr>
    ensures { Gives (λ x. x) result (op_as version which (view v)) }
{
    match which {
        FrameOpName::Edit(OpName::Root) => root_op(alloc, version, v),
        FrameOpName::Edit(OpName::Insert) => insert_op(alloc, version, v),
        FrameOpName::Edit(OpName::Remove) => Ok(FrameOp::Edit(Edit::Remove(node_alone(alloc, v)?))),
        FrameOpName::Edit(OpName::Move) => move_op(alloc, v),
        FrameOpName::Edit(OpName::Set) => set_op(alloc, version, v),
        FrameOpName::Data => Ok(FrameOp::Edit(Edit::Tree(NewsForm.read(alloc, v)?))),
        FrameOpName::Touch => Ok(FrameOp::Touch(node_alone(alloc, v)?)),
        FrameOpName::TouchBelow => Ok(FrameOp::TouchBelow(node_alone(alloc, v)?)),
        FrameOpName::Pass => pass_op(alloc, v),
    }
}

/// An operation of a frame, in a script of this version.
#[derive(Clone, Copy)]
pub struct FrameOpForm {
    pub version: Version,
}

impl Form for FrameOpForm {
    type Item = FrameOp;

    ghost reads = { λ f. op_of f.version };

    #[tactic(auto, unfolding(crate::specs::Edits::op_of), using(crate::proofs::Under::under_gives))]
    fn read(&self, alloc: Global, v: Value) -> Result<FrameOp, WalkErr> {
        let name = tag(alloc, &v, "op")?;
        let Some(which) = FrameOpName::named(name) else {
            return Err(in_member(alloc, "op", refuse(alloc, Fault::BadName)));
        };
        op_as(alloc, self.version, which, v)
    }
}
