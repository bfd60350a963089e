//! The operations that draws make.
ghost use Rattle.std.specs.Prelude.{◌≡◌, ℕ, ◌+◌, ◌<◌, ◌≤◌, ◌^◌, suc, IfOk, OnOk};
ghost use Rattle.ax_gen.specs.Draws.{word, draw};
ghost use Rattle.ax_gen.specs.Ops.{kind_of, operand_count, inserts, op_of, insertion, naming};
ghost use Rattle.std.specs.Str.{chars};
ghost use Rattle.std.specs.Fmt.{decimal};

use crate::draws::Draws;
use ax_ask::FrameOp;
use ax_attrs::Key;
use ax_base::{NoMemory, NodeId, Seq, Text};
use ax_node::{NodeData, Value};
use ax_tree::{AttrChange, Edit, SetNode};
use std::alloc::Global;

/// What an operation of a frame does.
#[derive(Clone, Copy, Debug, PartialEq, Eq)]
pub(crate) enum Kind {
    /// A new node stands first under a drawn one.
    Insert,
    /// A drawn node gets a name.
    Name,
    /// A drawn node moves to the front of another.
    Move,
    /// A drawn node goes.
    Remove,
    Pass,
}

pub(crate) fn kind_of(drawn: u64) -> Kind
    ensures { result ≡ kind_of drawn }
{
    match drawn {
        0..=3 => Kind::Insert,
        4 => Kind::Name,
        5 => Kind::Move,
        6 => Kind::Remove,
        _ => Kind::Pass,
    }
}

/// How many nodes an operation of this kind makes.
pub(crate) fn inserts(kind: Kind) -> u32
    ensures same { result ≡ inserts kind }
    ensures most { result ≤ 1 }
{
    match kind {
        Kind::Insert => 1,
        Kind::Name | Kind::Move | Kind::Remove | Kind::Pass => 0,
    }
}

/// The operation of this kind and number on a frame with so many nodes, with further draws for its nodes.
pub(crate) fn op_of(
    alloc: Global,
    kind: Kind,
    draws: &mut Draws,
    nodes: u32,
    number: u32,
) -> Result<FrameOp, NoMemory>
    requires some { 0 < nodes }
    requires below { nodes + 1 < 2 ^ 31 }
    ensures op { IfOk result (λ op. (seed n : ℕ) → draws.old.word ≡ word seed n → op ≡ op_of kind (draw seed n) (draw seed (suc n)) nodes number) }
    ensures draws { OnOk result ((seed n : ℕ) → draws.old.word ≡ word seed n → draws.new.word ≡ word seed (n + operand_count kind)) }
{
    match kind {
        Kind::Insert => insertion(alloc, draws.pick(nodes), nodes + 1),
        Kind::Name => naming(alloc, draws.pick(nodes), number),
        Kind::Move => {
            let node = draws.pick(nodes);
            let parent = draws.pick(nodes);
            Ok(FrameOp::Edit(Edit::Move {
                node,
                parent,
                index: 0,
            }))
        }
        Kind::Remove => Ok(FrameOp::Edit(Edit::Remove(draws.pick(nodes)))),
        Kind::Pass => Ok(FrameOp::Pass),
    }
}

fn insertion(alloc: Global, parent: NodeId, number: u32) -> Result<FrameOp, NoMemory>
    requires some { 0 < number }
    requires below { number < 2 ^ 31 }
    ensures { IfOk result (λ op. op ≡ insertion parent number) }
{
    match NodeId::new(number) {
        Some(id) => Ok(FrameOp::Edit(Edit::Insert {
            parent,
            index: 0,
            node: NodeData::blank(alloc, id),
        })),
        None => unreachable!(),
    }
}

fn naming(alloc: Global, node: NodeId, number: u32) -> Result<FrameOp, NoMemory>
    ensures { IfOk result (λ op. op ≡ naming node number) }
{
    let name = digits(alloc, number)?;
    let mut attrs = Seq::new(alloc);
    attrs.push(AttrChange {
        key: Key::NAME,
        value: Some(Value::Text(name)),
    })?;
    Ok(FrameOp::Edit(Edit::Set(SetNode {
        node,
        role: None,
        states: None,
        attrs,
        rect: None,
    })))
}

fn digits(alloc: Global, number: u32) -> Result<Text, NoMemory>
    ensures { IfOk result (λ text. text ≡ chars (decimal number)) }
{
    match format!(in alloc; "{number}") {
        Ok(text) => Text::of(alloc, text.as_str()),
        Err(_) => Err(NoMemory),
    }
}
