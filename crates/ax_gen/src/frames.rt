//! The frames of a made script.
ghost use Rattle.std.specs.Prelude.{◌≡◌, ℕ, ◌<◌, ◌≤◌, ◌+◌, ◌^◌, map, replicate, IfOk, OnOk};
ghost use Rattle.std.specs.List.{range_with_len};
ghost use Rattle.ax_gen.specs.Draws.{word};
ghost use Rattle.ax_gen.specs.Made.{rooted, with_last_pass, script_made};
ghost use Rattle.ax_gen.specs.Steps.{IsAdded};

use crate::draws::Draws;
use crate::op::{inserts, kind_of, op_of};
use ax_ask::{FrameOp, FrameOps};
use ax_attrs::Version;
use ax_base::{NoMemory, NodeId, Seq, TreeId};
use ax_node::NodeData;
use ax_script::{FrameScript, Script};
use ax_tree::Edit;
use std::alloc::Global;

/// The script of a seed, of version 1, with the trees 1 to `frames` and `ops` drawn operations, which are dealt to the frames
/// in turn. Each frame begins with a root and ends with a pass. An operation names nodes that its frame has made, which may
/// be gone by then: so a run may refuse it. The rule is told in docs/FORMATS.md.
///
/// It costs time and memory linear in the operations and the frames.
pub fn make(alloc: Global, seed: u32, frames: u32, ops: u32) -> Result<Script, NoMemory>
    requires some_frames { 0 < frames }
    requires frames { frames ≤ 1000 }
    requires ops { ops ≤ 900000 }
    ensures { IfOk result (λ script. script ≡ script_made seed frames ops) }
{
    let Draft {
        frames: mut made,
        mut nodes,
    } = first_draft(alloc, frames)?;
    let mut draws = Draws { word: seed as u64 };
    for number in 0..ops {
        let at = (number % frames) as usize;
        nodes[at] = add_op(alloc, &mut draws, &mut made[at], nodes[at], number + 1)?;
    }
    add_last_passes(made.as_mut_slice())?;
    Ok(Script {
        version: Version::One,
        frames: Seq::from_vec(made),
        browser: Seq::new(alloc),
        readers: Seq::new(alloc),
        order: Seq::new(alloc),
        actions: Seq::new(alloc),
    })
}

// The frames as far as they are made, and how many nodes each has made.
#[derive(Drop)]
struct Draft {
    frames: Vec<FrameScript>,
    nodes: Vec<u32>,
}

fn first_draft(alloc: Global, frames: u32) -> Result<Draft, NoMemory>
    requires { frames ≤ 1000 }
    ensures frames { IfOk result (λ draft. draft.frames.items ≡ map (λ f. rooted (f + 1)) (range_with_len 0 frames)) }
    ensures nodes { IfOk result (λ draft. draft.nodes.items ≡ replicate frames 1) }
{
    let mut draft = Draft {
        frames: Vec::new(alloc),
        nodes: Vec::new(alloc),
    };
    for at in 0..frames {
        let frame = first_frame(alloc, at + 1)?;
        if draft.frames.push(frame).is_err() {
            return Err(NoMemory);
        }
        if draft.nodes.push(1).is_err() {
            return Err(NoMemory);
        }
    }
    Ok(draft)
}

// The frame of this tree, with a root alone.
fn first_frame(alloc: Global, tree: u32) -> Result<FrameScript, NoMemory>
    requires some { 0 < tree }
    requires below { tree ≤ 1000 }
    ensures { IfOk result (λ frame. frame ≡ rooted tree) }
{
    let Some(tree) = TreeId::new(tree) else {
        unreachable!();
    };
    let Some(root) = NodeId::new(1) else {
        unreachable!();
    };
    let mut ops: FrameOps = Seq::new(alloc);
    ops.push(FrameOp::Edit(Edit::Root(NodeData::blank(alloc, root))))?;
    Ok(FrameScript { tree, ops })
}

// Adds the operation of this number to the frame, which has made so many nodes, and gives how many it then has made.
fn add_op(
    alloc: Global,
    draws: &mut Draws,
    frame: &mut FrameScript,
    nodes: u32,
    number: u32,
) -> Result<u32, NoMemory>
    requires some { 0 < nodes }
    requires below { nodes + 1 < 2 ^ 31 }
    ensures { IfOk result (λ now. (seed n : ℕ) → draws.old.word ≡ word seed n → IsAdded seed n nodes number frame.old frame.new now draws.new.word) }
{
    let kind = kind_of(draws.next() % 8);
    let op = op_of(alloc, kind, draws, nodes, number)?;
    frame.ops.push(op)?;
    Ok(nodes + inserts(kind))
}

fn add_last_passes(frames: &mut [FrameScript]) -> Result<(), NoMemory>
    ensures { OnOk result (frames.new ≡ map with_last_pass frames.old) }
{
    for at in 0..frames.len() {
        frames[at].ops.push(FrameOp::Pass)?;
    }
    Ok(())
}
