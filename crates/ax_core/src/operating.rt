//! The operations of a frame, and their lines.
ghost use Rattle.std.specs.Prelude.{◌≡◌, ◌++◌, ◌∷◌, [], true, false, List, map, IfOk, OnOk, OnErr};
ghost use Rattle.ax_tree.specs.Edits.{HasLeaf};
ghost use Rattle.ax_tree.specs.Journals.{frame_of};
ghost use Rattle.ax_tree.specs.declared.packet.JEntry.TheVariants as entries;
ghost use Rattle.ax_ask.specs.declared.line.Line.TheVariants as lines;
ghost use Rattle.ax_ask.specs.declared.line.MadeNote.{MadeNote};
ghost use Rattle.ax_run_rules.specs.FrameSteps.{edit_line, mark_refusal, made_note, update_note};
ghost use Rattle.ax_frame.specs.Frames.{with_entry, KeepsFitting as FrameKeeps};
ghost use Rattle.ax_ask.specs.declared.op.FrameOp.{FrameOp};
ghost use Rattle.ax_ask.specs.declared.op.FrameOp.TheVariants as ops;
ghost use Rattle.ax_core.specs.FrameRuns.{told_edit, in_run, IsDone, IsBroken, KeepsFitting};

use ax_ask::{Line, MadeNote, OpName, PassNote, UpdateNotes};
use ax_base::{NoMemory, NodeId, TreeId};
use ax_frame::{Frame, PassOut};
use ax_tree::{Edit, EditErr, MarkErr, Packet};
use std::collections::VecDeque;

/// The packets of a frame that wait, the oldest first.
pub(crate) type Waiting = VecDeque<Packet>;

fn told_edit(tree: TreeId, edit: &Edit, refused: Option<EditErr>) -> Line
    ensures { result ≡ told_edit tree edit.now refused }
{
    let (name, node) = match edit {
        Edit::Root(node) => (OpName::Root, node.id),
        Edit::Insert { node, .. } => (OpName::Insert, node.id),
        Edit::Remove(node) => (OpName::Remove, *node),
        Edit::Move { node, .. } => (OpName::Move, *node),
        Edit::Set(set) => (OpName::Set, set.node),
        Edit::Tree(_) => return Line::DataSet { tree },
    };
    Line::Edited {
        tree,
        name,
        node,
        refused,
    }
}

/// Makes an edit, and gives its line.
#[tactic(auto, using(crate::proofs::Rules::edit_told))]
pub(crate) fn edit(frame: &mut Frame, edit: &Edit) -> Result<Line, NoMemory>
    requires { HasLeaf edit.now }
    ensures line { IfOk result (λ line. line ≡ edit_line frame.old.tree (frame_of frame.old.tree frame.old.journal).source edit.now) }
    ensures after { OnOk result (frame.new ≡ with_entry (entries.Edited edit.now) frame.old) }
    ensures err { OnErr result (frame.new ≡ frame.old) }
    ensures fits { FrameKeeps frame.old frame.new }
{
    let tree = frame.tree();
    match frame.edit(edit) {
        Ok(()) => Ok(told_edit(tree, edit, None)),
        Err(EditErr::NoMemory) => Err(NoMemory),
        Err(refusal) => Ok(told_edit(tree, edit, Some(refusal))),
    }
}

/// Marks a node, and gives the line.
pub(crate) fn touch(frame: &mut Frame, node: NodeId) -> Result<Line, NoMemory>
    ensures line { IfOk result (λ line. line ≡ lines.Touched frame.old.tree false node (mark_refusal (frame_of frame.old.tree frame.old.journal).source node)) }
    ensures after { OnOk result (frame.new ≡ with_entry (entries.Marked node) frame.old) }
    ensures err { OnErr result (frame.new ≡ frame.old) }
    ensures fits { FrameKeeps frame.old frame.new }
{
    let tree = frame.tree();
    let refused = match frame.mark(node) {
        Ok(()) => None,
        Err(MarkErr::NoMemory) => return Err(NoMemory),
        Err(refusal) => Some(refusal),
    };
    Ok(Line::Touched {
        tree,
        below: false,
        node,
        refused,
    })
}

/// Marks a node and all below it, and gives the line.
pub(crate) fn touch_below(frame: &mut Frame, node: NodeId) -> Result<Line, NoMemory>
    ensures line { IfOk result (λ line. line ≡ lines.Touched frame.old.tree true node (mark_refusal (frame_of frame.old.tree frame.old.journal).source node)) }
    ensures after { OnOk result (frame.new ≡ with_entry (entries.MarkedBelow node) frame.old) }
    ensures err { OnErr result (frame.new ≡ frame.old) }
    ensures fits { FrameKeeps frame.old frame.new }
{
    let tree = frame.tree();
    let refused = match frame.mark_below(node) {
        Ok(()) => None,
        Err(MarkErr::NoMemory) => return Err(NoMemory),
        Err(refusal) => Some(refusal),
    };
    Ok(Line::Touched {
        tree,
        below: true,
        node,
        refused,
    })
}

/// What is told of a packet.
#[tactic(auto, unfolding(ax_run_rules::specs::FrameSteps::made_note))]
fn made_note(packet: &Packet, resumed: bool, updates: UpdateNotes) -> MadeNote
    requires { updates ≡ map update_note packet.now.bundle }
    ensures { result ≡ record (made_note packet.now) { resumed = resumed } }
{
    MadeNote {
        pass: packet.pass,
        base: packet.base,
        token: packet.token,
        resumed,
        updates,
    }
}

/// Passes, and puts the packet that is made behind those that wait. Room for it comes first.
pub(crate) fn pass(frame: &mut Frame, waiting: &mut Waiting) -> Result<Line, NoMemory>
    ensures done { IfOk result (λ line. (left : List FrameOp) → IsDone (in_run frame.old left waiting.old.items) ops.Pass left (in_run frame.new left waiting.new.items) line) }
    ensures broken { OnErr result ((left : List FrameOp) → IsBroken (in_run frame.old left waiting.old.items) ops.Pass (in_run frame.new left waiting.new.items)) }
    ensures fits { (left : List FrameOp) → KeepsFitting (in_run frame.old left waiting.old.items) (in_run frame.new left waiting.new.items) }
{
    waiting.reserve(1)?;
    let tree = frame.tree();
    match frame.pass()? {
        PassOut::Nothing => Ok(Line::Passed {
            tree,
            note: PassNote::Nothing,
        }),
        PassOut::Made {
            packet,
            resumed,
            updates,
        } => {
            let note = made_note(&packet, resumed, updates);
            waiting.push_back_reserved(packet);
            Ok(Line::Passed {
                tree,
                note: PassNote::Made(note),
            })
        }
    }
}
