//! What one action does to a frame.
ghost use Rattle.std.specs.Prelude.{◌≡◌, None, true, IfOk, OnErr, OnOk};
ghost use Rattle.ax_trees.specs.Trees.{has};
ghost use Rattle.ax_ask.specs.declared.action.ActNote.TheVariants as notes;
ghost use Rattle.ax_ask.specs.declared.action.What.TheVariants as whats;
ghost use Rattle.ax_frame.specs.Frames.{with_entry, KeepsFitting};
ghost use Rattle.ax_run_rules.specs.Actions.{acted, act_line, done_at, name_of};
ghost use Rattle.ax_tree.specs.declared.packet.JEntry.TheVariants as entries;
ghost use Rattle.ax_tree.specs.Edits.{refusal, HasLeaf};
ghost use Rattle.ax_actions.specs.Performing.{note_of, source_now, done_now, after_done, told_course, IsAllowed};

use crate::edits::{focus_edit, scroll_edit, value_edit};
use ax_ask::{ActNote, Action, DoName, Line, What};
use ax_base::{NoMemory, NodeId};
use ax_frame::Frame;
use ax_source::SourceTree;
use ax_stitch::{base, has_node};
use ax_tree::{Edit, TreeView};
use std::alloc::Global;

/// What became of an action.
#[derive(Clone, Copy, Debug, PartialEq, Eq)]
pub enum Done {
    Ok,
    /// The source has no root.
    NoRoot,
    /// The node isn't in the source.
    UnknownNode(NodeId),
    /// The node has no offset container, so nothing can scroll to it.
    NoContainer(NodeId),
}

impl Done {
    /// The same as a line tells it.
    pub fn note(&self) -> ActNote
        ensures { result ≡ note_of self.now }
    {
        match *self {
            Done::Ok => ActNote::Ok,
            Done::NoRoot => ActNote::NoRoot,
            Done::UnknownNode(node) => ActNote::UnknownNode(node),
            Done::NoContainer(node) => ActNote::NoContainer(node),
        }
    }
}

/// What an action comes to: a refusal, or the edit that it makes.
#[derive(Debug, Drop)]
pub(crate) enum Course {
    Refused(Done),
    Makes(Edit),
}

/// Does an action at the frame of its tree; whether the tree is the frame's isn't asked. The answer is a named refusal,
/// which changes nothing and adds no entry to the journal, or one edit, which adds one. It costs what the edit costs. Want
/// of memory may come before a refusal is known.
pub fn perform(alloc: Global, frame: &mut Frame, a: &Action) -> Result<Done, NoMemory>
    ensures note { IfOk result (λ d. note_of d ≡ (done_now a.now frame.old).note) }
    ensures after { OnOk result (frame.new ≡ after_done (done_now a.now frame.old) frame.old) }
    ensures memory { OnErr result (frame.new ≡ frame.old) }
    ensures fits { KeepsFitting frame.old frame.new }
{
    let course = course_of(alloc, frame.source(), a)?;
    match course {
        Course::Refused(done) => Ok(done),
        Course::Makes(edit) => make(frame, &edit),
    }
}

/// Makes an edit that nothing stands against.
fn make(frame: &mut Frame, edit: &Edit) -> Result<Done, NoMemory>
    requires leaf { HasLeaf edit.now }
    requires allowed { refusal edit.now (source_now frame.old) ≡ None }
    ensures note { IfOk result (λ d. note_of d ≡ notes.Ok) }
    ensures after { OnOk result (frame.new ≡ with_entry (entries.Edited edit.now) frame.old) }
    ensures memory { OnErr result (frame.new ≡ frame.old) }
    ensures fits { KeepsFitting frame.old frame.new }
{
    match frame.edit(edit) {
        Ok(()) => Ok(Done::Ok),
        Err(_) => Err(NoMemory),
    }
}

/// What an action comes to upon a source.
fn course_of(alloc: Global, source: &SourceTree, a: &Action) -> Result<Course, NoMemory>
    ensures course { IfOk result (λ p. told_course p ≡ acted source.now.tree a.now.node a.now.what) }
    ensures allowed { IfOk result (λ p. IsAllowed p source.now.tree) }
{
    if source.root().is_none() {
        return Ok(Course::Refused(Done::NoRoot));
    }
    if has_node(source, a.node) {
        return course_at(alloc, source, a.node, &a.what);
    }
    Ok(Course::Refused(Done::UnknownNode(a.node)))
}

/// What an action comes to at a node that is there.
#[tactic(auto, using(crate::proofs::PerformingLemmas::value_allowed))]
fn course_at(
    alloc: Global,
    source: &SourceTree,
    node: NodeId,
    what: &What,
) -> Result<Course, NoMemory>
    requires { has source.now.tree.trees node ≡ true }
    ensures course { IfOk result (λ p. told_course p ≡ done_at source.now.tree node what.now) }
    ensures allowed { IfOk result (λ p. IsAllowed p source.now.tree) }
{
    match what {
        What::Focus => Ok(Course::Makes(focus_edit(node))),
        What::SetValue(text) => {
            let edit = value_edit(alloc, node, text)?;
            Ok(Course::Makes(edit))
        }
        What::Scroll => scroll_course(alloc, source, node),
    }
}

/// What scrolling to a node comes to: its container scrolls to its corner.
fn scroll_course(alloc: Global, source: &SourceTree, node: NodeId) -> Result<Course, NoMemory>
    requires { has source.now.tree.trees node ≡ true }
    ensures course { IfOk result (λ p. told_course p ≡ done_at source.now.tree node whats.Scroll) }
    ensures allowed { IfOk result (λ p. IsAllowed p source.now.tree) }
{
    let _ = source.root();
    let Some(container) = base(source, node) else {
        return Ok(Course::Refused(Done::NoContainer(node)));
    };
    let shown = source.node(node).unwrap();
    let edit = scroll_edit(alloc, &shown.rect, container)?;
    Ok(Course::Makes(edit))
}

fn name_of(what: &What) -> DoName
    ensures { result ≡ name_of what.now }
{
    match what {
        What::Focus => DoName::Focus,
        What::SetValue(_) => DoName::SetValue,
        What::Scroll => DoName::Scroll,
    }
}

/// The line of an action.
#[tactic(auto, unfolding(ax_run_rules::specs::Actions::act_line))]
pub fn line_of(a: &Action, out: ActNote) -> Line
    ensures { result ≡ act_line a.now out }
{
    Line::Acted {
        tree: a.tree,
        name: name_of(&a.what),
        node: a.node,
        out,
    }
}
