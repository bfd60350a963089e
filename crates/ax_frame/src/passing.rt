//! A pass under way: updates are made at the marks and kept until the bundle is whole.
ghost use Rattle.std.specs.Prelude.{◌≡◌, ◌≤◌, ◌++◌, ◌∷◌, ◌||◌, [], false, length, map, None, IfOk, OnErr, OnOk};
ghost use Rattle.ax_trees.specs.Trees.{height, is_bare};
ghost use Rattle.ax_tree.specs.Bundles.{rounds, trees_updates};
ghost use Rattle.ax_tree.specs.Updates.{nodes_part};
ghost use Rattle.ax_tree.specs.Serialised.{client_after_update, marks_after_update, resumed_bundle, update_of};
ghost use Rattle.ax_serializer.specs.Sending.{is_fresh};
ghost use Rattle.ax_run_rules.specs.FrameSteps.{update_note};
ghost use Rattle.ax_frame.specs.Frames.{all_kept};
ghost use Rattle.ax_frame.specs.Passes.{is_fresh_pass, Completes, StaysSending};

use crate::notes::notes_of;
use ax_ask::UpdateNotes;
use ax_base::{NoMemory, NodeId};
use ax_serializer::Serializer;
use ax_source::SourceTree;
use ax_tree::{Bundle, Packet, TreeUpdate, TreeView};
use std::alloc::Global;

/// What a pass makes: a packet where there is something to send.
#[derive(Debug, Drop)]
pub enum PassOut {
    Nothing,
    Made {
        packet: Packet,
        /// The packet completes a bundle for which an earlier pass had no memory.
        resumed: bool,
        /// What is told of the packet's updates.
        updates: UpdateNotes,
    },
}

/// The bundle of a pass.
#[derive(Drop)]
pub(crate) struct Sent {
    pub(crate) bundle: Bundle,
    /// The bundle begins from an empty receiver.
    pub(crate) fresh: bool,
    pub(crate) updates: UpdateNotes,
}

/// Keeps an update that came back for want of memory. All in all the same updates are kept.
fn keep_back(serializer: &mut Serializer, back: &mut Option<TreeUpdate>) -> Result<(), NoMemory>
    ensures client { serializer.new.client ≡ serializer.old.client }
    ensures same { all_kept serializer.new.kept back.new ≡ all_kept serializer.old.kept back.old }
    ensures none { OnOk result (back.new ≡ None) }
{
    match std::mem::replace(back, None) {
        None => Ok(()),
        Some(update) => keep_or_back(serializer, back, update),
    }
}

/// Keeps an update, if need be as the one that came back.
fn keep_or_back(
    serializer: &mut Serializer,
    back: &mut Option<TreeUpdate>,
    update: TreeUpdate,
) -> Result<(), NoMemory>
    requires { back.old ≡ None }
    ensures client { serializer.new.client ≡ serializer.old.client }
    ensures kept { all_kept serializer.new.kept back.new ≡ serializer.old.kept ++ update ∷ [] }
    ensures none { OnOk result (back.new ≡ None) }
{
    match serializer.keep(update) {
        Ok(()) => Ok(()),
        Err(failed) => {
            *back = Some(failed.1);
            Err(NoMemory)
        }
    }
}

/// Makes the update at `d` and keeps it. Where it comes back for want of memory, it is kept apart.
fn send_at(
    serializer: &mut Serializer,
    source: &mut SourceTree,
    back: &mut Option<TreeUpdate>,
    d: NodeId,
) -> Result<(), NoMemory>
    requires { height source.old.tree.trees ≤ 256 }
    ensures tree { source.new.tree ≡ source.old.tree }
    ensures flag { source.new.changed ≡ source.old.changed }
    ensures stays { StaysSending source.old.tree source.old.marks serializer.old.client (all_kept serializer.old.kept back.old) source.new.marks serializer.new.client (all_kept serializer.new.kept back.new) }
    ensures client { OnOk result (serializer.new.client ≡ client_after_update serializer.old.client (update_of serializer.old.client source.old.tree source.old.marks d)) }
    ensures marks { OnOk result (source.new.marks ≡ marks_after_update (update_of serializer.old.client source.old.tree source.old.marks d) d source.old.marks) }
    ensures kept { OnOk result (all_kept serializer.new.kept back.new ≡ all_kept serializer.old.kept back.old ++ update_of serializer.old.client source.old.tree source.old.marks d ∷ []) }
{
    keep_back(serializer, back)?;
    // A mark is an id of the source, and so is its root: what is refused here lacks memory.
    match serializer.serialize_changes(source, d) {
        Ok(update) => keep_or_back(serializer, back, update),
        Err(_) => Err(NoMemory),
    }
}

/// Makes the update at the root where the receiver has nothing. What is kept then, with the rounds to come, are all updates
/// of the pass.
fn send_root(
    serializer: &mut Serializer,
    source: &mut SourceTree,
    back: &mut Option<TreeUpdate>,
) -> Result<(), NoMemory>
    requires low { height source.old.tree.trees ≤ 256 }
    requires rooted { is_bare source.old.tree.trees ≡ false }
    ensures tree { source.new.tree ≡ source.old.tree }
    ensures flag { source.new.changed ≡ source.old.changed }
    ensures stays { StaysSending source.old.tree source.old.marks serializer.old.client (all_kept serializer.old.kept back.old) source.new.marks serializer.new.client (all_kept serializer.new.kept back.new) }
    ensures updates { OnOk result (map nodes_part (all_kept serializer.new.kept back.new) ++ rounds (length source.new.marks) serializer.new.client source.old.tree.trees source.new.marks ≡ map nodes_part (all_kept serializer.old.kept back.old) ++ trees_updates serializer.old.client source.old.tree.trees source.old.marks) }
{
    if serializer.client().root().is_some() {
        return Ok(());
    }
    match source.root() {
        Some(root) => send_at(serializer, source, back, root),
        None => Ok(()),
    }
}

/// Makes the update at the first mark, until no mark is left.
fn send_marks(
    serializer: &mut Serializer,
    source: &mut SourceTree,
    back: &mut Option<TreeUpdate>,
) -> Result<(), NoMemory>
    requires { height source.old.tree.trees ≤ 256 }
    ensures tree { source.new.tree ≡ source.old.tree }
    ensures flag { source.new.changed ≡ source.old.changed }
    ensures stays { StaysSending source.old.tree source.old.marks serializer.old.client (all_kept serializer.old.kept back.old) source.new.marks serializer.new.client (all_kept serializer.new.kept back.new) }
    ensures marks { OnOk result (source.new.marks ≡ []) }
    ensures updates { OnOk result (map nodes_part (all_kept serializer.new.kept back.new) ≡ map nodes_part (all_kept serializer.old.kept back.old) ++ rounds (length source.old.marks) serializer.old.client source.old.tree.trees source.old.marks) }
{
    while let Some(d) = source.marks().first() {
        send_at(serializer, source, back, d)?;
    }
    Ok(())
}

/// Makes the updates that bring the receiver to the source: that at the root where the receiver has nothing, and those at
/// the marks.
fn send_all(
    serializer: &mut Serializer,
    source: &mut SourceTree,
    back: &mut Option<TreeUpdate>,
) -> Result<(), NoMemory>
    requires low { height source.old.tree.trees ≤ 256 }
    requires rooted { is_bare source.old.tree.trees ≡ false }
    ensures tree { source.new.tree ≡ source.old.tree }
    ensures flag { source.new.changed ≡ source.old.changed }
    ensures stays { StaysSending source.old.tree source.old.marks serializer.old.client (all_kept serializer.old.kept back.old) source.new.marks serializer.new.client (all_kept serializer.new.kept back.new) }
    ensures marks { OnOk result (source.new.marks ≡ []) }
    ensures updates { OnOk result (map nodes_part (all_kept serializer.new.kept back.new) ≡ map nodes_part (all_kept serializer.old.kept back.old) ++ trees_updates serializer.old.client source.old.tree.trees source.old.marks) }
{
    send_root(serializer, source, back)?;
    send_marks(serializer, source, back)
}

/// Whether tree data ride on the bundle at hand.
fn data_rides(serializer: &Serializer, source: &SourceTree) -> bool
    ensures { result ≡ (source.now.changed || is_fresh serializer.now.kept) }
{
    if source.data_changed() {
        return true;
    }
    serializer.is_fresh()
}

/// The bundle of a pass. What is told of it takes its memory first. After want of memory the updates that were made are
/// kept, and their marks are gone.
pub(crate) fn send_bundle(
    alloc: Global,
    serializer: &mut Serializer,
    source: &mut SourceTree,
    back: &mut Option<TreeUpdate>,
) -> Result<Sent, NoMemory>
    requires low { height source.old.tree.trees ≤ 256 }
    requires rooted { is_bare source.old.tree.trees ≡ false }
    ensures tree { source.new.tree ≡ source.old.tree }
    ensures flag { OnErr result (source.new.changed ≡ source.old.changed) }
    ensures sent { OnOk result (source.new.changed ≡ false) }
    ensures stays { OnErr result (StaysSending source.old.tree source.old.marks serializer.old.client (all_kept serializer.old.kept back.old) source.new.marks serializer.new.client (all_kept serializer.new.kept back.new)) }
    ensures bundle { IfOk result (λ sent. sent.bundle ≡ resumed_bundle (map nodes_part (all_kept serializer.old.kept back.old)) serializer.old.client source.old.tree source.old.marks source.old.changed sent.fresh) }
    ensures fresh { IfOk result (λ sent. sent.fresh ≡ is_fresh_pass (all_kept serializer.old.kept back.old) serializer.old.client source.old.tree.trees source.old.marks) }
    ensures notes { IfOk result (λ sent. sent.updates ≡ map update_note sent.bundle) }
    ensures kept { OnOk result (all_kept serializer.new.kept back.new ≡ []) }
    ensures marks { OnOk result (source.new.marks ≡ []) }
    ensures client { OnOk result (Completes source.old.tree source.old.marks serializer.old.client (all_kept serializer.old.kept back.old) serializer.new.client) }
{
    send_all(serializer, source, back)?;
    keep_back(serializer, back)?;
    let rides = data_rides(serializer, source);
    let updates = notes_of(alloc, serializer.kept_updates(), rides)?;
    let (bundle, fresh) = serializer.finish_bundle(source)?;
    Ok(Sent {
        bundle,
        fresh,
        updates,
    })
}
