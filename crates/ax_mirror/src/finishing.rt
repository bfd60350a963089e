//! Whether a draft is a tree: nothing is pending, and no chain is too long.

ghost use Rattle.std.specs.Prelude.{◌≡◌, OnOk, IfErr, Some, if◌then◌else◌};
ghost use Rattle.std.specs.FinMap as fin;
ghost use Rattle.ax_tree.specs.UpdateRule.{least};
ghost use Rattle.ax_mirror.specs.Finishes.{is_pending, level_of, pends_among, IsLeast, IsDeepest, Finished, Unfinished};

use crate::entries::Entries;
use ax_base::NodeId;
use ax_tree::Refusal;

/// The least of the ids that is pending.
pub fn least_pending(nodes: &Entries, ids: &[NodeId]) -> Option<NodeId>
    ensures { IsLeast (pends_among nodes.now ids.now) result }
{
    let mut so_far: Option<NodeId> = None;
    for id in ids {
        so_far = lesser(nodes, so_far, *id);
    }
    so_far
}

// The lesser of the least so far and of the id, where it is pending.
fn lesser(nodes: &Entries, so_far: Option<NodeId>, id: NodeId) -> Option<NodeId>
    ensures { result ≡ (if is_pending (fin.get nodes.now id) then least (Some id) so_far else so_far) }
{
    if !is_pending(nodes, id) {
        return so_far;
    }
    match so_far {
        Some(other) => Some(id.min(other)),
        None => Some(id),
    }
}

fn is_pending(nodes: &Entries, id: NodeId) -> bool
    ensures { result ≡ is_pending (fin.get nodes.now id) }
{
    match nodes.read(id) {
        Some(entry) => entry.pending,
        None => false,
    }
}

/// The greatest level of the ids.
pub fn deepest(nodes: &Entries, ids: &[NodeId]) -> usize
    ensures { IsDeepest nodes.now ids.now result }
{
    let mut depth: usize = 0;
    for id in ids {
        depth = depth.max(level_of(nodes, *id));
    }
    depth
}

fn level_of(nodes: &Entries, id: NodeId) -> usize
    ensures { result ≡ level_of (fin.get nodes.now id) }
{
    match nodes.read(id) {
        Some(entry) => entry.level,
        None => 0,
    }
}

/// Whether the draft is a tree: none is pending, and no chain is too long. Only those that were made in this update can
/// be pending or stand too deep.
pub fn finish(nodes: &Entries, made: &[NodeId]) -> Result<(), Refusal>
    ensures ok { OnOk result (Finished nodes.now made.now) }
    ensures err { IfErr result (λ r. Unfinished nodes.now made.now r) }
{
    match least_pending(nodes, made) {
        None => {}
        Some(id) => return Err(Refusal::Pending(id)),
    }
    let depth = deepest(nodes, made);
    if depth <= 256 {
        Ok(())
    } else {
        Err(Refusal::TooDeep(depth))
    }
}
