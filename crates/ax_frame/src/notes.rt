//! What is told of the updates of a packet.
ghost use Rattle.std.specs.Prelude.{◌≡◌, [], map, IfOk};
ghost use Rattle.ax_node.specs.declared.node.NodeData.{NodeData as Data};
ghost use Rattle.ax_node.specs.declared.tree_data.TreeData.{TreeData};
ghost use Rattle.ax_tree.specs.Serialised.{with_tree_data};
ghost use Rattle.ax_tree.specs.Updates.{nodes_part};
ghost use Rattle.ax_run_rules.specs.FrameSteps.{update_note};
ghost use Rattle.ax_frame.specs.Notes.{note_of, plain_note};

use ax_ask::{UpdateNote, UpdateNotes};
use ax_base::{Ids, NoMemory};
use ax_tree::TreeUpdate;
use std::alloc::Global;

fn ids_of(alloc: Global, update: &TreeUpdate) -> Result<Ids, NoMemory>
    ensures { IfOk result (λ ids. ids ≡ map (λ (n : Data). n.id) update.now.nodes) }
{
    let mut ids = Ids::new(alloc);
    for node in update.nodes.as_slice() {
        ids.push(node.id)?;
    }
    Ok(ids)
}

/// What is told of an update, with tree data or without.
#[tactic(auto, unfolding(ax_run_rules::specs::FrameSteps::update_note))]
fn note_of(alloc: Global, update: &TreeUpdate, with_data: bool) -> Result<UpdateNote, NoMemory>
    ensures { IfOk result (λ note. note ≡ note_of with_data update.now) }
{
    let nodes = ids_of(alloc, update)?;
    Ok(UpdateNote {
        clear: update.clear,
        root: update.root,
        nodes,
        with_data,
    })
}

fn plain_notes(alloc: Global, updates: &[TreeUpdate]) -> Result<UpdateNotes, NoMemory>
    ensures { IfOk result (λ notes. notes ≡ map plain_note updates.now) }
{
    let mut notes = UpdateNotes::new(alloc);
    for update in updates {
        notes.push(note_of(alloc, update, false)?)?;
    }
    Ok(notes)
}

/// What is told of a bundle of no update: of tree data alone, where they are sent.
#[tactic(auto, unfolding(ax_run_rules::specs::FrameSteps::update_note))]
fn data_note(alloc: Global, rides: bool) -> Result<UpdateNotes, NoMemory>
    ensures { IfOk result (λ notes. (about : TreeData) → notes ≡ map update_note (with_tree_data rides about [])) }
{
    let mut notes = UpdateNotes::new(alloc);
    if rides {
        notes.push(UpdateNote {
            clear: None,
            root: None,
            nodes: Ids::new(alloc),
            with_data: true,
        })?;
    }
    Ok(notes)
}

/// What is told of the bundle of these updates, with tree data where they ride. Costs the ids of the listed nodes.
pub(crate) fn notes_of(
    alloc: Global,
    updates: &[TreeUpdate],
    rides: bool,
) -> Result<UpdateNotes, NoMemory>
    ensures { IfOk result (λ notes. (about : TreeData) → notes ≡ map update_note (with_tree_data rides about (map nodes_part updates.now))) }
{
    match updates.split_last() {
        None => data_note(alloc, rides),
        Some((last, earlier)) => {
            let mut notes = plain_notes(alloc, earlier)?;
            notes.push(note_of(alloc, last, rides)?)?;
            Ok(notes)
        }
    }
}
