//! What differs between an old node and the new one of its id.
ghost use Rattle.std.specs.Prelude.{◌≡◌, ◌++◌, map, OnOk};
ghost use Rattle.ax_tree.specs.Tree.{as_node};
ghost use Rattle.ax_rules.specs.Events.{at_node, changes};

use crate::attributes::tell_attributes;
use crate::same::{same_ids, same_rect};
use crate::states::tell_states;
use crate::tell::tell;
use ax_attrs::EventKind;
use ax_base::{NoMemory, Place};
use ax_node::NodeData;
use ax_tree::Events;

/// Tells of what differs between an old node and the new one of its id.
pub fn tell_changes(
    out: &mut Events,
    at: &Place,
    old: &NodeData,
    new: &NodeData,
) -> Result<(), NoMemory>
    ensures { OnOk result (out.new ≡ out.old ++ map (at_node at.now.tree at.now.node) (changes (as_node old.now) (as_node new.now))) }
{
    tell(out, at, EventKind::ROLE_CHANGED, old.role != new.role)?;
    tell_states(out, at, old, new)?;
    tell_attributes(out, at, old, new)?;
    let moved = !same_rect(&old.rect, &new.rect);
    tell(out, at, EventKind::LOCATION_CHANGED, moved)?;
    let rearranged = !same_ids(&old.children, &new.children);
    tell(out, at, EventKind::CHILDREN_CHANGED, rearranged)?;
    Ok(())
}
