//! What differs between the data of two trees.
ghost use Rattle.std.specs.Prelude.{◌≡◌, ◌++◌, ◌&&◌, not, OnOk};
ghost use Rattle.ax_rules.specs.Events.{tree_events, focus_events};
ghost use Rattle.ax_rules.specs.Looks.{same_option, same_end};

use crate::same::{same_ends, same_focus, same_text};
use crate::tell::{has_node, tell, tell_tree};
use ax_attrs::EventKind;
use ax_base::{NoMemory, NodeId, Place};
use ax_node::TreeData;
use ax_tree::{Events, TreeView};

/// Tells of what differs between the data of the two trees.
pub fn tell_tree_data<A: TreeView, B: TreeView>(
    out: &mut Events,
    old: &A,
    new: &B,
) -> Result<(), NoMemory>
    ensures { OnOk result (out.new ≡ out.old ++ tree_events (A.tree old.now) (B.tree new.now)) }
{
    let was = old.tree_data();
    let is = new.tree_data();
    let tree = is.tree;
    let renamed = !same_text(&was.title, &is.title);
    tell_tree(out, tree, EventKind::DOCUMENT_TITLE_CHANGED, renamed)?;
    let moved = !same_text(&was.url, &is.url);
    tell_tree(out, tree, EventKind::URL_CHANGED, moved)?;
    tell_tree(out, tree, EventKind::LOAD_COMPLETE, has_loaded(was, is))?;
    let selected = !same_selection(was, is);
    tell_tree(out, tree, EventKind::SELECTION_CHANGED, selected)?;
    if same_focus(was.focus, is.focus) {
        return Ok(());
    }
    tell_focus(out, new, is.focus)?;
    Ok(())
}

fn has_loaded(was: &TreeData, is: &TreeData) -> bool
    ensures { result ≡ (not was.now.loaded && is.now.loaded) }
{
    !was.loaded && is.loaded
}

fn same_selection(was: &TreeData, is: &TreeData) -> bool
    ensures { result ≡ (same_option same_end was.now.anchor is.now.anchor && same_option same_end was.now.end is.now.end) }
{
    same_ends(was.anchor, is.anchor) && same_ends(was.end, is.end)
}

/// Tells of the new focus, where the tree has its node.
fn tell_focus<T: TreeView>(out: &mut Events, t: &T, focus: Option<NodeId>) -> Result<(), NoMemory>
    ensures { OnOk result (out.new ≡ out.old ++ focus_events (T.tree t.now) focus) }
{
    let Some(node) = focus else {
        return Ok(());
    };
    let tree = t.tree_data().tree;
    let at = Place { tree, node };
    let is_there = has_node(t, node);
    tell(out, &at, EventKind::FOCUS_CHANGED, is_there)?;
    Ok(())
}
