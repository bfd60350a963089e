//! Events that are told, one at a time.
ghost use Rattle.std.specs.Prelude.{◌≡◌, ◌++◌, map, Some, None, OnOk};
ghost use Rattle.ax_rules.specs.Events.{at_node, at_tree};
ghost use Rattle.ax_rules.specs.Sequences.{where_true};
ghost use Rattle.ax_trees.specs.Trees.{has};

use ax_attrs::EventKind;
use ax_base::{NoMemory, NodeId, Place, TreeId};
use ax_tree::{Event, Events, TreeView};

/// Adds the event at a node, where it is told.
pub fn tell(out: &mut Events, at: &Place, kind: EventKind, is_told: bool) -> Result<(), NoMemory>
    ensures { OnOk result (out.new ≡ out.old ++ map (at_node at.now.tree at.now.node) (where_true is_told kind)) }
{
    if !is_told {
        return Ok(());
    }
    out.push(Event {
        tree: at.tree,
        node: Some(at.node),
        kind,
    })?;
    Ok(())
}

/// Adds the event at the tree itself, where it is told.
pub fn tell_tree(
    out: &mut Events,
    tree: TreeId,
    kind: EventKind,
    is_told: bool,
) -> Result<(), NoMemory>
    ensures { OnOk result (out.new ≡ out.old ++ where_true is_told (at_tree tree kind)) }
{
    if !is_told {
        return Ok(());
    }
    out.push(Event {
        tree,
        node: None,
        kind,
    })?;
    Ok(())
}

/// Whether the tree has the id.
pub fn has_node<T: TreeView>(t: &T, id: NodeId) -> bool
    ensures { result ≡ has (T.tree t.now).trees id }
{
    match t.node(id) {
        Some(_) => true,
        None => false,
    }
}
