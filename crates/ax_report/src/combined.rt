//! The text of the combined tree.
ghost use Rattle.std.specs.Prelude.{◌≡◌, ◌++◌, ◌<◌, ◌+◌, ◌^◌, length, IfOk, OnOk, OnErr, Some, option_to_list, string_bytes};
ghost use Rattle.std.specs.List.{flat_map, enumerate_from};
ghost use Rattle.ax_tree.specs.Forest.{Forest, first_tree};
ghost use Rattle.ax_rules.specs.Stitched.{stitched};
ghost use Rattle.ax_run_rules.specs.CombineText.{node_line, combined_text};
ghost use Rattle.ax_report.specs.Buffers.{Extends};
ghost use Rattle.ax_report.specs.Combining.{AreNodes, IsCombined, place_of_number, row_head, row_text};

use crate::Bytes;
use crate::node::{put_look, put_tree_line};
use crate::put::put;
use crate::results::{node_number, place_text};
use ax_attrs::Role;
use ax_base::{NodeId, Place};
use ax_tree::TreeView;
use std::alloc::{AllocError, Global};

/// A combined tree: the places of a forest that are shown, numbered from 1 in the order of the joined list. Node k of the
/// tree is the k-th place.
pub trait CombinedView: TreeView {
    ghost use Rattle.std.specs.Prelude.{List};
    ghost use Rattle.ax_base.specs.declared.position.Place.{Place as Spot};

    /// The places, in the order of their numbers.
    ghost places: { Self → List Spot };

    /// How many places there are. Each number up to it is a node's.
    fn place_count(&self) -> usize
        ensures count { result ≡ length (places self.now) }
        ensures numbered { AreNodes (places self.now) (Self.tree self.now) };

    /// The place of a number, and none above the last.
    fn place(&self, id: NodeId) -> Option<Place>
        ensures { result ≡ place_of_number (places self.now) id };
}

/// The number of the place at an index.
fn number_at(at: usize) -> NodeId
    requires { at + 1 < 2 ^ 31 }
    ensures { result ≡ at + 1 }
{
    NodeId::new(at as u32 + 1).unwrap()
}

#[tactic(auto, unfolding(crate::specs::Combining::row_head))]
fn row_head(
    alloc: Global,
    id: NodeId,
    under: Option<NodeId>,
    place: Place,
    role: Role,
) -> Result<String, AllocError>
    ensures { IfOk result (λ s. string_bytes s ≡ row_head id under place role) }
{
    let number = id.get();
    let under = node_number(under);
    let from = place_text(alloc, place)?;
    let role = role.name();
    format!(in alloc; "{number} under {under} from {from} {role}")
}

/// The line of the place at this index, of whichever forest it is the combined tree.
fn put_row<C: CombinedView>(
    alloc: Global,
    view: &C,
    at: usize,
    out: &mut Bytes,
) -> Result<(), AllocError>
    requires there { at < length (C.places view.now) }
    requires numbered { AreNodes (C.places view.now) (C.TreeView.tree view.now) }
    ensures ok { OnOk result ((f : Forest) → IsCombined f (C.places view.now) (C.TreeView.tree view.now) → out.new.items ≡ out.old.items ++ row_text (stitched f) at) }
    ensures grown { OnOk result (Extends out.old.items out.new.items) }
    ensures err { OnErr result (Extends out.old.items out.new.items) }
{
    let id = number_at(at);
    let place = view.place(id).unwrap();
    let node = view.node(id).unwrap();
    let under = view.parent(id);
    put(out, &row_head(alloc, id, under, place, node.role)?)?;
    put_look(alloc, node, out)?;
    put(out, "\n")?;
    Ok(())
}

fn put_rows<C: CombinedView>(
    alloc: Global,
    view: &C,
    count: usize,
    out: &mut Bytes,
) -> Result<(), AllocError>
    requires all { count ≡ length (C.places view.now) }
    requires numbered { AreNodes (C.places view.now) (C.TreeView.tree view.now) }
    ensures ok { OnOk result ((f : Forest) → IsCombined f (C.places view.now) (C.TreeView.tree view.now) → out.new.items ≡ out.old.items ++ flat_map (node_line (stitched f)) (enumerate_from 1 (stitched f))) }
    ensures err { OnErr result (Extends out.old.items out.new.items) }
{
    for at in 0..count {
        put_row(alloc, view, at, out)?;
    }
    Ok(())
}

pub(crate) fn put_combined<C: CombinedView>(
    alloc: Global,
    view: &C,
    out: &mut Bytes,
) -> Result<(), AllocError>
    ensures ok { OnOk result ((f : Forest) → IsCombined f (C.places view.now) (C.TreeView.tree view.now) → out.new.items ≡ out.old.items ++ flat_map (combined_text f) (option_to_list (first_tree f))) }
    ensures err { OnErr result (Extends out.old.items out.new.items) }
{
    let count = view.place_count();
    if count == 0 {
        let tree = view.tree_data().tree.get();
        put(out, &format!(in alloc; "tree {tree} empty\n")?)?;
        return Ok(());
    }
    put_tree_line(alloc, view.tree_data(), out)?;
    put_rows(alloc, view, count, out)?;
    Ok(())
}
