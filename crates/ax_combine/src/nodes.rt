//! The nodes of the combined tree.
ghost use Rattle.std.specs.Prelude.{◌≡◌, ◌<◌, ◌+◌, ◌++◌, Some, true, length, map, slice_get, IfOk, OnOk, option_map, option_and_then, option_to_list};
ghost use Rattle.std.specs.List.{enumerate_from, filter_map};
ghost use Rattle.ax_rules.specs.Combined.{number_of};
ghost use Rattle.ax_rules.specs.Stitched.{stitched, places, has_place, children_of, find_placed, parent_of};
ghost use Rattle.ax_combine.specs.Kept.{row_of};

use crate::attributes::numbered_attrs;
use crate::numbering::{Numbering, number_at};
use ax_base::{Ids, NoMemory, NodeId, Place, Seq};
use ax_node::NodeData;
use ax_tree::{Grove, TreeView};
use std::alloc::Global;

/// A node, and the number above it.
#[derive(Debug, Drop)]
pub(crate) struct Row {
    pub node: NodeData,
    pub above: Option<NodeId>,
}

pub(crate) type Rows = Seq<Row>;

/// Adds the number of a place, if it has one.
fn add_number(ids: &mut Ids, p: &Place, numbering: &Numbering) -> Result<(), NoMemory>
    ensures { OnOk result (ids.new ≡ ids.old ++ option_to_list (number_of numbering.now p.now)) }
{
    match numbering.number(p) {
        Some(number) => ids.push(number),
        None => Ok(()),
    }
}

/// The numbers of the places below a place.
fn children<G: Grove>(
    alloc: Global,
    g: &G,
    p: &Place,
    numbering: &Numbering,
) -> Result<Ids, NoMemory>
    requires { has_place (stitched (G.forest g.now)) p.now ≡ true }
    ensures { IfOk result (λ ids. ids ≡ filter_map (number_of numbering.now) (children_of (stitched (G.forest g.now)) p.now)) }
{
    let mut ids = Ids::new(alloc);
    let below = ax_stitch::children(alloc, g, *p)?;
    let places = below.as_slice();
    for place in places {
        add_number(&mut ids, place, numbering)?;
    }
    Ok(ids)
}

/// The number of the place above a place.
fn above<G: Grove>(g: &G, p: &Place, numbering: &Numbering) -> Option<NodeId>
    requires { has_place (stitched (G.forest g.now)) p.now ≡ true }
    ensures { result ≡ option_and_then (number_of numbering.now) (option_and_then parent_of (find_placed (stitched (G.forest g.now)) p.now)) }
{
    match ax_stitch::parent(g, *p) {
        Some(above) => numbering.number(&above),
        None => None,
    }
}

/// The node with a number, which is that of a place, and what stands above it.
fn make_row<G: Grove>(
    alloc: Global,
    g: &G,
    at: usize,
    numbering: &Numbering,
) -> Result<Row, NoMemory>
    requires numbering { numbering.now ≡ places (stitched (G.forest g.now)) }
    requires there { at < length numbering.now }
    ensures { IfOk result (λ r. Some r ≡ option_map (λ s. row_of (stitched (G.forest g.now)) (at + 1, s)) (slice_get (stitched (G.forest g.now)) at)) }
{
    let _ = numbering.len();
    let id = number_at(at);
    let p = numbering.place(id).unwrap();
    let view = g.tree(p.tree).unwrap();
    let node = view.node(p.node).unwrap();
    let states = node.states.copy()?;
    let attrs = numbered_attrs(alloc, &node.attrs, p.tree, numbering)?;
    let children = children(alloc, g, &p, numbering)?;
    let above = above(g, &p, numbering);
    Ok(Row {
        node: NodeData {
            id,
            role: node.role,
            states,
            attrs,
            rect: node.rect,
            children,
        },
        above,
    })
}

/// All nodes, in the order of their numbers.
pub(crate) fn all_rows<G: Grove>(
    alloc: Global,
    g: &G,
    numbering: &Numbering,
) -> Result<Rows, NoMemory>
    requires { numbering.now ≡ places (stitched (G.forest g.now)) }
    ensures { IfOk result (λ rows. rows ≡ map (row_of (stitched (G.forest g.now))) (enumerate_from 1 (stitched (G.forest g.now)))) }
{
    let count = numbering.len();
    let mut rows = Rows::new(alloc);
    rows.reserve(count)?;
    for at in 0..count {
        let row = make_row(alloc, g, at, numbering)?;
        rows.push(row)?;
    }
    Ok(rows)
}
