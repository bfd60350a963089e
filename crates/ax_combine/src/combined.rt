//! The combined tree.
ghost use Rattle.std.specs.Prelude.{◌≡◌, IfOk};
ghost use Rattle.std.specs.List.{filter_map};
ghost use Rattle.ax_rules.specs.Combined.{number_of};
ghost use Rattle.ax_rules.specs.Stitched.{stitched, places};
ghost use Rattle.ax_trees.specs.Trees.{ids};
ghost use Rattle.ax_report.specs.Combining.{place_of_number};
ghost use Rattle.ax_combine.specs.Joining.{IsCombined};

use crate::about::data_of;
use crate::nodes::{Rows, all_rows};
use crate::numbering::{Numbering, number_at};
use crate::walk::all_places;
use ax_base::{NoMemory, NodeId, Place};
use ax_node::{NodeData, TreeData};
use ax_report::CombinedView;
use ax_tree::{Grove, TreeView};
use std::alloc::Global;
use std::marker::Model;

/// There are no ids for so many places.
const MOST: usize = 2147483648;

/// One tree for all places of a forest's joined list. It is seen as that tree and the list of the places: node k of the
/// tree is the k-th place.
#[derive(Drop)]
pub struct Combined {
    numbering: Numbering,
    rows: Rows,
    about: TreeData,
}

impl Model for Combined {
    ghost use Rattle.ax_combine.specs.Kept.{Joined, coded_joined, kept_trees, IsKept};

    ghost Value = { Joined };

    ghost coded = { coded_joined };

    ghost view = { λ c. record { tree = record { about = c.about; trees = kept_trees c.rows }; places = c.numbering } };

    ghost invariant = { λ c. IsKept c.rows c.numbering (kept_trees c.rows) };
}

impl Combined {
    /// The place of a number; none above the last number.
    pub fn place(&self, id: NodeId) -> Option<Place>
        ensures { result ≡ place_of_number self.now.places id }
    {
        self.numbering.place(id)
    }

    /// The number of a place; none where it isn't one of the list.
    pub fn number(&self, p: Place) -> Option<NodeId>
        ensures { result ≡ number_of self.now.places p }
    {
        self.numbering.number(&p)
    }
}

impl TreeView for Combined {
    ghost tree = { λ c. c.tree };

    fn root(&self) -> Option<NodeId> {
        if self.rows.is_empty() {
            None
        } else {
            Some(number_at(0))
        }
    }

    fn node(&self, id: NodeId) -> Option<&NodeData> {
        match self.rows.get(id.get() as usize - 1) {
            Some(row) => Some(&row.node),
            None => None,
        }
    }

    fn parent(&self, id: NodeId) -> Option<NodeId> {
        match self.rows.get(id.get() as usize - 1) {
            Some(row) => row.above,
            None => None,
        }
    }

    fn tree_data(&self) -> &TreeData {
        &self.about
    }

    fn count(&self) -> usize {
        self.rows.len()
    }
}

impl CombinedView for Combined {
    ghost places = { λ c. c.places };

    fn place_count(&self) -> usize {
        self.numbering.len()
    }

    fn place(&self, id: NodeId) -> Option<Place> {
        self.numbering.place(id)
    }
}

/// The combined tree of a forest. Where there are more places than ids, there is no memory for it. It costs the places and their attributes: one walk numbers them, and each node is made
/// from its place alone.
pub fn combine<G: Grove>(alloc: Global, g: &G) -> Result<Combined, NoMemory>
    // It is well formed, and its nodes and its tree data are the rule's.
    ensures combined { IfOk result (λ c. IsCombined (G.forest g.now) c.places c.tree) }

    // Read through `place`, the pre-order is the joined list.
    ensures order { IfOk result (λ c. filter_map (place_of_number c.places) (ids c.tree.trees) ≡ places (stitched (G.forest g.now))) }
{
    let places = all_places(alloc, g)?;
    if places.len() >= MOST {
        return Err(NoMemory);
    }
    let numbering = Numbering::new(alloc, places)?;
    let about = data_of(alloc, g, &numbering)?;
    let rows = all_rows(alloc, g, &numbering)?;
    Ok(Combined {
        numbering,
        rows,
        about,
    })
}
