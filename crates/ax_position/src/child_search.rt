//! The search of the leaf on which a position before a child stands, behind another child.
ghost use Rattle.std.specs.Prelude.{◌≡◌, ◌≤◌, true, false, None, option_map, IfErr, Err};
ghost use Rattle.ax_tree.specs.Forest.{IsSound};
ghost use Rattle.ax_base.specs.declared.position.Affinity.TheVariants.{Down};
ghost use Rattle.ax_rules.specs.Stitched.{stitched, has_place};
ghost use Rattle.ax_rules.specs.Positions.{child_mark};
ghost use Rattle.ax_position.specs.Walks.{folded, rows};
ghost use Rattle.ax_position.specs.Leaves.{pos_on};
ghost use Rattle.ax_position.specs.Forms.{leaf_of_mark, if_some};
ghost use Rattle.ax_position.specs.Marks.{of_mark};
ghost use Rattle.ax_position.specs.Children.{begun_child, child_goal, is_past, sought_child};

use crate::kids::child_before;
use crate::leaves::Leaf;
use crate::places::{Visitor, walk};
use crate::positions::text_pos;
use crate::starts::counted;
use crate::survey::{Asked, Survey};
use crate::targets::Within;
use ax_base::{Affinity, NoMemory, Place, Pos, PosErr};
use ax_node::NodeData;
use ax_tree::Grove;

/// The survey of a place's text up to a child, the scalars that were counted in the document, and the last leaf of the
/// place so far that starts by the survey's end.
#[derive(Clone, Copy, Debug)]
pub(crate) struct ChildSearch {
    pub(crate) survey: Survey,
    pub(crate) at: usize,
    pub(crate) found: Option<Leaf>,
}

impl ChildSearch {
    fn new(place: &Place, end: Option<Place>) -> ChildSearch
        ensures { result ≡ begun_child place.now end }
    {
        let asked = Asked {
            place: *place,
            above: *place,
            end,
            limit: usize::MAX,
        };
        ChildSearch {
            survey: Survey::new(&asked),
            at: 0,
            found: None,
        }
    }

    /// The global offset of the survey's end, as far as it was counted.
    fn goal(&self) -> usize
        ensures { result ≡ child_goal self.now }
    {
        self.survey.target.start.saturating_add(self.survey.len)
    }

    /// Whether no later leaf starts by the survey's end.
    fn is_past(&self) -> bool
        ensures { result ≡ is_past self.now }
    {
        self.survey.ended && self.survey.target.met && self.goal() < self.at
    }
}

impl Visitor for ChildSearch {
    ghost seen = { sought_child };

    ghost fails = { λ _. false };

    fn visit(
        &mut self,
        place: &Place,
        node: &NodeData,
        leaf: bool,
        within: Within,
    ) -> Result<(), NoMemory> {
        if self.is_past() {
            return Ok(());
        }
        let start = self.at;
        self.survey.see(place, node, leaf, within.one);
        self.at = counted(leaf, start, node);
        if leaf && within.one && start <= self.goal() {
            self.found = Some(Leaf {
                place: *place,
                start,
            });
        }
        Ok(())
    }

    fn is_settled(&self) -> bool {
        self.is_past()
    }
}

/// The search of the last leaf of a place that starts by a child of it, or by its end.
fn searched_child<G: Grove>(g: &G, place: &Place, end: Option<Place>) -> ChildSearch
    ensures seen { result ≡ folded sought_child (begun_child place.now end) (rows (stitched (G.forest g.now)) place.now) }
    ensures sound { IsSound (G.forest g.now) }
{
    let mut search = ChildSearch::new(place, end);
    let _ = walk(g, place, &mut search);
    search
}

/// The position of the survey's end on the leaf that was found.
fn on_child_leaf(search: &ChildSearch) -> Option<Pos>
    ensures { result ≡ option_map (pos_on (child_goal search.now) Down) search.now.found }
{
    let leaf = search.found?;
    Some(text_pos(&leaf.place, search.goal(), leaf.start, &Affinity::Down))
}

/// The form of a position before a child behind another one, by one walk.
pub(crate) fn child_form<G: Grove>(g: &G, place: &Place, child: usize) -> Result<Pos, PosErr>
    requires there { has_place (stitched (G.forest g.now)) place.now ≡ true }
    requires later { 1 ≤ child }
    ensures form { result ≡ if_some (of_mark (leaf_of_mark (stitched (G.forest g.now))) (child_mark (stitched (G.forest g.now)) place.now child)) }
    ensures refused { IfErr result (λ e. child_mark (stitched (G.forest g.now)) place.now child ≡ Err e) }
{
    let end = match child_before(g, place, child) {
        Ok(end) => end,
        Err(count) => return Err(PosErr::BadIndex(child, count)),
    };
    let search = searched_child(g, place, end);
    let form = on_child_leaf(&search).unwrap();
    Ok(form)
}
