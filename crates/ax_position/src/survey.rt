//! A survey of a place: where it and another place start, and how long its text is, as far as that is asked for.
ghost use Rattle.std.specs.Prelude.{◌≡◌, Bool, true, false};
ghost use Rattle.ax_node.specs.Look.{look_of};
ghost use Rattle.ax_tree.specs.Forest.{IsSound, is_place};
ghost use Rattle.ax_rules.specs.Stitched.{stitched};
ghost use Rattle.ax_position.specs.Walks.{row, folded, rows, IsSettled};
ghost use Rattle.ax_position.specs.Surveys.{begun_survey, surveyed};

use crate::places::{Visitor, walk};
use crate::starts::{Start, counted, same_place};
use crate::targets::Within;
use ax_base::{NoMemory, Place};
use ax_node::NodeData;
use ax_tree::Grove;

fn is_place(p: &Place, q: &Option<Place>) -> bool
    ensures { result ≡ is_place p.now q.now }
{
    match q {
        Some(q) => same_place(p, q),
        None => false,
    }
}

/// Where a place and another one start in the document, and how long the text of the place is, or its part before the
/// place `end`. It counts on as long as less than `limit` is counted.
#[derive(Clone, Copy, Debug)]
pub(crate) struct Survey {
    pub(crate) target: Start,
    pub(crate) above: Start,
    pub(crate) end: Option<Place>,
    pub(crate) limit: usize,
    pub(crate) ended: bool,
    pub(crate) len: usize,
}

/// What is asked of a place: where it and another one start, and how long its text is, or its part before the place `end`,
/// as far as less than `limit` is counted.
#[derive(Clone, Copy, Debug)]
pub(crate) struct Asked {
    pub(crate) place: Place,
    pub(crate) above: Place,
    pub(crate) end: Option<Place>,
    pub(crate) limit: usize,
}

impl Survey {
    pub(crate) fn new(asked: &Asked) -> Survey
        ensures { result ≡ begun_survey asked.now.place asked.now.above asked.now.end asked.now.limit }
    {
        Survey {
            target: Start::new(asked.place),
            above: Start::new(asked.above),
            end: asked.end,
            limit: asked.limit,
            ended: false,
            len: 0,
        }
    }

    /// Sees a place with its node.
    pub(crate) fn see(&mut self, place: &Place, node: &NodeData, leaf: bool, within: bool)
        ensures { self.new ≡ surveyed self.old (row place.now (look_of node.now) leaf within) }
    {
        let behind = self.target.met && (!within || self.limit <= self.len);
        self.ended = self.ended || is_place(place, &self.end) || behind;
        self.target.see(place, node, leaf, within);
        self.above.see(place, node, leaf, within);
        self.len = counted(leaf && within && !self.ended, self.len, node);
    }

    /// Whether no further row changes it.
    pub(crate) fn is_over(&self) -> bool
        ensures { (result ≡ true) → IsSettled surveyed self.now }
    {
        self.ended && self.target.met && self.above.met
    }
}

impl Visitor for Survey {
    ghost seen = { surveyed };

    ghost fails = { λ _. false };

    fn visit(
        &mut self,
        place: &Place,
        node: &NodeData,
        leaf: bool,
        within: Within,
    ) -> Result<(), NoMemory> {
        self.see(place, node, leaf, within.one);
        Ok(())
    }

    fn is_settled(&self) -> bool {
        self.is_over()
    }
}

/// Surveys a place, and where another one starts.
pub(crate) fn survey_of<G: Grove>(g: &G, asked: &Asked) -> Survey
    ensures seen { result ≡ folded surveyed (begun_survey asked.now.place asked.now.above asked.now.end asked.now.limit) (rows (stitched (G.forest g.now)) asked.now.place) }
    ensures sound { IsSound (G.forest g.now) }
{
    let mut survey = Survey::new(asked);
    let _ = walk(g, &asked.place, &mut survey);
    survey
}
