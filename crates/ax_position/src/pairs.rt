//! The positions in text for which two positions stand, by one walk.
ghost use Rattle.std.specs.Prelude.{◌≡◌, true, false, IfOk};
ghost use Rattle.ax_node.specs.Look.{look_of};
ghost use Rattle.ax_tree.specs.Forest.{IsSound};
ghost use Rattle.ax_rules.specs.Stitched.{stitched, has_place};
ghost use Rattle.ax_rules.specs.Texts.{start_of};
ghost use Rattle.ax_rules.specs.Positions.{checked};
ghost use Rattle.ax_position.specs.Walks.{folded, rows};
ghost use Rattle.ax_position.specs.Surveys.{begun_survey, surveyed};
ghost use Rattle.ax_position.specs.Ranks.{begun_meeting, met_first, of_marks};
ghost use Rattle.ax_position.specs.Marks.{IsAsked, mark_there, marks_in_text, two_marks};
ghost use Rattle.ax_position.specs.Pairs.{surveyed_both};

use crate::marked::{Marked, asked_of, mark_asked, mark_by};
use crate::places::{Visitor, walk_for_two};
use crate::ranks::Meeting;
use crate::survey::{Asked, Survey};
use crate::targets::{Targets, Within};
use ax_base::{NoMemory, Place, Pos, PosErr};
use ax_node::NodeData;
use ax_tree::Grove;

/// The surveys of two places, and which of the two was met first.
#[derive(Clone, Copy, Debug)]
pub(crate) struct Pair {
    pub(crate) one: Survey,
    pub(crate) other: Survey,
    pub(crate) meeting: Meeting,
}

/// The positions in text for which two positions stand, and whether the place of the first one was met first.
#[derive(Clone, Copy, Debug)]
pub(crate) struct Both {
    pub(crate) one: Marked,
    pub(crate) other: Marked,
    pub(crate) first: Option<bool>,
}

impl Visitor for Pair {
    ghost seen = { surveyed_both };

    ghost fails = { λ _. false };

    fn visit(
        &mut self,
        place: &Place,
        node: &NodeData,
        leaf: bool,
        within: Within,
    ) -> Result<(), NoMemory> {
        self.one.see(place, node, leaf, within.one);
        self.other.see(place, node, leaf, within.other);
        self.meeting.see(place);
        Ok(())
    }

    fn is_settled(&self) -> bool {
        if self.one.is_over() {
            if self.other.is_over() {
                return self.meeting.is_over();
            }
        }
        false
    }
}

/// Surveys two places by one walk, which ends where both surveys are settled.
fn pair_of<G: Grove>(g: &G, one: &Asked, other: &Asked) -> Pair
    ensures one { result.one ≡ folded surveyed (begun_survey one.now.place one.now.above one.now.end one.now.limit) (rows (stitched (G.forest g.now)) one.now.place) }
    ensures other { result.other ≡ folded surveyed (begun_survey other.now.place other.now.above other.now.end other.now.limit) (rows (stitched (G.forest g.now)) other.now.place) }
    ensures meeting { result.meeting ≡ folded met_first (begun_meeting one.now.place other.now.place) (rows (stitched (G.forest g.now)) one.now.place) }
    ensures sound { IsSound (G.forest g.now) }
{
    let mut pair = Pair {
        one: Survey::new(one),
        other: Survey::new(other),
        meeting: Meeting::new(one.place, other.place),
    };
    let targets = Targets {
        one: one.place,
        other: other.place,
    };
    let _ = walk_for_two(g, &targets, &mut pair);
    pair
}

/// The positions in text for which two positions stand of which this is to be asked. The first is refused before the second.
fn marks_asked<G: Grove>(
    g: &G,
    p: &Pos,
    q: &Pos,
    one: &Asked,
    other: &Asked,
) -> Result<Both, PosErr>
    requires one { IsAsked (stitched (G.forest g.now)) p.now one.now }
    requires other { IsAsked (stitched (G.forest g.now)) q.now other.now }
    requires one_there { has_place (stitched (G.forest g.now)) one.now.place ≡ true }
    requires other_there { has_place (stitched (G.forest g.now)) other.now.place ≡ true }
    ensures marks { marks_in_text result ≡ of_marks two_marks (mark_there (stitched (G.forest g.now)) p.now) (mark_there (stitched (G.forest g.now)) q.now) }
    ensures one { IfOk result (λ b. b.one.start ≡ start_of (stitched (G.forest g.now)) b.one.place) }
    ensures other { IfOk result (λ b. b.other.start ≡ start_of (stitched (G.forest g.now)) b.other.place) }
    ensures first { IfOk result (λ b. b.first ≡ (folded met_first (begun_meeting b.one.place b.other.place) (rows (stitched (G.forest g.now)) b.one.place)).first) }
{
    let pair = pair_of(g, one, other);
    match mark_by(g, p, one, &pair.one) {
        Err(refusal) => Err(refusal),
        Ok(m) => match mark_by(g, q, other, &pair.other) {
            Err(refusal) => Err(refusal),
            Ok(n) => Ok(Both {
                one: m,
                other: n,
                first: pair.meeting.first,
            }),
        },
    }
}

/// The positions in text for which two positions stand. The first is refused before the second. There is one walk at most.
pub(crate) fn marks_of<G: Grove>(g: &G, p: &Pos, q: &Pos) -> Result<Both, PosErr>
    ensures marks { marks_in_text result ≡ of_marks two_marks (checked (G.forest g.now) p.now) (checked (G.forest g.now) q.now) }
    ensures one { IfOk result (λ b. b.one.start ≡ start_of (stitched (G.forest g.now)) b.one.place) }
    ensures other { IfOk result (λ b. b.other.start ≡ start_of (stitched (G.forest g.now)) b.other.place) }
    ensures first { IfOk result (λ b. b.first ≡ (folded met_first (begun_meeting b.one.place b.other.place) (rows (stitched (G.forest g.now)) b.one.place)).first) }
{
    match asked_of(g, p) {
        Err(refusal) => Err(refusal),
        Ok(one) => match asked_of(g, q) {
            Ok(other) => marks_asked(g, p, q, &one, &other),
            Err(refusal) => match mark_asked(g, p, &one) {
                Err(first) => Err(first),
                Ok(_) => Err(refusal),
            },
        },
    }
}
