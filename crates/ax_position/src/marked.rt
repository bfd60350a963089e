//! The position in text for which a position stands, or its refusal.
ghost use Rattle.std.specs.Prelude.{◌≡◌, ◌≤◌, Some, true, IfOk, IfErr, Err};
ghost use Rattle.ax_tree.specs.Forest.{IsSound};
ghost use Rattle.ax_rules.specs.Stitched.{stitched, has_place, place_at};
ghost use Rattle.ax_rules.specs.Texts.{start_of, text_len};
ghost use Rattle.ax_rules.specs.Positions.{checked};
ghost use Rattle.ax_position.specs.Walks.{folded, rows};
ghost use Rattle.ax_position.specs.Surveys.{begun_survey, surveyed};
ghost use Rattle.ax_position.specs.Marks.{IsAsked, mark_in_text, mark_there, most_before, place_in, place_refusal};

use crate::kids::child_before;
use crate::survey::{Asked, Survey, survey_of};
use ax_base::{Affinity, Place, Pos, PosErr};
use ax_stitch::has;
use ax_tree::Grove;

/// The position in text for which a position stands: its place, where that and another place start in the document, the
/// offset from the place's start, and the affinity.
#[derive(Clone, Copy, Debug)]
pub(crate) struct Marked {
    pub(crate) place: Place,
    pub(crate) start: usize,
    pub(crate) above: usize,
    pub(crate) offset: usize,
    pub(crate) affinity: Affinity,
}

/// How much of a place's text stands before a child at most. A leaf's own text stands before none.
fn most_before(child: usize) -> usize
    ensures { result ≡ most_before child }
{
    if child == 0 { 0 } else { usize::MAX }
}

/// Why a place has no position, where that is so.
#[tactic(auto, unfolding(crate::specs::Marks::place_refusal, ax_rules::specs::Positions::is_live))]
fn place_refusal<G: Grove>(g: &G, place: &Place) -> Option<PosErr>
    ensures { result ≡ place_refusal (G.forest g.now) place.now }
{
    if !g.live(place.tree) {
        return Some(PosErr::NoTree);
    }
    if has(g, *place) {
        None
    } else {
        Some(PosErr::NoNode)
    }
}

/// The place of a position.
fn place_in(p: &Pos) -> Option<Place>
    ensures { result ≡ place_in p.now }
{
    match p {
        Pos::Null => None,
        Pos::Tree { tree, node, .. } => Some(Place {
            tree: *tree,
            node: *node,
        }),
        Pos::Text { tree, node, .. } => Some(Place {
            tree: *tree,
            node: *node,
        }),
    }
}

/// The place of a position, which stands in the list, or the position's refusal.
pub(crate) fn place_of<G: Grove>(g: &G, p: &Pos) -> Result<Place, PosErr>
    ensures there { IfOk result (λ q. has_place (stitched (G.forest g.now)) q ≡ true) }
    ensures place { IfOk result (λ q. place_in p.now ≡ Some q) }
    ensures mark { IfOk result (λ _. checked (G.forest g.now) p.now ≡ mark_there (stitched (G.forest g.now)) p.now) }
    ensures refused { IfErr result (λ e. checked (G.forest g.now) p.now ≡ Err e) }
{
    let place = match place_in(p) {
        Some(place) => place,
        None => return Err(PosErr::NoTree),
    };
    match place_refusal(g, &place) {
        Some(refusal) => Err(refusal),
        None => Ok(place),
    }
}

/// What is to be asked for a position at a place in the list, and where another place starts; or the position's refusal.
fn asked_at<G: Grove>(g: &G, p: &Pos, place: &Place, above: &Place) -> Result<Asked, PosErr>
    requires there { has_place (stitched (G.forest g.now)) place.now ≡ true }
    requires place { place_in p.now ≡ Some place.now }
    ensures asked { IfOk result (IsAsked (stitched (G.forest g.now)) p.now) }
    ensures at { IfOk result (λ a. (a.place ≡ place.now) × (a.above ≡ above.now)) }
    ensures refused { IfErr result (λ e. mark_there (stitched (G.forest g.now)) p.now ≡ Err e) }
{
    match p {
        Pos::Null => Err(PosErr::NoTree),
        Pos::Tree { child, .. } => match child_before(g, place, *child) {
            Ok(end) => Ok(Asked {
                place: *place,
                above: *above,
                end,
                limit: most_before(*child),
            }),
            Err(count) => Err(PosErr::BadIndex(*child, count)),
        },
        Pos::Text { offset, .. } => Ok(Asked {
            place: *place,
            above: *above,
            end: None,
            limit: *offset,
        }),
    }
}

/// The position in text for which a position stands whose place was surveyed, or its refusal.
pub(crate) fn mark_by<G: Grove>(
    _g: &G,
    p: &Pos,
    asked: &Asked,
    survey: &Survey,
) -> Result<Marked, PosErr>
    requires sound { IsSound (G.forest _g.now) }
    requires asked { IsAsked (stitched (G.forest _g.now)) p.now asked.now }
    requires there { has_place (stitched (G.forest _g.now)) asked.now.place ≡ true }
    requires seen { survey.now ≡ folded surveyed (begun_survey asked.now.place asked.now.above asked.now.end asked.now.limit) (rows (stitched (G.forest _g.now)) asked.now.place) }
    ensures mark { mark_in_text result ≡ mark_there (stitched (G.forest _g.now)) p.now }
    ensures at { IfOk result (λ m. m.place ≡ asked.now.place) }
    ensures within { IfOk result (λ m. m.offset ≤ text_len (stitched (G.forest _g.now)) m.place) }
    ensures start { IfOk result (λ m. m.start ≡ start_of (stitched (G.forest _g.now)) m.place) }
    ensures above { IfOk result (λ m. m.above ≡ start_of (stitched (G.forest _g.now)) asked.now.above) }
{
    match p {
        Pos::Null => Err(PosErr::NoTree),
        Pos::Tree { .. } => Ok(Marked {
            place: asked.place,
            start: survey.target.start,
            above: survey.above.start,
            offset: survey.len.min(asked.limit),
            affinity: Affinity::Down,
        }),
        Pos::Text {
            offset,
            affinity,
            ..
        } => {
            if *offset > survey.len {
                return Err(PosErr::BadOffset(*offset, survey.len));
            }
            Ok(Marked {
                place: asked.place,
                start: survey.target.start,
                above: survey.above.start,
                offset: *offset,
                affinity: *affinity,
            })
        }
    }
}

/// The position in text for which a position stands of which this is to be asked, or its refusal.
pub(crate) fn mark_asked<G: Grove>(g: &G, p: &Pos, asked: &Asked) -> Result<Marked, PosErr>
    requires asked { IsAsked (stitched (G.forest g.now)) p.now asked.now }
    requires there { has_place (stitched (G.forest g.now)) asked.now.place ≡ true }
    ensures mark { mark_in_text result ≡ mark_there (stitched (G.forest g.now)) p.now }
    ensures at { IfOk result (λ m. m.place ≡ asked.now.place) }
    ensures within { IfOk result (λ m. m.offset ≤ text_len (stitched (G.forest g.now)) m.place) }
    ensures start { IfOk result (λ m. m.start ≡ start_of (stitched (G.forest g.now)) m.place) }
    ensures above { IfOk result (λ m. m.above ≡ start_of (stitched (G.forest g.now)) asked.now.above) }
{
    let survey = survey_of(g, asked);
    mark_by(g, p, asked, &survey)
}

/// The position in text for which a position at a place in the list stands, and where another place starts.
pub(crate) fn mark_at<G: Grove>(
    g: &G,
    p: &Pos,
    place: &Place,
    above: &Place,
) -> Result<Marked, PosErr>
    requires there { has_place (stitched (G.forest g.now)) place.now ≡ true }
    requires place { place_in p.now ≡ Some place.now }
    ensures mark { mark_in_text result ≡ mark_there (stitched (G.forest g.now)) p.now }
    ensures at { IfOk result (λ m. m.place ≡ place.now) }
    ensures within { IfOk result (λ m. m.offset ≤ text_len (stitched (G.forest g.now)) m.place) }
    ensures start { IfOk result (λ m. m.start ≡ start_of (stitched (G.forest g.now)) m.place) }
    ensures above { IfOk result (λ m. m.above ≡ start_of (stitched (G.forest g.now)) above.now) }
{
    match asked_at(g, p, place, above) {
        Ok(asked) => mark_asked(g, p, &asked),
        Err(refusal) => Err(refusal),
    }
}

/// What is to be asked for a position, or its refusal, where no walk is needed to see that.
pub(crate) fn asked_of<G: Grove>(g: &G, p: &Pos) -> Result<Asked, PosErr>
    ensures asked { IfOk result (IsAsked (stitched (G.forest g.now)) p.now) }
    ensures there { IfOk result (λ a. has_place (stitched (G.forest g.now)) a.place ≡ true) }
    ensures mark { IfOk result (λ _. checked (G.forest g.now) p.now ≡ mark_there (stitched (G.forest g.now)) p.now) }
    ensures refused { IfErr result (λ e. checked (G.forest g.now) p.now ≡ Err e) }
{
    match place_of(g, p) {
        Ok(place) => asked_at(g, p, &place, &place),
        Err(refusal) => Err(refusal),
    }
}

/// The position in text for which a position stands, or its refusal.
pub(crate) fn mark_of<G: Grove>(g: &G, p: &Pos) -> Result<Marked, PosErr>
    ensures mark { mark_in_text result ≡ checked (G.forest g.now) p.now }
    ensures start { IfOk result (λ m. m.start ≡ start_of (stitched (G.forest g.now)) m.place) }
{
    match asked_of(g, p) {
        Ok(asked) => mark_asked(g, p, &asked),
        Err(refusal) => Err(refusal),
    }
}
