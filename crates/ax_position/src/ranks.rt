//! The order of two positions.
ghost use Rattle.std.specs.Prelude.{◌≡◌, true, length};
ghost use Rattle.ax_rules.specs.Stitched.{stitched, before};
ghost use Rattle.ax_rules.specs.Texts.{start_of};
ghost use Rattle.ax_rules.specs.Positions.{mark, checked, by_number, affinity_order, position_order};
ghost use Rattle.ax_position.specs.Walks.{folded, rows, IsSettled};
ghost use Rattle.ax_position.specs.Ranks.{begun_meeting, met_at, met_first, by_first, of_marks};

use crate::pairs::{Both, marks_of};
use crate::positions::global;
use crate::starts::same_place;
use ax_base::{Affinity, Place, Pos, PosErr};
use ax_tree::Grove;
use std::cmp::Ordering;

/// Which of two places stands first.
#[derive(Clone, Copy, Debug)]
pub(crate) struct Meeting {
    pub(crate) one: Place,
    pub(crate) other: Place,
    pub(crate) first: Option<bool>,
}

impl Meeting {
    pub(crate) fn new(one: Place, other: Place) -> Meeting
        ensures { result ≡ begun_meeting one other }
    {
        Meeting {
            one,
            other,
            first: None,
        }
    }

    /// Sees a place.
    pub(crate) fn see(&mut self, place: &Place)
        ensures { self.new ≡ met_at place.now self.old }
    {
        if self.first.is_some() {
            return;
        }
        if same_place(place, &self.one) {
            self.first = Some(true);
        } else if same_place(place, &self.other) {
            self.first = Some(false);
        }
    }

    /// Whether no further place changes it.
    pub(crate) fn is_over(&self) -> bool
        ensures { (result ≡ true) → IsSettled met_first self.now }
    {
        self.first.is_some()
    }
}

/// Up stands before down.
fn by_affinity(one: &Affinity, other: &Affinity) -> Ordering
    ensures { result ≡ affinity_order one.now other.now }
{
    match (*one, *other) {
        (Affinity::Up, Affinity::Down) => Ordering::Less,
        (Affinity::Down, Affinity::Up) => Ordering::Greater,
        _ => Ordering::Equal,
    }
}

/// The order of what was met first, or the given one where nothing was.
fn by_meeting(first: Option<bool>, same: Ordering) -> Ordering
    ensures { result ≡ by_first first same }
{
    match first {
        Some(true) => Ordering::Less,
        Some(false) => Ordering::Greater,
        None => same,
    }
}

/// The order of two places in the list, of which it is known which was met first, or the given one where they are the same.
fn by_place<G: Grove>(
    _g: &G,
    one: &Place,
    other: &Place,
    first: Option<bool>,
    same: Ordering,
) -> Ordering
    requires { first ≡ (folded met_first (begun_meeting one.now other.now) (rows (stitched (G.forest _g.now)) one.now)).first }
    ensures { result ≡ by_number (length (before (stitched (G.forest _g.now)) one.now)) (length (before (stitched (G.forest _g.now)) other.now)) same }
{
    if same_place(one, other) {
        return same;
    }
    by_meeting(first, same)
}

/// The order of two numbers, or the given one where they are the same.
fn by_number(one: usize, other: usize, same: Ordering) -> Ordering
    ensures { result ≡ by_number one other same }
{
    if one < other {
        Ordering::Less
    } else if other < one {
        Ordering::Greater
    } else {
        same
    }
}

/// The order of two marks, of whose places it is known which was met first.
#[tactic(auto, unfolding(ax_rules::specs::Positions::position_order, ax_rules::specs::Positions::global_offset))]
fn order<G: Grove>(g: &G, both: &Both) -> Ordering
    requires one { both.now.one.start ≡ start_of (stitched (G.forest g.now)) both.now.one.place }
    requires other { both.now.other.start ≡ start_of (stitched (G.forest g.now)) both.now.other.place }
    requires first { both.now.first ≡ (folded met_first (begun_meeting both.now.one.place both.now.other.place) (rows (stitched (G.forest g.now)) both.now.one.place)).first }
    ensures { result ≡ position_order (stitched (G.forest g.now)) (mark both.now.one.place both.now.one.offset both.now.one.affinity) (mark both.now.other.place both.now.other.offset both.now.other.affinity) }
{
    let one = &both.one;
    let other = &both.other;
    let same = by_affinity(&one.affinity, &other.affinity);
    let placed = by_place(g, &one.place, &other.place, both.first, same);
    by_number(global(one), global(other), placed)
}

/// The order of two positions: by global offset, then by place in the list, then up before down. The first position is
/// refused before the second.
pub fn compare<G: Grove>(g: &G, p: &Pos, q: &Pos) -> Result<Ordering, PosErr>
    ensures { result ≡ of_marks (position_order (stitched (G.forest g.now))) (checked (G.forest g.now) p.now) (checked (G.forest g.now) q.now) }
{
    match marks_of(g, p, q) {
        Err(refusal) => Err(refusal),
        Ok(both) => Ok(order(g, &both)),
    }
}
