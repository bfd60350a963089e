//! Which positions are refused, their global offsets, and their form on the place above.
ghost use Rattle.std.specs.Prelude.{◌≡◌, ◌+◌, ◌-◌, Some, true, option_and_then};
ghost use Rattle.ax_rules.specs.Stitched.{stitched, has_place, find_placed, parent_of};
ghost use Rattle.ax_rules.specs.Texts.{capped};
ghost use Rattle.ax_rules.specs.Positions.{checked, global_offset, up_form};
ghost use Rattle.ax_position.specs.Marks.{of_mark, mark_there, place_in};

use crate::marked::{Marked, mark_at, mark_of, place_of};
use ax_base::{Affinity, Place, Pos, PosErr};
use ax_stitch::parent;
use ax_tree::Grove;

/// The global offset of a mark, which stands at the last value where it would pass that.
pub(crate) fn global(m: &Marked) -> usize
    ensures { result ≡ capped (m.now.start + m.now.offset) }
{
    m.start.saturating_add(m.offset)
}

/// The position in text at a global offset, measured from the start of a place.
pub(crate) fn text_pos(place: &Place, offset: usize, start: usize, affinity: &Affinity) -> Pos
    ensures { result ≡ Pos.Text place.now.tree place.now.node (offset - start) affinity.now }
{
    Pos::Text {
        tree: place.tree,
        node: place.node,
        offset: offset.saturating_sub(start),
        affinity: *affinity,
    }
}

/// Whether a position stands in the text of the trees, and why not.
pub fn check<G: Grove>(g: &G, p: &Pos) -> Result<(), PosErr>
    ensures { result ≡ of_mark (λ _. tt) (checked (G.forest g.now) p.now) }
{
    match mark_of(g, p) {
        Ok(_) => Ok(()),
        Err(refusal) => Err(refusal),
    }
}

/// The global offset of a position, in scalars.
pub fn offset<G: Grove>(g: &G, p: &Pos) -> Result<usize, PosErr>
    ensures { result ≡ of_mark (global_offset (stitched (G.forest g.now))) (checked (G.forest g.now) p.now) }
{
    match mark_of(g, p) {
        Ok(m) => Ok(global(&m)),
        Err(refusal) => Err(refusal),
    }
}

/// The position on a place above that has the same global offset and affinity as a position at a place in the list.
fn on_parent<G: Grove>(g: &G, p: &Pos, place: &Place, above: &Place) -> Result<Option<Pos>, PosErr>
    requires there { has_place (stitched (G.forest g.now)) place.now ≡ true }
    requires place { place_in p.now ≡ Some place.now }
    requires above { option_and_then parent_of (find_placed (stitched (G.forest g.now)) place.now) ≡ Some above.now }
    ensures { result ≡ of_mark (up_form (stitched (G.forest g.now))) (mark_there (stitched (G.forest g.now)) p.now) }
{
    match mark_at(g, p, place, above) {
        Ok(m) => Ok(Some(text_pos(above, global(&m), m.above, &m.affinity))),
        Err(refusal) => Err(refusal),
    }
}

/// The position on the place above that has the same global offset and affinity; none at the first place.
pub fn up<G: Grove>(g: &G, p: &Pos) -> Result<Option<Pos>, PosErr>
    ensures { result ≡ of_mark (up_form (stitched (G.forest g.now))) (checked (G.forest g.now) p.now) }
{
    let place = match place_of(g, p) {
        Ok(place) => place,
        Err(refusal) => return Err(refusal),
    };
    match parent(g, place) {
        Some(above) => on_parent(g, p, &place, &above),
        None => match mark_at(g, p, &place, &place) {
            Ok(_) => Ok(None),
            Err(refusal) => Err(refusal),
        },
    }
}
