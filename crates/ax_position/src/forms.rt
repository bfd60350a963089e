//! The form of a position on a leaf.
ghost use Rattle.std.specs.Prelude.{◌≡◌, true, Some, IfErr, Err};
ghost use Rattle.ax_rules.specs.Stitched.{stitched, has_place};
ghost use Rattle.ax_rules.specs.Positions.{checked, child_mark, text_mark};
ghost use Rattle.ax_position.specs.Marks.{of_mark, mark_there, place_in};
ghost use Rattle.ax_position.specs.Forms.{leaf_of_mark, if_some, at_offset, leaf_at_offset};

use crate::child_search::child_form;
use crate::leaves::{on_leaf, searched};
use crate::marked::place_of;
use ax_base::{Affinity, Place, Pos, PosErr};
use ax_stitch::root;
use ax_tree::Grove;

/// The form of an offset of the text of a place in the list.
fn text_form<G: Grove>(
    g: &G,
    place: &Place,
    offset: usize,
    affinity: &Affinity,
) -> Result<Pos, PosErr>
    requires { has_place (stitched (G.forest g.now)) place.now ≡ true }
    ensures form { result ≡ if_some (of_mark (leaf_of_mark (stitched (G.forest g.now))) (text_mark (stitched (G.forest g.now)) place.now offset affinity.now)) }
    ensures refused { IfErr result (λ e. text_mark (stitched (G.forest g.now)) place.now offset affinity.now ≡ Err e) }
{
    let search = searched(g, place, offset, affinity);
    if offset > search.len {
        return Err(PosErr::BadOffset(offset, search.len));
    }
    let form = on_leaf(&search).unwrap();
    Ok(form)
}

/// The form of a position before a child. Before the first one it is that of the text's start.
fn form_before<G: Grove>(g: &G, place: &Place, child: usize) -> Result<Pos, PosErr>
    requires { has_place (stitched (G.forest g.now)) place.now ≡ true }
    ensures form { result ≡ if_some (of_mark (leaf_of_mark (stitched (G.forest g.now))) (child_mark (stitched (G.forest g.now)) place.now child)) }
    ensures refused { IfErr result (λ e. child_mark (stitched (G.forest g.now)) place.now child ≡ Err e) }
{
    if child == 0 {
        text_form(g, place, 0, &Affinity::Down)
    } else {
        child_form(g, place, child)
    }
}

/// The form of a position at a place in the list.
fn form_at<G: Grove>(g: &G, p: &Pos, place: &Place) -> Result<Pos, PosErr>
    requires there { has_place (stitched (G.forest g.now)) place.now ≡ true }
    requires place { place_in p.now ≡ Some place.now }
    ensures form { result ≡ if_some (of_mark (leaf_of_mark (stitched (G.forest g.now))) (mark_there (stitched (G.forest g.now)) p.now)) }
    ensures refused { IfErr result (λ e. mark_there (stitched (G.forest g.now)) p.now ≡ Err e) }
{
    match p {
        Pos::Null => Err(PosErr::NoTree),
        Pos::Text {
            offset,
            affinity,
            ..
        } => text_form(g, place, *offset, affinity),
        Pos::Tree { child, .. } => form_before(g, place, *child),
    }
}

/// The position on a leaf of the position's place that has the same global offset and affinity: downstream the last leaf
/// that starts by the offset, upstream the first that ends from it on. There is one for each position that isn't refused.
pub fn leaf<G: Grove>(g: &G, p: &Pos) -> Result<Pos, PosErr>
    ensures form { result ≡ if_some (of_mark (leaf_of_mark (stitched (G.forest g.now))) (checked (G.forest g.now) p.now)) }
    ensures refused { IfErr result (λ e. checked (G.forest g.now) p.now ≡ Err e) }
{
    match place_of(g, p) {
        Ok(place) => form_at(g, p, &place),
        Err(refusal) => Err(refusal),
    }
}

/// The position on a leaf that has a global offset, downstream. There is none exactly where there is no place or the
/// offset is above the text's length.
pub fn at<G: Grove>(g: &G, offset: usize) -> Option<Pos>
    ensures { result ≡ at_offset (stitched (G.forest g.now)) offset }
{
    match root(g) {
        None => None,
        Some(first) => {
            let search = searched(g, &first, offset, &Affinity::Down);
            if offset > search.len {
                None
            } else {
                on_leaf(&search)
            }
        }
    }
}

/// The position on a leaf that has a global offset, downstream, whatever the text's length: behind its end, on the last
/// leaf. There is none exactly where there is no place.
pub fn leaf_at<G: Grove>(g: &G, offset: usize) -> Option<Pos>
    ensures { result ≡ leaf_at_offset (stitched (G.forest g.now)) offset }
{
    match root(g) {
        None => None,
        Some(first) => {
            let search = searched(g, &first, offset, &Affinity::Down);
            on_leaf(&search)
        }
    }
}
