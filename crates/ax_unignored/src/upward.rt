//! The nearest shown place above a place.
ghost use Rattle.std.specs.Prelude.{◌≡◌, true, option_and_then};
ghost use Rattle.ax_rules.specs.Stitched.{stitched, has_place, find_placed};
ghost use Rattle.ax_rules.specs.Unignored.{is_shown_place, shown_parent};

use crate::show::is_shown;
use ax_base::Place;
use ax_tree::Grove;

/// The nearest shown place above a shown place; none where no place above is shown.
pub fn parent<G: Grove>(g: &G, p: Place) -> Option<Place>
    requires there { has_place (stitched (G.forest g.now)) p ≡ true }
    requires shown { is_shown_place (stitched (G.forest g.now)) p ≡ true }
    ensures { result ≡ option_and_then (shown_parent (stitched (G.forest g.now))) (find_placed (stitched (G.forest g.now)) p) }
{
    // Asked for what it says: the forest is sound.
    let _ = g.tree(p.tree);
    let mut at = p;
    while let Some(above) = ax_stitch::parent(g, at) {
        if is_shown(g, &above) {
            return Some(above);
        }
        at = above;
    }
    None
}
