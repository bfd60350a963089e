//! The origins of the nodes above a node, as a list that stands on the stack.
ghost use Rattle.std.specs.Prelude.{◌≡◌, ◌==◌, ◌∷◌};
ghost use Rattle.std.specs.List.{find};
ghost use Rattle.ax_hit.specs.Trails.{origins_on};

use ax_base::NodeId;
use ax_stitch::Origin;

/// The origins of the nodes above a node, the nearest first.
#[derive(Clone, Copy)]
pub(crate) enum Trail<'a> {
    Top,
    Under(Origin, &'a Trail<'a>),
}

/// A trail with one more node at its end.
pub(crate) fn below<'a>(origin: &Origin, trail: &'a Trail<'a>) -> Trail<'a>
    ensures { origins_on result ≡ origin.now ∷ origins_on trail.now }
{
    Trail::Under(*origin, trail)
}

/// The origin of a node of the trail.
pub(crate) fn find(trail: &Trail<'_>, id: NodeId) -> Option<Origin>
    ensures { result ≡ find (λ o. o.node == id) (origins_on trail.now) }
{
    match trail {
        Trail::Top => None,
        Trail::Under(origin, above) => {
            if origin.node() == id {
                Some(*origin)
            } else {
                find(above, id)
            }
        }
    }
}
