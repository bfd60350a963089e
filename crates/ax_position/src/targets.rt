//! The places that are asked for in a walk.
ghost use Rattle.std.specs.Prelude.{◌≡◌, false};
ghost use Rattle.ax_position.specs.Walks.{within_of};

use crate::starts::same_place;
use ax_base::Place;

/// Two places that are asked for.
#[derive(Clone, Copy, Debug)]
pub struct Targets {
    pub one: Place,
    pub other: Place,
}

/// Whether a place is within each of two places: it is that place, or stands below it.
#[derive(Clone, Copy, Debug)]
pub struct Within {
    pub one: bool,
    pub other: bool,
}

/// Within neither.
pub(crate) fn outside() -> Within
    ensures { result ≡ record { one = false; other = false } }
{
    Within {
        one: false,
        other: false,
    }
}

/// Whether a place is within each of the targets, where that is known of the place above.
pub(crate) fn within_of(targets: &Targets, at: &Place, above: Within) -> Within
    ensures { result ≡ within_of targets.now at.now above }
{
    Within {
        one: same_place(&targets.one, at) || above.one,
        other: same_place(&targets.other, at) || above.other,
    }
}
