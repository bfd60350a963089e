//! The nearest of the bounds of one text.
ghost use Rattle.std.specs.Prelude.{◌≡◌, ◌+◌, find, filter, map, nat_lt};
ghost use Rattle.ax_rules.specs.Sequences.{last_of};
ghost use Rattle.ax_rules.specs.Texts.{capped};
ghost use Rattle.ax_moves.specs.Bounds.{moved};

/// The first bound above an offset, of a text that starts at `start`.
pub(crate) fn first_above(bounds: &[usize], start: usize, offset: usize) -> Option<usize>
    ensures { result ≡ find (nat_lt offset) (moved start bounds.now) }
{
    for bound in bounds {
        let bound = start.saturating_add(*bound);
        if bound > offset {
            return Some(bound);
        }
    }
    None
}

/// The last bound below an offset, of a text that starts at `start`.
pub(crate) fn last_below(bounds: &[usize], start: usize, offset: usize) -> Option<usize>
    ensures { result ≡ last_of (filter (λ b. nat_lt b offset) (moved start bounds.now)) }
{
    let mut found = None;
    for bound in bounds {
        let bound = start.saturating_add(*bound);
        if bound < offset {
            found = Some(bound);
        }
    }
    found
}
