//! Which places nothing can be said of.
ghost use Rattle.std.specs.Prelude.{◌≡◌};
ghost use Rattle.ax_tree.specs.Forest.{IsSound};
ghost use Rattle.ax_query.specs.Refusals.{refusal_at, shown_refusal_at};

use ax_ask::Reply;
use ax_base::Place;
use ax_tree::Grove;

/// The reply where nothing can be said of a place: its tree isn't live, or the place isn't in the list. None where it is.
#[tactic(auto, unfolding(crate::specs::Refusals::refusal_at, ax_rules::specs::Positions::is_live))]
pub(crate) fn refusal_at<G: Grove>(g: &G, p: &Place) -> Option<Reply>
    ensures { result ≡ refusal_at (G.forest g.now) p.now }
{
    if !g.live(p.tree) {
        return Some(Reply::NoTree);
    }
    if ax_stitch::has(g, *p) {
        None
    } else {
        Some(Reply::NoNode)
    }
}

/// The reply where nothing can be said of a place in the shown list: `refusal_at`, or the place is there and isn't shown.
pub(crate) fn shown_refusal_at<G: Grove>(g: &G, p: &Place) -> Option<Reply>
    ensures refusal { result ≡ shown_refusal_at (G.forest g.now) p.now }
    ensures sound { IsSound (G.forest g.now) }
{
    // Asked for what it says: the forest is sound.
    let _ = g.tree(p.tree);
    match refusal_at(g, p) {
        Some(refusal) => Some(refusal),
        None => unless_shown(g, p),
    }
}

fn unless_shown<G: Grove>(g: &G, p: &Place) -> Option<Reply>
    requires { refusal_at (G.forest g.now) p.now ≡ None }
    ensures { result ≡ shown_refusal_at (G.forest g.now) p.now }
{
    if ax_unignored::shown(g, *p) {
        None
    } else {
        Some(Reply::Ignored)
    }
}
