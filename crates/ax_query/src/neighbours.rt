//! Replies that name the places around a place, and where it lies in the plane.
ghost use Rattle.std.specs.Prelude.{◌≡◌, IfOk};
ghost use Rattle.ax_ask.specs.declared.query.Query.TheVariants as queries;
ghost use Rattle.ax_run_rules.specs.Replies.{answer_of, place_or};

use crate::refusal::refusal_at;
use ax_ask::Reply;
use ax_base::{NoMemory, Place};
use ax_tree::Grove;
use std::alloc::Global;

/// A place, or the reply where there is none.
pub(crate) fn place_or(none: Reply, found: Option<Place>) -> Reply
    ensures { result ≡ place_or none found }
{
    match found {
        Some(place) => Reply::Place(place),
        None => none,
    }
}

pub(crate) fn parent<G: Grove>(g: &G, p: &Place) -> Reply
    ensures { result ≡ answer_of (G.forest g.now) (queries.Parent p.now) }
{
    match refusal_at(g, p) {
        Some(refusal) => refusal,
        None => place_or(Reply::NoParent, ax_stitch::parent(g, *p)),
    }
}

pub(crate) fn children<G: Grove>(alloc: Global, g: &G, p: &Place) -> Result<Reply, NoMemory>
    ensures { IfOk result (λ reply. reply ≡ answer_of (G.forest g.now) (queries.Children p.now)) }
{
    match refusal_at(g, p) {
        Some(refusal) => Ok(refusal),
        None => {
            let places = ax_stitch::children(alloc, g, *p)?;
            Ok(Reply::Places(places))
        }
    }
}

pub(crate) fn next<G: Grove>(g: &G, p: &Place) -> Reply
    ensures { result ≡ answer_of (G.forest g.now) (queries.Next p.now) }
{
    match refusal_at(g, p) {
        Some(refusal) => refusal,
        None => place_or(Reply::AtEnd, ax_stitch::next(g, *p)),
    }
}

pub(crate) fn prev<G: Grove>(g: &G, p: &Place) -> Reply
    ensures { result ≡ answer_of (G.forest g.now) (queries.Prev p.now) }
{
    match refusal_at(g, p) {
        Some(refusal) => refusal,
        None => place_or(Reply::AtStart, ax_stitch::prev(g, *p)),
    }
}

pub(crate) fn bounds<G: Grove>(g: &G, p: &Place) -> Reply
    ensures { result ≡ answer_of (G.forest g.now) (queries.Bounds p.now) }
{
    match refusal_at(g, p) {
        Some(refusal) => refusal,
        None => {
            let area = ax_stitch::bounds(g, *p);
            Reply::Bounds(area.0, area.1, area.2, area.3)
        }
    }
}
