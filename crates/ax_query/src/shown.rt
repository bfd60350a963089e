//! Replies on the shown list, which passes over ignored nodes.
ghost use Rattle.std.specs.Prelude.{◌≡◌, IfOk};
ghost use Rattle.ax_ask.specs.declared.query.Query.TheVariants as queries;
ghost use Rattle.ax_run_rules.specs.Replies.{answer_of};

use crate::neighbours::place_or;
use crate::refusal::shown_refusal_at;
use ax_ask::Reply;
use ax_base::{NoMemory, Place};
use ax_tree::Grove;
use std::alloc::Global;

pub(crate) fn parent<G: Grove>(g: &G, p: &Place) -> Reply
    ensures { result ≡ answer_of (G.forest g.now) (queries.UParent p.now) }
{
    match shown_refusal_at(g, p) {
        Some(refusal) => refusal,
        None => place_or(Reply::NoParent, ax_unignored::parent(g, *p)),
    }
}

pub(crate) fn children<G: Grove>(alloc: Global, g: &G, p: &Place) -> Result<Reply, NoMemory>
    ensures { IfOk result (λ reply. reply ≡ answer_of (G.forest g.now) (queries.UChildren p.now)) }
{
    match shown_refusal_at(g, p) {
        Some(refusal) => Ok(refusal),
        None => {
            let places = ax_unignored::children(alloc, g, *p)?;
            Ok(Reply::Places(places))
        }
    }
}

pub(crate) fn next<G: Grove>(g: &G, p: &Place) -> Reply
    ensures { result ≡ answer_of (G.forest g.now) (queries.UNext p.now) }
{
    match shown_refusal_at(g, p) {
        Some(refusal) => refusal,
        None => place_or(Reply::AtEnd, ax_unignored::next(g, *p)),
    }
}

pub(crate) fn prev<G: Grove>(g: &G, p: &Place) -> Reply
    ensures { result ≡ answer_of (G.forest g.now) (queries.UPrev p.now) }
{
    match shown_refusal_at(g, p) {
        Some(refusal) => refusal,
        None => place_or(Reply::AtStart, ax_unignored::prev(g, *p)),
    }
}

pub(crate) fn text<G: Grove>(alloc: Global, g: &G, p: &Place) -> Result<Reply, NoMemory>
    ensures { IfOk result (λ reply. reply ≡ answer_of (G.forest g.now) (queries.UText p.now)) }
{
    match shown_refusal_at(g, p) {
        Some(refusal) => Ok(refusal),
        None => {
            let text = ax_unignored::text(alloc, g, *p)?;
            Ok(Reply::Text(text))
        }
    }
}
