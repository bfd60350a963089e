//! Replies on positions, and on the texts between two.
ghost use Rattle.std.specs.Prelude.{◌≡◌, IfOk};
ghost use Rattle.ax_base.specs.declared.position.PosErr.TheVariants as refusals;
ghost use Rattle.ax_ask.specs.declared.query.Query.TheVariants as queries;
ghost use Rattle.ax_run_rules.specs.Replies.{answer_of, pos_or, refusal_reply};

use ax_ask::Reply;
use ax_base::{NoMemory, Pos, PosErr};
use ax_tree::Grove;
use std::alloc::Global;

/// The reply that names why a position is refused. The rule refuses none for want of memory; what it says there is never
/// told.
pub(crate) fn refusal_reply(refusal: PosErr) -> Reply
    ensures { result ≡ refusal_reply refusal }
{
    match refusal {
        PosErr::NoTree => Reply::NoTree,
        PosErr::NoNode => Reply::NoNode,
        PosErr::BadIndex(child, count) => Reply::BadIndex(child, count),
        PosErr::BadOffset(offset, len) => Reply::BadOffset(offset, len),
        PosErr::NoMemory => Reply::NoNode,
    }
}

pub(crate) fn offset<G: Grove>(g: &G, at: &Pos) -> Reply
    ensures { result ≡ answer_of (G.forest g.now) (queries.Offset at.now) }
{
    match ax_position::offset(g, at) {
        Ok(offset) => Reply::Offset(offset),
        Err(refusal) => refusal_reply(refusal),
    }
}

pub(crate) fn leaf<G: Grove>(g: &G, at: &Pos) -> Reply
    ensures { result ≡ answer_of (G.forest g.now) (queries.Leaf at.now) }
{
    match ax_position::leaf(g, at) {
        Ok(form) => Reply::Pos(form),
        Err(refusal) => refusal_reply(refusal),
    }
}

/// A position, or the reply where there is none.
pub(crate) fn pos_or(none: Reply, found: Option<Pos>) -> Reply
    ensures { result ≡ pos_or none found }
{
    match found {
        Some(pos) => Reply::Pos(pos),
        None => none,
    }
}

pub(crate) fn up<G: Grove>(g: &G, at: &Pos) -> Reply
    ensures { result ≡ answer_of (G.forest g.now) (queries.Up at.now) }
{
    match ax_position::up(g, at) {
        Ok(form) => pos_or(Reply::NoParent, form),
        Err(refusal) => refusal_reply(refusal),
    }
}

pub(crate) fn compare<G: Grove>(g: &G, at: &Pos, to: &Pos) -> Reply
    ensures { result ≡ answer_of (G.forest g.now) (queries.Compare at.now to.now) }
{
    match ax_position::compare(g, at, to) {
        Ok(order) => Reply::Order(order),
        Err(refusal) => refusal_reply(refusal),
    }
}

/// The reply that names why a text is refused, or want of memory.
fn text_refusal(refusal: PosErr) -> Result<Reply, NoMemory>
    ensures { IfOk result (λ reply. (reply ≡ refusal_reply refusal) × (refusal ≡ refusals.NoMemory → ⊥)) }
{
    match refusal {
        PosErr::NoMemory => Err(NoMemory),
        _ => Ok(refusal_reply(refusal)),
    }
}

pub(crate) fn text<G: Grove>(alloc: Global, g: &G, at: &Pos, to: &Pos) -> Result<Reply, NoMemory>
    ensures { IfOk result (λ reply. reply ≡ answer_of (G.forest g.now) (queries.Text at.now to.now)) }
{
    match ax_position::range_text(alloc, g, at, to) {
        Ok(text) => Ok(Reply::Text(text)),
        Err(refusal) => text_refusal(refusal),
    }
}
