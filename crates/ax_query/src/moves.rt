//! Replies on moves.
ghost use Rattle.std.specs.Prelude.{◌≡◌, IfOk, IfErr, true};
ghost use Rattle.ax_ask.specs.declared.query.Query.TheVariants as queries;
ghost use Rattle.ax_rules.specs.Stitched.{stitched};
ghost use Rattle.ax_rules.specs.Moves.{bound_of};
ghost use Rattle.ax_run_rules.specs.Replies.{answer_of, at_end, pos_or};
ghost use Rattle.ax_moves.specs.Bounds.{takes_memory};
ghost use Rattle.ax_query.specs.Moved.{moved_to};

use crate::positions::{pos_or, refusal_reply};
use ax_ask::Reply;
use ax_base::{NoMemory, Pos, Unit, Way};
use ax_tree::Grove;

/// The reply where a move finds no bound.
fn at_end(way: Way) -> Reply
    ensures { result ≡ at_end way }
{
    match way {
        Way::Next => Reply::AtEnd,
        Way::Prev => Reply::AtStart,
    }
}

/// The nearest bound on a side of a global offset.
fn bound_of<G: Grove>(g: &G, unit: Unit, way: Way, offset: usize) -> Result<Option<usize>, NoMemory>
    ensures bound { IfOk result (λ bound. bound ≡ bound_of (stitched (G.forest g.now)) unit way offset) }
    ensures by_leaf { IfErr result (λ _. takes_memory unit ≡ true) }
{
    match way {
        Way::Next => ax_moves::after(g, unit, offset),
        Way::Prev => ax_moves::before(g, unit, offset),
    }
}

/// The reply of a move from a global offset.
fn moved_from<G: Grove>(g: &G, unit: Unit, way: Way, offset: usize) -> Result<Reply, NoMemory>
    ensures reply { IfOk result (λ reply. reply ≡ pos_or (at_end way) (moved_to (stitched (G.forest g.now)) unit way offset)) }
    ensures by_leaf { IfErr result (λ _. takes_memory unit ≡ true) }
{
    let found = bound_of(g, unit, way, offset)?;
    match found {
        Some(bound) => Ok(pos_or(at_end(way), ax_position::leaf_at(g, bound))),
        None => Ok(at_end(way)),
    }
}

pub(crate) fn moved<G: Grove>(g: &G, at: &Pos, unit: Unit, way: Way) -> Result<Reply, NoMemory>
    ensures reply { IfOk result (λ reply. reply ≡ answer_of (G.forest g.now) (queries.Move at.now unit way)) }
    ensures by_leaf { IfErr result (λ _. takes_memory unit ≡ true) }
{
    match ax_position::offset(g, at) {
        Ok(offset) => moved_from(g, unit, way, offset),
        Err(refusal) => Ok(refusal_reply(refusal)),
    }
}
