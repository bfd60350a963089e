//! The reply to a query.
ghost use Rattle.std.specs.Prelude.{◌≡◌, IfOk, IfErr, true};
ghost use Rattle.ax_ask.specs.declared.query.Query.TheVariants as queries;
ghost use Rattle.ax_run_rules.specs.Replies.{answer_of};
ghost use Rattle.ax_query.specs.Memory.{takes_memory};

use crate::neighbours::place_or;
use crate::node::node;
use crate::{moves, neighbours, positions, shown};
use ax_ask::{Query, Reply};
use ax_base::{NoMemory, Point};
use ax_tree::Grove;
use std::alloc::Global;

#[tactic(auto, unfolding(ax_run_rules::specs::Replies::answer_of))]
fn hit<G: Grove>(g: &G, at: Point) -> Reply
    ensures { result ≡ answer_of (G.forest g.now) (queries.Hit at) }
{
    place_or(Reply::NoHit, ax_hit::hit(g, at))
}

#[tactic(auto, unfolding(ax_run_rules::specs::Replies::answer_of))]
fn focus<G: Grove>(g: &G) -> Reply
    ensures { result ≡ answer_of (G.forest g.now) queries.Focus }
{
    place_or(Reply::NoFocus, ax_focus::focus(g))
}

/// The reply to a query, or its refusal: docs/FORMATS.md tells of both.
///
/// The places around a place, its bounds and the focus cost the depth of a place, which is 8 × 256 at most, and finding a
/// child among its siblings; a list of children costs its length besides. On the shown list the ignored nodes that are
/// passed over are added, and a text costs what stands below its place. A hit costs the nodes that it visits. A position, a
/// text between two and a move cost walks over the places, up to where the answer is settled, and their scalars.
pub fn answer<G: Grove>(alloc: Global, g: &G, query: &Query) -> Result<Reply, NoMemory>
    ensures reply { IfOk result (λ reply. reply ≡ answer_of (G.forest g.now) query.now) }
    ensures memory { IfErr result (λ _. takes_memory query.now ≡ true) }
{
    match query {
        Query::Node(p) => Ok(node(g, p)),
        Query::Parent(p) => Ok(neighbours::parent(g, p)),
        Query::Children(p) => neighbours::children(alloc, g, p),
        Query::Next(p) => Ok(neighbours::next(g, p)),
        Query::Prev(p) => Ok(neighbours::prev(g, p)),
        Query::Bounds(p) => Ok(neighbours::bounds(g, p)),
        Query::UParent(p) => Ok(shown::parent(g, p)),
        Query::UChildren(p) => shown::children(alloc, g, p),
        Query::UNext(p) => Ok(shown::next(g, p)),
        Query::UPrev(p) => Ok(shown::prev(g, p)),
        Query::UText(p) => shown::text(alloc, g, p),
        Query::Hit(at) => Ok(hit(g, *at)),
        Query::Focus => Ok(focus(g)),
        Query::Offset(at) => Ok(positions::offset(g, at)),
        Query::Leaf(at) => Ok(positions::leaf(g, at)),
        Query::Up(at) => Ok(positions::up(g, at)),
        Query::Compare(at, to) => Ok(positions::compare(g, at, to)),
        Query::Text(at, to) => positions::text(alloc, g, at, to),
        Query::Move(at, unit, way) => moves::moved(g, at, *unit, *way),
    }
}
