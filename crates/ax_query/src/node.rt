//! The reply that tells a node's role, and how many children its place has.
ghost use Rattle.std.specs.Prelude.{◌≡◌, ◌+◌, length, option_to_list};
ghost use Rattle.ax_ask.specs.declared.query.Query.TheVariants as queries;
ghost use Rattle.ax_run_rules.specs.Replies.{answer_of};
ghost use Rattle.ax_query.specs.Refusals.{refusal_at};

use crate::refusal::refusal_at;
use ax_ask::Reply;
use ax_base::{NodeId, Place};
use ax_stitch::{LEVELS, hung_root, levels_below};
use ax_tree::{Grove, TreeView};

/// How many children a place has: its node's own, and the root of the tree that hangs there.
fn child_count(own: &[NodeId], hung: Option<Place>) -> usize
    ensures { result ≡ length own.now + length (option_to_list hung) }
{
    match hung {
        Some(_) => own.len() + 1,
        None => own.len(),
    }
}

/// The reply at a place of the list.
fn node_there<G: Grove>(g: &G, p: &Place) -> Reply
    requires { refusal_at (G.forest g.now) p.now ≡ None }
    ensures { result ≡ answer_of (G.forest g.now) (queries.Node p.now) }
{
    let below = levels_below(g, p.tree, LEVELS).unwrap();
    let hung = hung_root(g, p, below);
    let view = g.tree(p.tree).unwrap();
    let node = view.node(p.node).unwrap();
    Reply::Node(node.role, child_count(node.children.as_slice(), hung))
}

pub(crate) fn node<G: Grove>(g: &G, p: &Place) -> Reply
    ensures { result ≡ answer_of (G.forest g.now) (queries.Node p.now) }
{
    match refusal_at(g, p) {
        Some(refusal) => refusal,
        None => node_there(g, p),
    }
}
