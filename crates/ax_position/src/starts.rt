//! Where a place starts in the document.
ghost use Rattle.std.specs.Prelude.{◌≡◌, length, false};
ghost use Rattle.ax_node.specs.Look.{look_of};
ghost use Rattle.ax_rules.specs.Looks.{name_text, same_place};
ghost use Rattle.ax_position.specs.Walks.{row};
ghost use Rattle.ax_position.specs.Surveys.{counted, started};

use ax_attrs::Key;
use ax_base::Place;
use ax_node::{NodeData, Value};

/// How many scalars a node's name has.
pub(crate) fn name_len(node: &NodeData) -> usize
    ensures { result ≡ length (name_text (look_of node.now)) }
{
    match node.attrs.get(Key::NAME) {
        Some(Value::Text(text)) => text.len(),
        _ => 0,
    }
}

/// A length with that of a node's name more, where that counts. It stands at the last value where it would pass that.
pub(crate) fn counted(counts: bool, n: usize, node: &NodeData) -> usize
    ensures { result ≡ counted counts n (name_text (look_of node.now)) }
{
    if counts {
        n.saturating_add(name_len(node))
    } else {
        n
    }
}

pub(crate) fn same_place(p: &Place, q: &Place) -> bool
    ensures { result ≡ same_place p.now q.now }
{
    p.tree == q.tree && p.node == q.node
}

/// Where a place starts: the scalars of the leaves before it, as far as it wasn't met.
#[derive(Clone, Copy, Debug)]
pub(crate) struct Start {
    pub(crate) target: Place,
    pub(crate) met: bool,
    pub(crate) start: usize,
}

impl Start {
    pub(crate) fn new(target: Place) -> Start
        ensures { result ≡ record { target = target; met = false; start = 0 } }
    {
        Start {
            target,
            met: false,
            start: 0,
        }
    }

    /// Sees a place with its node.
    pub(crate) fn see(&mut self, place: &Place, node: &NodeData, leaf: bool, within: bool)
        ensures { self.new ≡ started self.old (row place.now (look_of node.now) leaf within) }
    {
        self.met = self.met || same_place(place, &self.target);
        self.start = counted(leaf && !self.met, self.start, node);
    }
}
