//! The nearest bound above an offset.
ghost use Rattle.std.specs.Prelude.{◌≡◌, ◌+◌, ◌<◌, IfOk, IfErr, find, nat_lt, length, true, is_some};
ghost use Rattle.std.proofs.Math.Utf8.{scalars};
ghost use Rattle.ax_node.specs.Look.{look_of};
ghost use Rattle.ax_rules.specs.Sequences.{first_of};
ghost use Rattle.ax_rules.specs.Looks.{name_text};
ghost use Rattle.ax_rules.specs.Stitched.{stitched};
ghost use Rattle.ax_rules.specs.Texts.{capped};
ghost use Rattle.ax_rules.specs.Moves.{bound_after};
ghost use Rattle.ax_moves.specs.Bounds.{bounds_from, listed, moved, searched_above, takes_memory};

use crate::lists::first_above;
use crate::names::{first_bound, listed, name_len};
use ax_attrs::Key;
use ax_base::{NoMemory, Place, Unit};
use ax_node::{NodeData, Value};
use ax_position::{Visitor, Within, walk};
use ax_stitch::root;
use ax_tree::Grove;

/// The search of the least bound above an offset.
#[derive(Clone, Copy, Debug)]
pub(crate) struct Above {
    pub(crate) unit: Unit,
    pub(crate) offset: usize,
    pub(crate) at: usize,
    pub(crate) found: Option<usize>,
}

/// The first bound above an offset of a node's name, which starts at `start`, from the list of its bounds.
fn bound_listed(
    unit: &Unit,
    node: &NodeData,
    start: usize,
    offset: usize,
) -> Result<Option<usize>, NoMemory>
    requires { 0 < length (name_text (look_of node.now)) }
    ensures { IfOk result (λ b. b ≡ find (nat_lt offset) (moved start (listed unit.now (name_text (look_of node.now))))) }
{
    match node.attrs.get(Key::NAME) {
        Some(Value::Text(text)) => {
            let bounds = listed(unit, text)?;
            Ok(first_above(bounds.as_slice(), start, offset))
        }
        _ => Ok(None),
    }
}

/// The first bound of a node's name, which starts at `start`.
fn first_from(unit: &Unit, node: &NodeData, start: usize) -> Option<usize>
    ensures { result ≡ first_of (bounds_from unit.now start (name_text (look_of node.now))) }
{
    match first_bound(unit, node) {
        Some(bound) => Some(start.saturating_add(bound)),
        None => None,
    }
}

/// The first bound above an offset of a node's name, which starts at `start` and ends at `end`.
fn bound_of(
    unit: &Unit,
    node: &NodeData,
    start: usize,
    end: usize,
    offset: usize,
) -> Result<Option<usize>, NoMemory>
    requires end { end ≡ capped (start + length (name_text (look_of node.now))) }
    requires text { scalars (name_text (look_of node.now)) ≡ true }
    ensures bound { IfOk result (λ b. b ≡ find (nat_lt offset) (bounds_from unit.now start (name_text (look_of node.now)))) }
    ensures err { IfErr result (λ _. takes_memory unit.now ≡ true) }
{
    if start > offset {
        return Ok(first_from(unit, node, start));
    }
    if end <= offset {
        return Ok(None);
    }
    match unit {
        Unit::Leaf => Ok(None),
        _ => bound_listed(unit, node, start, offset),
    }
}

impl Above {
    fn is_over(&self) -> bool
        ensures { result ≡ is_some self.now.found }
    {
        self.found.is_some()
    }
}

impl Visitor for Above {
    ghost seen = { searched_above };

    ghost fails = { λ s. takes_memory s.unit };

    fn visit(
        &mut self,
        _place: &Place,
        node: &NodeData,
        leaf: bool,
        _within: Within,
    ) -> Result<(), NoMemory> {
        if self.is_over() || !leaf {
            return Ok(());
        }
        let start = self.at;
        let end = start.saturating_add(name_len(node));
        let found = bound_of(&self.unit, node, start, end, self.offset)?;
        self.at = end;
        self.found = found;
        Ok(())
    }

    fn is_settled(&self) -> bool {
        self.is_over()
    }
}

/// The least bound above a global offset, in scalars. There is none exactly where the rule of moves has none. By leaves
/// it takes no memory.
pub fn after<G: Grove>(g: &G, unit: Unit, offset: usize) -> Result<Option<usize>, NoMemory>
    ensures bound { IfOk result (λ b. b ≡ bound_after (stitched (G.forest g.now)) unit offset) }
    ensures by_leaf { IfErr result (λ _. takes_memory unit ≡ true) }
{
    let first = match root(g) {
        Some(first) => first,
        None => return Ok(None),
    };
    let mut above = Above {
        unit,
        offset,
        at: 0,
        found: None,
    };
    walk(g, &first, &mut above)?;
    Ok(above.found)
}
