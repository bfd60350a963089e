//! The nearest bound below an offset.
ghost use Rattle.std.specs.Prelude.{◌≡◌, None, IfOk, IfErr, nat_le, nat_lt, true, filter, [], ◌∷◌};
ghost use Rattle.ax_node.specs.Look.{look_of};
ghost use Rattle.ax_rules.specs.Sequences.{first_of, last_of};
ghost use Rattle.ax_rules.specs.Looks.{name_text};
ghost use Rattle.ax_rules.specs.Stitched.{stitched};
ghost use Rattle.ax_rules.specs.Moves.{bound_before};
ghost use Rattle.ax_moves.specs.Bounds.{bounds_from, held_text, is_below, last_held, moved, searched_below, takes_memory, text_held};

use crate::lists::last_below;
use crate::names::{first_bound, listed, name_len};
use ax_attrs::Key;
use ax_base::{NoMemory, Place, Text, Unit};
use ax_node::{NodeData, Value};
use ax_position::{Visitor, Within, walk};
use ax_stitch::root;
use ax_tree::Grove;

/// A leaf that has a bound below the offset: where it starts, and its text, where that is to be parted.
#[derive(Debug, Drop)]
pub(crate) struct Held {
    pub(crate) start: usize,
    pub(crate) text: Option<Text>,
}

/// The search of the last leaf that has a bound below an offset.
#[derive(Debug, Drop)]
pub(crate) struct Below {
    pub(crate) unit: Unit,
    pub(crate) offset: usize,
    pub(crate) at: usize,
    pub(crate) found: Option<Held>,
}

/// Whether the first bound of a node's name, which starts at `start`, is below an offset.
fn is_below(unit: &Unit, node: &NodeData, start: usize, offset: usize) -> bool
    ensures { result ≡ is_below offset (first_of (bounds_from unit.now start (name_text (look_of node.now)))) }
{
    match first_bound(unit, node) {
        Some(bound) => start.saturating_add(bound) < offset,
        None => false,
    }
}

/// A node's name, where it is to be parted: one more owner of the same text.
fn held_text(unit: &Unit, node: &NodeData) -> Result<Option<Text>, NoMemory>
    ensures text { IfOk result (λ text. text ≡ held_text unit.now (name_text (look_of node.now))) }
    ensures err { IfErr result (λ _. takes_memory unit.now ≡ true) }
{
    match unit {
        Unit::Leaf => Ok(None),
        _ => held_name(node),
    }
}

/// A node's name, where it isn't empty.
fn held_name(node: &NodeData) -> Result<Option<Text>, NoMemory>
    ensures { IfOk result (λ text. text ≡ held_text Unit.Char (name_text (look_of node.now))) }
{
    match node.attrs.get(Key::NAME) {
        Some(Value::Text(text)) => {
            if text.is_empty() {
                Ok(None)
            } else {
                Ok(Some(text.copy()?))
            }
        }
        _ => Ok(None),
    }
}

impl Below {
    /// Whether each leaf behind starts from the offset on.
    fn is_over(&self) -> bool
        ensures { result ≡ nat_le self.now.offset self.now.at }
    {
        self.offset <= self.at
    }
}

impl Visitor for Below {
    ghost seen = { searched_below };

    ghost fails = { λ s. takes_memory s.unit };

    fn visit(
        &mut self,
        _place: &Place,
        node: &NodeData,
        leaf: bool,
        _within: Within,
    ) -> Result<(), NoMemory> {
        if self.is_over() || !leaf {
            return Ok(());
        }
        let start = self.at;
        self.at = start.saturating_add(name_len(node));
        if !is_below(&self.unit, node, start, self.offset) {
            return Ok(());
        }
        let text = held_text(&self.unit, node)?;
        self.found = Some(Held { start, text });
        Ok(())
    }

    fn is_settled(&self) -> bool {
        self.is_over()
    }
}

/// The start of a text, where it is below an offset.
fn start_below(start: usize, offset: usize) -> Option<usize>
    ensures { result ≡ last_of (filter (λ b. nat_lt b offset) (moved start (0 ∷ []))) }
{
    if start < offset { Some(start) } else { None }
}

/// The last bound below an offset of a leaf without a text that is to be parted.
fn last_of_empty(unit: &Unit, start: usize, offset: usize) -> Option<usize>
    ensures { result ≡ last_held unit.now offset (record { start = start; text = None }) }
{
    match unit {
        Unit::Word => None,
        _ => start_below(start, offset),
    }
}

/// The last bound below an offset of the leaf that is held.
fn last_held(unit: &Unit, held: &Held, offset: usize) -> Result<Option<usize>, NoMemory>
    requires { held.now.text ≡ held_text unit.now (text_held held.now.text) }
    ensures bound { IfOk result (λ b. b ≡ last_held unit.now offset held.now) }
    ensures err { IfErr result (λ _. takes_memory unit.now ≡ true) }
{
    match &held.text {
        Some(text) => {
            let bounds = listed(unit, text)?;
            Ok(last_below(bounds.as_slice(), held.start, offset))
        }
        None => Ok(last_of_empty(unit, held.start, offset)),
    }
}

/// The greatest bound below a global offset, in scalars. There is none exactly where the rule of moves has none. By
/// leaves it takes no memory.
pub fn before<G: Grove>(g: &G, unit: Unit, offset: usize) -> Result<Option<usize>, NoMemory>
    ensures bound { IfOk result (λ b. b ≡ bound_before (stitched (G.forest g.now)) unit offset) }
    ensures by_leaf { IfErr result (λ _. takes_memory unit ≡ true) }
{
    let first = match root(g) {
        Some(first) => first,
        None => return Ok(None),
    };
    let mut below = Below {
        unit,
        offset,
        at: 0,
        found: None,
    };
    walk(g, &first, &mut below)?;
    match &below.found {
        Some(held) => last_held(&unit, held, offset),
        None => Ok(None),
    }
}
