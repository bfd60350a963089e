//! The name of a leaf: how long it is, and its bounds.
ghost use Rattle.std.specs.Prelude.{◌≡◌, IfOk, true, length};
ghost use Rattle.std.proofs.Math.Utf8.{scalars};
ghost use Rattle.ax_base.specs.TextBounds.{word_starts};
ghost use Rattle.ax_node.specs.Look.{look_of};
ghost use Rattle.ax_rules.specs.Sequences.{first_of};
ghost use Rattle.ax_rules.specs.Looks.{name_text};
ghost use Rattle.ax_rules.specs.Moves.{bounds_within};
ghost use Rattle.ax_moves.specs.Bounds.{listed};

use crate::words::first_word;
use ax_attrs::Key;
use ax_base::{NoMemory, Offsets, Text, Unit};
use ax_node::{NodeData, Value};

/// How many scalars a node's name has.
pub(crate) fn name_len(node: &NodeData) -> usize
    ensures len { result ≡ length (name_text (look_of node.now)) }
    ensures text { scalars (name_text (look_of node.now)) ≡ true }
{
    match node.attrs.get(Key::NAME) {
        Some(Value::Text(text)) => text_len(text),
        _ => 0,
    }
}

/// How many scalars a text has. They are Unicode scalar values.
fn text_len(text: &Text) -> usize
    ensures len { result ≡ length text.now }
    ensures text { scalars text.now ≡ true }
{
    let _ = text.as_str();
    text.len()
}

/// The bounds of a text by words, or else by characters.
pub(crate) fn listed(unit: &Unit, text: &Text) -> Result<Offsets, NoMemory>
    ensures { IfOk result (λ bounds. bounds ≡ listed unit.now text.now) }
{
    match unit {
        Unit::Word => text.word_starts(),
        _ => text.grapheme_bounds(),
    }
}

/// The first bound of a node's name. By words there is none where it has none, and otherwise it is 0. No list is made.
pub(crate) fn first_bound(unit: &Unit, node: &NodeData) -> Option<usize>
    ensures { result ≡ first_of (bounds_within unit.now (name_text (look_of node.now))) }
{
    match unit {
        Unit::Word => first_of_name(node),
        _ => Some(0),
    }
}

/// Where the first word of a text starts.
fn first_word_of(text: &Text) -> Option<usize>
    ensures { result ≡ first_of (word_starts text.now) }
{
    first_word(text.as_str())
}

/// Where the first word of a node's name starts.
fn first_of_name(node: &NodeData) -> Option<usize>
    ensures { result ≡ first_of (word_starts (name_text (look_of node.now))) }
{
    match node.attrs.get(Key::NAME) {
        Some(Value::Text(text)) => first_word_of(text),
        _ => None,
    }
}
