//! The text between two positions.
ghost use Rattle.std.specs.Prelude.{◌≡◌, ◌≤◌, ◌++◌, [], Bool, true, nat_le, IfOk, IfErr, ◌⊎◌};
ghost use Rattle.ax_node.specs.Look.{look_of};
ghost use Rattle.ax_rules.specs.Looks.{name_text};
ghost use Rattle.ax_rules.specs.Stitched.{stitched};
ghost use Rattle.ax_rules.specs.Positions.{mark, checked, range_text};
ghost use Rattle.ax_rules.specs.Texts.{start_of};
ghost use Rattle.ax_position.specs.Walks.{folded, rows};
ghost use Rattle.ax_position.specs.Ranks.{of_marks};
ghost use Rattle.ax_position.specs.Ranges.{part, gathered, text_between, is_text};

use crate::gathered::Gathered;
use crate::marked::Marked;
use crate::pairs::marks_of;
use crate::places::{Visitor, walk};
use crate::positions::global;
use crate::starts::counted;
use crate::targets::Within;
use ax_attrs::Key;
use ax_base::{NoMemory, Place, Pos, PosErr, Text};
use ax_node::{NodeData, Value};
use ax_tree::Grove;
use std::alloc::Global;

/// The text between two offsets, as far as it was walked.
#[derive(Debug, Drop)]
pub(crate) struct Between {
    pub(crate) low: usize,
    pub(crate) high: usize,
    pub(crate) at: usize,
    pub(crate) text: Gathered,
}

/// Appends the part of a text that lies between two offsets, where the text starts at `at`.
fn gather(
    low: usize,
    high: usize,
    at: usize,
    text: &Text,
    out: &mut Gathered,
) -> Result<(), NoMemory>
    ensures { IfOk result (λ _. out.new ≡ out.old ++ part low high at text.now) }
{
    let len = text.len();
    let end = high.saturating_sub(at).min(len);
    let start = low.saturating_sub(at).min(end);
    if start == end {
        return Ok(());
    }
    match text.slice(start, end) {
        Ok(part) => out.append(&part),
        Err(_) => Err(NoMemory),
    }
}

/// Appends what lies between two offsets of a leaf's text.
fn gather_name(
    low: usize,
    high: usize,
    at: usize,
    node: &NodeData,
    out: &mut Gathered,
) -> Result<(), NoMemory>
    ensures { IfOk result (λ _. out.new ≡ out.old ++ part low high at (name_text (look_of node.now))) }
{
    match node.attrs.get(Key::NAME) {
        Some(Value::Text(text)) => gather(low, high, at, text, out),
        _ => Ok(()),
    }
}

impl Between {
    /// Whether no part is left.
    fn is_over(&self) -> bool
        ensures { result ≡ nat_le self.now.high self.now.at }
    {
        self.high <= self.at
    }
}

impl Visitor for Between {
    ghost seen = { gathered };

    ghost fails = { λ _. true };

    fn visit(
        &mut self,
        _place: &Place,
        node: &NodeData,
        leaf: bool,
        _within: Within,
    ) -> Result<(), NoMemory> {
        if self.is_over() {
            return Ok(());
        }
        if leaf {
            gather_name(self.low, self.high, self.at, node, &mut self.text)?;
        }
        self.at = counted(leaf, self.at, node);
        Ok(())
    }

    fn is_settled(&self) -> bool {
        self.is_over()
    }
}

/// The document's text from one offset to another.
fn text_between<G: Grove>(
    alloc: Global,
    g: &G,
    first: &Place,
    low: usize,
    high: usize,
) -> Result<Text, NoMemory>
    requires { low ≤ high }
    ensures { IfOk result (λ t. t ≡ text_between (stitched (G.forest g.now)) low high) }
{
    let mut between = Between {
        low,
        high,
        at: 0,
        text: Gathered::new(alloc),
    };
    walk(g, first, &mut between)?;
    let text = between.text.text(alloc)?;
    Ok(text)
}

/// The document's text between the lesser and the greater global offset of two marks.
fn text_of_marks<G: Grove>(
    alloc: Global,
    g: &G,
    one: &Marked,
    other: &Marked,
) -> Result<Text, NoMemory>
    requires one { one.now.start ≡ start_of (stitched (G.forest g.now)) one.now.place }
    requires other { other.now.start ≡ start_of (stitched (G.forest g.now)) other.now.place }
    ensures { IfOk result (λ t. t ≡ range_text (stitched (G.forest g.now)) (mark one.now.place one.now.offset one.now.affinity) (mark other.now.place other.now.offset other.now.affinity)) }
{
    let a = global(one);
    let b = global(other);
    let text = text_between(alloc, g, &one.place, a.min(b), a.max(b))?;
    Ok(text)
}

/// The document's text between the lesser and the greater global offset of two positions. The first position is refused
/// before the second.
pub fn range_text<G: Grove>(alloc: Global, g: &G, p: &Pos, q: &Pos) -> Result<Text, PosErr>
    ensures { is_text result (of_marks (range_text (stitched (G.forest g.now))) (checked (G.forest g.now) p.now) (checked (G.forest g.now) q.now)) }
{
    match marks_of(g, p, q) {
        Err(refusal) => Err(refusal),
        Ok(both) => match text_of_marks(alloc, g, &both.one, &both.other) {
            Ok(text) => Ok(text),
            Err(NoMemory) => Err(PosErr::NoMemory),
        },
    }
}
