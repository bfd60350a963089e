//! The line of one item.
ghost use Rattle.std.specs.Prelude.{◌≡◌, ◌+◌, ◌++◌, List, ℕ, [], ◌∷◌, Some, OnOk, IfOk};
ghost use Rattle.ax_ask.specs.declared.op.Item.{Item};
ghost use Rattle.ax_ask.specs.declared.line.Line.{Line};
ghost use Rattle.ax_order_laws.specs.Told.{line_at};
ghost use Rattle.ax_run_rules.specs.LineText.{line_text};
ghost use Rattle.ax_report.specs.Buffers.{Extends};
ghost use Rattle.ax_placed.specs.Placing.{told_of, ArePlaces, AreAt};

use crate::lists::{put_frame, put_next, put_reader};
use crate::told::Told;
use ax_ask::{Item, Line};
use ax_base::NoMemory;
use ax_report::{Bytes, line_text};

/// Appends the line of an item, and gives the place behind the entries' lines.
pub(crate) fn put_item(
    told: &Told,
    places: &[usize],
    frame_at: &mut [usize],
    entry_at: usize,
    reader_at: &mut [usize],
    item: Item,
    out: &mut Bytes,
) -> Result<usize, NoMemory>
    requires { ArePlaces told.now.frames places.now }
    ensures line { IfOk result (λ entry. (before : List Item) (x : Line) → AreAt told.now before frame_at.old entry_at reader_at.old → line_at (told_of told.now) before item ≡ Some x
        → AreAt told.now (before ++ item ∷ []) frame_at.new entry reader_at.new × (out.new.items ≡ out.old.items ++ line_text x)) }
    ensures begins { Extends out.old.items out.new.items }
{
    match item {
        Item::Frame(tree) => {
            put_frame(told.frames.as_slice(), places, frame_at, tree, out)?;
            Ok(entry_at)
        }
        Item::Receive(_) | Item::Browser => put_next(told.entries.as_slice(), entry_at, out),
        Item::Deliver(tree, token) => {
            line_text(&Line::Delivered { tree, token }, out)?;
            Ok(entry_at)
        }
        Item::Reader(number) => {
            put_reader(told.readers.as_slice(), reader_at, number, out)?;
            Ok(entry_at)
        }
    }
}
