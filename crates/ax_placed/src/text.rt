//! The text of a whole order.
ghost use Rattle.std.specs.Prelude.{◌≡◌, ◌++◌, List, [], Some, OnOk, OnErr};
ghost use Rattle.ax_trees.specs.Lists.{NoneTwice};
ghost use Rattle.ax_ask.specs.declared.line.Line.{Line};
ghost use Rattle.ax_order_laws.specs.Told.{placed};
ghost use Rattle.ax_run_rules.specs.LineText.{lines_text};
ghost use Rattle.ax_report.specs.Buffers.{Extends};
ghost use Rattle.ax_placed.specs.Placing.{trees_of, told_of};

use crate::item::put_item;
use crate::lists::{places_of, zeros};
use crate::told::Told;
use ax_ask::Item;
use ax_base::NoMemory;
use ax_report::Bytes;
use std::alloc::Global;

fn put_items(alloc: Global, told: &Told, order: &[Item], out: &mut Bytes) -> Result<(), NoMemory>
    requires { NoneTwice (trees_of told.now.frames) }
    ensures lines { OnOk result ((ls : List Line) → placed (told_of told.now) [] order.now ≡ Some ls → out.new.items ≡ out.old.items ++ lines_text ls) }
    ensures begins { Extends out.old.items out.new.items }
{
    let places = places_of(alloc, told.frames.as_slice())?;
    let mut frame_at = zeros(alloc, told.frames.len())?;
    let mut reader_at = zeros(alloc, told.readers.len())?;
    let mut entry_at = 0;
    for item in order {
        entry_at = put_item(
            told,
            &places,
            &mut frame_at,
            entry_at,
            &mut reader_at,
            *item,
            out,
        )?;
    }
    Ok(())
}

/// Appends the lines of an order's items, each the next one of its list. Where a list has no such line, nothing is said of
/// the text.
pub fn placed_text(told: &Told, order: &[Item], out: &mut Bytes) -> Result<(), NoMemory>
    requires { NoneTwice (trees_of told.now.frames) }
    ensures lines { OnOk result ((ls : List Line) → placed (told_of told.now) [] order.now ≡ Some ls → out.new.items ≡ out.old.items ++ lines_text ls) }
    ensures unchanged { OnErr result (out.new.items ≡ out.old.items) }
{
    let alloc = *out.allocator();
    let before = out.len();
    match put_items(alloc, told, order, out) {
        Ok(()) => Ok(()),
        Err(_) => {
            out.truncate(before);
            Err(NoMemory)
        }
    }
}
