//! The next line of a frame and of a reader.
ghost use Rattle.std.specs.Prelude.{◌≡◌, ◌+◌, ◌++◌, ℕ, Some, replicate, slice_get, slice_set, suc, IfOk, OnOk};
ghost use Rattle.ax_trees.specs.Lists.{NoneTwice};
ghost use Rattle.ax_ask.specs.declared.line.Line.{Line};
ghost use Rattle.ax_run_rules.specs.LineText.{line_text};
ghost use Rattle.ax_report.specs.Buffers.{Extends};
ghost use Rattle.ax_placed.specs.Placing.{trees_of, ArePlaces, FrameGoesOn, ReaderGoesOn};

use crate::told::FrameTold;
use ax_ask::{Line, Lines};
use ax_base::{NoMemory, TreeId};
use ax_report::{Bytes, line_text};
use std::alloc::Global;

pub(crate) fn zeros(alloc: Global, count: usize) -> Result<Vec<usize>, NoMemory>
    ensures { IfOk result (λ zeros. zeros.items ≡ replicate count 0) }
{
    match vec![in alloc; 0usize; count] {
        Ok(zeros) => Ok(zeros),
        Err(_) => Err(NoMemory),
    }
}

/// The place of each tree's frame, by the tree's number.
pub(crate) fn places_of(alloc: Global, frames: &[FrameTold]) -> Result<Vec<usize>, NoMemory>
    requires { NoneTwice (trees_of frames.now) }
    ensures { IfOk result (λ places. ArePlaces frames.now places.items) }
{
    let mut places = zeros(alloc, 1001)?;
    for i in 0..frames.len() {
        let frame = &frames[i];
        places[frame.tree.get() as usize] = i;
    }
    Ok(places)
}

/// Appends the line at this place of a list, and gives the place behind it.
pub(crate) fn put_next(lines: &[Line], at: usize, out: &mut Bytes) -> Result<usize, NoMemory>
    ensures line { IfOk result (λ next. (x : Line) → slice_get lines.now at ≡ Some x → (next ≡ at + 1) × (out.new.items ≡ out.old.items ++ line_text x)) }
    ensures begins { Extends out.old.items out.new.items }
{
    match lines.get(at) {
        Some(line) => {
            line_text(line, out)?;
            Ok(at + 1)
        }
        None => Ok(at),
    }
}

/// Appends the next line of a tree's frame.
pub(crate) fn put_frame(
    frames: &[FrameTold],
    places: &[usize],
    frame_at: &mut [usize],
    tree: TreeId,
    out: &mut Bytes,
) -> Result<(), NoMemory>
    ensures line { OnOk result ((n : FrameGoesOn frames.now places.now frame_at.old tree) → (frame_at.new ≡ slice_set frame_at.old n.place (n.at + 1)) × (out.new.items ≡ out.old.items ++ line_text n.line)) }
    ensures begins { Extends out.old.items out.new.items }
{
    let place = match places.get(tree.get() as usize) {
        Some(place) => *place,
        None => return Ok(()),
    };
    let frame = match frames.get(place) {
        Some(frame) => frame,
        None => return Ok(()),
    };
    let at = match frame_at.get(place) {
        Some(at) => *at,
        None => return Ok(()),
    };
    frame_at[place] = put_next(frame.lines.as_slice(), at, out)?;
    Ok(())
}

/// Appends the next line of a reader.
pub(crate) fn put_reader(
    readers: &[Lines],
    reader_at: &mut [usize],
    number: usize,
    out: &mut Bytes,
) -> Result<(), NoMemory>
    ensures line { OnOk result ((n : ReaderGoesOn readers.now reader_at.old number) → (reader_at.new ≡ slice_set reader_at.old n.place (n.at + 1)) × (out.new.items ≡ out.old.items ++ line_text n.line)) }
    ensures begins { Extends out.old.items out.new.items }
{
    if number == 0 {
        return Ok(());
    }
    let place = number - 1;
    let lines = match readers.get(place) {
        Some(lines) => lines,
        None => return Ok(()),
    };
    let at = match reader_at.get(place) {
        Some(at) => *at,
        None => return Ok(()),
    };
    reader_at[place] = put_next(lines.as_slice(), at, out)?;
    Ok(())
}
