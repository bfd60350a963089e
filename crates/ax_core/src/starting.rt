//! What a script gives a run.
ghost use Rattle.std.specs.Prelude.{◌≡◌, map, IfOk};
ghost use Rattle.ax_script.specs.declared.script.FrameScript.{FrameScript as Read};
ghost use Rattle.ax_core.specs.Starting.{first_frame};

use crate::queue::Queue;
use crate::reading::Reader;
use crate::seat::Seat;
use ax_base::{NoMemory, Seq, TreeId};
use ax_script::{FrameScript, FrameScripts, ReaderScripts};
use std::alloc::Global;

/// The trees of a script in their order.
pub(crate) fn trees_of(alloc: Global, frames: &[FrameScript]) -> Result<Seq<TreeId>, NoMemory>
    ensures { IfOk result (λ trees. trees ≡ map (λ (f : Read). f.tree) frames.now) }
{
    let mut trees = Seq::new(alloc);
    for frame in frames {
        trees.push(frame.tree)?;
    }
    Ok(trees)
}

/// Frames that have done nothing.
pub(crate) fn seats_of(alloc: Global, frames: FrameScripts) -> Result<Vec<Seat>, NoMemory>
    ensures { IfOk result (λ seats. seats.items ≡ map first_frame frames) }
{
    let mut seats = Vec::new(alloc);
    for frame in frames.into_vec() {
        seats.push(Seat::new(alloc, frame.tree, frame.ops))?;
    }
    Ok(seats)
}

/// Readers that have asked nothing.
pub(crate) fn readers_of(alloc: Global, scripts: ReaderScripts) -> Result<Vec<Reader>, NoMemory>
    ensures { IfOk result (λ readers. readers.items ≡ scripts) }
{
    let mut readers = Vec::new(alloc);
    for queries in scripts.into_vec() {
        readers.push(Queue::of(queries))?;
    }
    Ok(readers)
}
