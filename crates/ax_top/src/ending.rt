//! What the text of a run ends with.
ghost use Rattle.std.specs.Prelude.{◌≡◌, ◌++◌, IfOk, OnOk};
ghost use Rattle.ax_run_rules.specs.CombineText.{combined_after};
ghost use Rattle.ax_core.specs.Standing.{at};
ghost use Rattle.ax_top.specs.Endings.{ending_text};

use crate::running::put;
use ax_base::NoMemory;
use ax_combine::combine;
use ax_core::Core;
use ax_report::{Bytes, combined_text};
use std::alloc::Global;

/// What stands at the end of the text.
#[derive(Clone, Copy)]
pub(crate) enum Ending {
    /// The dump.
    Dump,
    /// The combined tree, behind the dump.
    Combined,
}

/// Appends the combined tree of what stands after the finale.
fn put_combined(alloc: Global, core: &Core, out: &mut Bytes) -> Result<(), NoMemory>
    ensures { OnOk result (out.new.items ≡ out.old.items ++ combined_after (at core.now)) }
{
    let combined = combine(alloc, core.forest())?;
    put(out, "combined\n")?;
    combined_text(&combined, out)
}

/// The text of a run up to the dump, with its ending.
pub(crate) fn with_ending(
    alloc: Global,
    ending: Ending,
    core: &Core,
    mut text: Bytes,
) -> Result<Bytes, NoMemory>
    ensures { IfOk result (λ whole. whole.items ≡ text.items ++ ending_text ending core.now) }
{
    match ending {
        Ending::Dump => Ok(text),
        Ending::Combined => {
            put_combined(alloc, core, &mut text)?;
            Ok(text)
        }
    }
}
