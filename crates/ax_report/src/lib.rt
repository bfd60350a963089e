//! The printed text: the line of each step, the dump of a forest, an order and the combined tree.
//!
//! Each call appends exactly the bytes that the definitions of `ax_rules` and of this crate's `specs/` give, by which
//! docs/FORMATS.md tells of them, and costs what it appends. Where there is no memory, the buffer is left as it was.
#![tactic(auto, using(crate::proofs::BufferLemmas::begins))]

mod combined;
mod dump;
mod line;
mod names;
mod node;
mod order;
mod put;
mod reply;
mod results;

ghost use Rattle.std.specs.Prelude.{◌≡◌, ◌++◌, OnOk, OnErr, IsOk, IsErr, take, option_to_list};
ghost use Rattle.std.specs.List.{flat_map};
ghost use Rattle.ax_tree.specs.Forest.{Forest, first_tree};
ghost use Rattle.ax_run_rules.specs.LineText.{line_text};
ghost use Rattle.ax_run_rules.specs.CombineText.{combined_text};
ghost use Rattle.ax_run_rules.specs.ReplayText.{order_text};
ghost use Rattle.ax_run_rules.specs.Dump.{dump_text};
ghost use Rattle.ax_report.specs.Combining.{IsCombined};
ghost use Rattle.ax_report.specs.Walks.{standing_text, AreTheTrees};

use ax_ask::{Items, Line};
use ax_base::{NoMemory, TreeId};
use ax_tree::Grove;
pub use combined::CombinedView;
use std::alloc::AllocError;

/// The bytes of a text.
pub type Bytes = Vec<u8>;

/// Ends a call: where it had no memory, what it appended goes.
fn ended(out: &mut Bytes, before: usize, done: Result<(), AllocError>) -> Result<(), NoMemory>
    ensures ok { OnOk result (IsOk done × (out.new.items ≡ out.old.items)) }
    ensures err { OnErr result (IsErr done × (out.new.items ≡ take before out.old.items)) }
{
    match done {
        Ok(()) => Ok(()),
        Err(_) => {
            out.truncate(before);
            Err(NoMemory)
        }
    }
}

/// Appends the line of a step, and the lines of its updates or events.
pub fn line_text(l: &Line, out: &mut Bytes) -> Result<(), NoMemory>
    ensures ok { OnOk result (out.new.items ≡ out.old.items ++ line_text l.now) }
    ensures err { OnErr result (out.new.items ≡ out.old.items) }
{
    let alloc = *out.allocator();
    let before = out.len();
    let done = line::put_line(alloc, l, out);
    ended(out, before, done)
}

/// Appends the dump of these trees, one after the other: for each a line, and one for each of its nodes in pre-order.
/// A tree that isn't live is gone. One walk of the trees.
pub fn dump_text<G: Grove>(g: &G, trees: &[TreeId], out: &mut Bytes) -> Result<(), NoMemory>
    ensures ok { OnOk result (out.new.items ≡ out.old.items ++ flat_map (standing_text (G.forest g.now)) trees.now) }
    ensures whole { OnOk result (AreTheTrees (G.forest g.now) trees.now → out.new.items ≡ out.old.items ++ dump_text (G.forest g.now)) }
    ensures err { OnErr result (out.new.items ≡ out.old.items) }
{
    let alloc = *out.allocator();
    let before = out.len();
    let done = dump::put_dump(alloc, g, trees, out);
    ended(out, before, done)
}

/// Appends the items of an order with a space between.
pub fn order_text(o: &Items, out: &mut Bytes) -> Result<(), NoMemory>
    ensures ok { OnOk result (out.new.items ≡ out.old.items ++ order_text o.now) }
    ensures err { OnErr result (out.new.items ≡ out.old.items) }
{
    let alloc = *out.allocator();
    let before = out.len();
    let done = order::put_order(alloc, o.as_slice(), out);
    ended(out, before, done)
}

/// Appends the combined tree: the line of its tree data, and one for each place in the order of the joined list. What is
/// appended is the combined text of each forest of which it is the combined tree.
pub fn combined_text<C: CombinedView>(c: &C, out: &mut Bytes) -> Result<(), NoMemory>
    ensures ok { OnOk result ((f : Forest) → IsCombined f (C.places c.now) (C.TreeView.tree c.now) → out.new.items ≡ out.old.items ++ flat_map (combined_text f) (option_to_list (first_tree f))) }
    ensures err { OnErr result (out.new.items ≡ out.old.items) }
{
    let alloc = *out.allocator();
    let before = out.len();
    let done = combined::put_combined(alloc, c, out);
    ended(out, before, done)
}
