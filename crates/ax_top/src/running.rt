//! The run of a script, and its text.
//!
//! The items of the order are done one after the other, and then the finale. Each line is put into one buffer as it comes.
ghost use Rattle.std.specs.Prelude.{◌≡◌, ◌++◌, [], IfOk, OnOk};
ghost use Rattle.ax_script.specs.Sound.{IsSoundScript};
ghost use Rattle.ax_run_rules.specs.LineText.{line_text};
ghost use Rattle.ax_core.specs.Standing.{IsWhole};
ghost use Rattle.ax_top.specs.Running.{Ordered, IsTold, IsEnded, RanAs};

use ax_ask::{Item, Items, Line};
use ax_base::NoMemory;
use ax_core::{Core, CoreErr, Listener};
use ax_report::{Bytes, dump_text, line_text};
use ax_script::Script;
use std::alloc::Global;
use std::marker::Model;
use std::mem;

/// What became of a script's run.
#[derive(Drop)]
pub(crate) enum Ran {
    /// Each item of the order was there in its turn. What stands after the finale, and the text up to the dump.
    Whole(Core, Bytes),
    /// The number, from 1, of the first item of the order that wasn't there in its turn.
    Missing(usize),
}

/// Runs a script over its own order. The script's lists go as the run goes on.
pub(crate) fn run_script(alloc: Global, mut script: Script) -> Result<Ran, NoMemory>
    requires { IsSoundScript script }
    ensures { IfOk result (λ ran. RanAs script ran) }
{
    let order = take_order(alloc, &mut script);
    let mut core = Core::new(alloc, script)?;
    let mut text = Bytes::new(alloc);
    let missing = put_order(&mut core, order.as_slice(), &mut text)?;
    match missing {
        Some(number) => Ok(Ran::Missing(number)),
        None => {
            put_finale(&mut core, &mut text)?;
            Ok(Ran::Whole(core, text))
        }
    }
}

/// Takes the order out of a script.
fn take_order(alloc: Global, script: &mut Script) -> Items
    ensures order { result ≡ script.old.order }
    ensures rest { script.new ≡ record script.old { order = [] } }
{
    mem::replace(&mut script.order, Items::new(alloc))
}

/// Does the items, and appends their lines. Gives the number, from 1, of the first that isn't there in its turn.
fn put_order(core: &mut Core, order: &[Item], out: &mut Bytes) -> Result<Option<usize>, NoMemory>
    requires { IsWhole core.old }
    ensures { IfOk result (λ missing. Ordered core.old order.now core.new out.old.items out.new.items missing) }
{
    let mut number = 0;
    for item in order {
        number += 1;
        match core.step(item) {
            Ok(line) => line_text(&line, out)?,
            Err(CoreErr::NotThere(_)) => return Ok(Some(number)),
            Err(CoreErr::NoMemory) => return Err(NoMemory),
        }
    }
    Ok(None)
}

/// Appends a text.
pub(crate) fn put(out: &mut Bytes, text: &str) -> Result<(), NoMemory>
    ensures { OnOk result (out.new.items ≡ out.old.items ++ text.now) }
{
    match out.extend_from_slice(text.as_bytes()) {
        Ok(()) => Ok(()),
        Err(_) => Err(NoMemory),
    }
}

/// A text to which each line is appended that is heard.
#[derive(Drop)]
struct Report {
    text: Bytes,
}

impl Model for Report {
    ghost use Rattle.std.specs.Prelude.{ℕ, List};
    ghost use Rattle.std.specs.Coded.{coded_list, coded_ℕ};

    ghost Value = { List ℕ };

    ghost coded = { coded_list coded_ℕ };

    ghost view = { λ r. r.text.items };
}

impl Listener for Report {
    ghost heard = { λ text line. text ++ line_text line };

    fn hear(&mut self, line: Line) -> Result<(), NoMemory> {
        line_text(&line, &mut self.text)
    }
}

/// Does the finale, and appends its lines as they come.
fn put_lines(core: &mut Core, out: &mut Bytes) -> Result<(), NoMemory>
    requires { IsWhole core.old }
    ensures { OnOk result (IsTold core.old core.new out.old.items out.new.items) }
{
    let alloc = *out.allocator();
    let mut report = Report {
        text: mem::replace(out, Bytes::new(alloc)),
    };
    core.tell_finale(&mut report)?;
    let Report { text } = report;
    *out = text;
    Ok(())
}

/// Does the finale, and appends its lines and the dump.
fn put_finale(core: &mut Core, out: &mut Bytes) -> Result<(), NoMemory>
    requires { IsWhole core.old }
    ensures { OnOk result (IsEnded core.old core.new out.old.items out.new.items) }
{
    put(out, "finale\n")?;
    put_lines(core, out)?;
    put(out, "dump\n")?;
    let forest = core.forest();
    dump_text(forest, forest.trees(), out)
}
