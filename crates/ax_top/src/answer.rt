//! The answer to the bytes of a script.
ghost use Rattle.std.specs.Prelude.{◌≡◌, ◌≢◌, IfOk, Some, false, is_ok};
ghost use Rattle.ax_script.specs.ErrorText.{script_error_text};
ghost use Rattle.ax_script.specs.Script.{script, GivesScript};
ghost use Rattle.ax_script.specs.Sound.{IsSoundScript};
ghost use Rattle.ax_top.specs.Answer.{text_of};
ghost use Rattle.ax_top.specs.Endings.{run_text};
ghost use Rattle.ax_top.specs.Runs.{in_turn, missing_item, script_of};

use crate::ending::{Ending, with_ending};
use crate::running::{Ran, run_script};
use ax_base::NoMemory;
use ax_report::Bytes;
use ax_script::{Script, ScriptErr, read_script, script_error_text};
use std::alloc::Global;

/// What bytes are answered, where memory lasts.
#[derive(Drop)]
pub(crate) struct Told {
    pub is_script: bool,
    pub text: Bytes,
}

/// Tells a refusal by its line. Want of memory has none.
fn refused(alloc: Global, error: &ScriptErr) -> Result<Told, NoMemory>
    ensures text { IfOk result (λ told. told.text.items ≡ script_error_text error.now) }
    ensures kind { IfOk result (λ told. told.is_script ≡ false) }
    ensures why { IfOk result (λ _. error.now ≢ ScriptErr.NoMemory) }
{
    match error {
        ScriptErr::NoMemory => Err(NoMemory),
        _ => {
            let mut text = Bytes::new(alloc);
            script_error_text(error, &mut text)?;
            Ok(Told {
                is_script: false,
                text,
            })
        }
    }
}

/// Runs a script, and tells its text with the ending, or the first item of its order that isn't there in its turn.
fn told_run(alloc: Global, ending: Ending, script: Script) -> Result<Told, NoMemory>
    requires { IsSoundScript script }
    ensures text { IfOk result (λ told. text_of (run_text ending) (in_turn script (missing_item script)) ≡ Some told.text.items) }
    ensures kind { IfOk result (λ told. told.is_script ≡ is_ok (in_turn script (missing_item script))) }
{
    match run_script(alloc, script)? {
        Ran::Whole(core, text) => {
            let text = with_ending(alloc, ending, &core, text)?;
            Ok(Told {
                is_script: true,
                text,
            })
        }
        Ran::Missing(number) => refused(alloc, &ScriptErr::BadOrder(number)),
    }
}

/// Reads a script, and lets its bytes go.
fn read(alloc: Global, bytes: Vec<u8>) -> Result<Script, ScriptErr>
    ensures script { GivesScript result (script bytes.items) }
    ensures sound { IfOk result IsSoundScript }
{
    read_script(alloc, &bytes)
}

/// The answer to these bytes, where the text of a run has the ending.
#[tactic(auto, unfolding(crate::specs::Runs::script_of), using(crate::proofs::Answers::refusal_is))]
pub(crate) fn answer(alloc: Global, ending: Ending, bytes: Vec<u8>) -> Result<Told, NoMemory>
    ensures text { IfOk result (λ told. text_of (run_text ending) (script_of bytes.items) ≡ Some told.text.items) }
    ensures kind { IfOk result (λ told. told.is_script ≡ is_ok (script_of bytes.items)) }
{
    match read(alloc, bytes) {
        Ok(script) => told_run(alloc, ending, script),
        Err(error) => refused(alloc, &error),
    }
}
