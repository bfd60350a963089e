//! The line that tells of a refused script.
ghost use Rattle.std.specs.Prelude.{◌≡◌, ◌++◌, IfOk, OnOk, OnErr, string_bytes};
ghost use Rattle.ax_script.specs.ErrorText.{at_path, at_number, script_error_text};

use crate::ScriptErr;
use ax_base::{NoMemory, Text};
use std::alloc::{AllocError, Global};

#[tactic(auto, unfolding(crate::specs::ErrorText::at_path))]
fn at_path(alloc: Global, kind: &str, path: &Text) -> Result<String, AllocError>
    ensures { IfOk result (λ s. string_bytes s ≡ at_path kind.now path.now) }
{
    let path = path.as_str();
    let text = format!(in alloc; "script {kind} {path}\n")?;
    Ok(text)
}

#[tactic(auto, unfolding(crate::specs::ErrorText::at_number))]
fn at_number(alloc: Global, kind: &str, number: usize) -> Result<String, AllocError>
    ensures { IfOk result (λ s. string_bytes s ≡ at_number kind.now number) }
{
    format!(in alloc; "script {kind} {number}\n")
}

fn error_text(alloc: Global, error: &ScriptErr) -> Result<String, AllocError>
    ensures { IfOk result (λ s. string_bytes s ≡ script_error_text error.now) }
{
    match error {
        ScriptErr::TooBig(n) => at_number(alloc, "TooBig", *n),
        ScriptErr::NotJson => String::from_str(alloc, "script NotJson\n"),
        ScriptErr::UnknownMember(path) => at_path(alloc, "UnknownMember", path),
        ScriptErr::Missing(path) => at_path(alloc, "Missing", path),
        ScriptErr::BadType(path) => at_path(alloc, "BadType", path),
        ScriptErr::BadCount(path) => at_path(alloc, "BadCount", path),
        ScriptErr::BadNumber(path) => at_path(alloc, "BadNumber", path),
        ScriptErr::BadName(path) => at_path(alloc, "BadName", path),
        ScriptErr::TooManyOps(n) => at_number(alloc, "TooManyOps", *n),
        ScriptErr::BadOrder(i) => at_number(alloc, "BadOrder", *i),
        ScriptErr::NotBuilt(path) => at_path(alloc, "NotBuilt", path),
        ScriptErr::NoMemory => Ok(String::new(alloc)),
    }
}

/// Appends the line of a refused script, in its size. Want of memory is no refusal, and has no text. Where there is no
/// memory, the bytes are left as they were.
pub fn script_error_text(error: &ScriptErr, out: &mut Vec<u8>) -> Result<(), NoMemory>
    ensures ok { OnOk result (out.new.items ≡ out.old.items ++ script_error_text error.now) }
    ensures err { OnErr result (out.new.items ≡ out.old.items) }
{
    let Ok(text) = error_text(*out.allocator(), error) else {
        return Err(NoMemory);
    };
    match out.extend_from_slice(text.as_bytes()) {
        Ok(()) => Ok(()),
        Err(_) => Err(NoMemory),
    }
}
