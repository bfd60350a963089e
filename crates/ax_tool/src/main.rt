//! The program: it replays a script of accessibility edits, and prints every step and the trees that their receivers hold.
//!
//! `ax_top` does all of it; `main` only hands it the words, standard input and standard output. Nothing is written to
//! standard error.
#![tactic(auto)]

use ax_base::{NoMemory, Text};
use ax_io::{StdSink, StdSource};
use ax_top::{Status, calm_main};
use std::alloc::Global;
use std::env;
use std::env::Args;
use std::io::ErrorKind;
use std::process::ExitCode;

fn texts_of(alloc: Global, args: Args) -> Result<Vec<Text>, NoMemory> {
    let mut texts = Vec::new(alloc);
    for arg in args {
        let text = Text::of(alloc, arg.as_str())?;
        if texts.push(text).is_err() {
            return Err(NoMemory);
        }
    }
    Ok(texts)
}

/// The words, without the program's own name. Where one of them isn't UTF-8 they stand as one empty text, which no command has.
fn words_of(rt: &HostRuntime, alloc: Global) -> Result<Vec<Text>, NoMemory> {
    match env::args(rt) {
        Ok(mut args) => {
            let _ = args.next();
            texts_of(alloc, args)
        }
        Err(error) => {
            if error.kind() == ErrorKind::OutOfMemory {
                return Err(NoMemory);
            }
            let mut texts = Vec::new(alloc);
            if texts.push(Text::new(alloc)).is_err() {
                return Err(NoMemory);
            }
            Ok(texts)
        }
    }
}

fn status_of(rt: &HostRuntime) -> Status {
    let Ok(words) = words_of(rt, rt.alloc()) else {
        return Status::NoMemory;
    };
    let mut src = StdSource::new(rt.stdin());
    let mut out = StdSink::new(rt.stdout());
    calm_main(rt.alloc(), &words, &mut src, &mut out)
}

fn main(rt: HostRuntime) -> ExitCode {
    ExitCode::from(status_of(&rt).number())
}
