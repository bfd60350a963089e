//! The values of a command, as `clap` reads them.
ghost use Rattle.std.specs.Prelude.{◌≡◌, IfOk, None, Ok};
ghost use Rattle.ax_words.specs.Words.{command_of};

use crate::by_hand::{command_of, spelled};
use crate::{Command, NoMemory};
use ax_base::Text;
use clap::{Arg, ArgMatches, Command as App, Error};
use std::alloc::{AllocError, Global};

fn app<'a>(alloc: Global) -> Result<App<'a>, Error> {
    let seed = Arg::new(alloc, "seed").required(true);
    let frames = Arg::new(alloc, "frames").required(true);
    let ops = Arg::new(alloc, "ops").required(true);
    let made = App::new(alloc, "gen").arg(seed)?.arg(frames)?.arg(ops)?;
    Ok(
        App::new(alloc, "ax_tool")
            .no_binary_name(true)
            .subcommand_required(true)
            .subcommand(App::new(alloc, "replay"))?
            .subcommand(App::new(alloc, "race"))?
            .subcommand(App::new(alloc, "combine"))?
            .subcommand(App::new(alloc, "act"))?
            .subcommand(made)?,
    )
}

fn lone(name: &str) -> Option<Command> {
    if name == "replay" {
        Some(Command::Replay)
    } else if name == "race" {
        Some(Command::Race)
    } else if name == "combine" {
        Some(Command::Combine)
    } else if name == "act" {
        Some(Command::Act)
    } else {
        None
    }
}

/// The command and its values.
fn matched(matches: &ArgMatches<'_>) -> Option<Command> {
    let (name, inner) = matches.subcommand()?;
    if name == "gen" {
        let seed = inner.get_one::<u32>("seed")?;
        let frames = inner.get_one::<u32>("frames")?;
        let ops = inner.get_one::<u32>("ops")?;
        Some(Command::Gen { seed, frames, ops })
    } else {
        lone(name)
    }
}

fn parsed<'a>(alloc: Global, words: &'a [&'a str]) -> Result<Option<Command>, Error> {
    let matches = app(alloc)?.try_get_matches_from(words)?;
    Ok(matched(&matches))
}

fn all_spelled<'a>(alloc: Global, words: &'a [Text]) -> Result<Vec<&'a str>, AllocError> {
    let mut all = Vec::new(alloc);
    for word in words {
        all.push(spelled(word))?;
    }
    Ok(all)
}

/// The command that the words are, without the program's own name; `None` exactly where they are none.
///
/// The commands are `replay`, `race`, `combine`, `act` and `gen SEED FRAMES OPS`, where the numbers are decimal digits
/// without a leading zero, from 0 to 4,294,967,295, from 1 to 1000 and from 1 to 900,000.
pub fn read_words(alloc: Global, words: &[Text]) -> Result<Option<Command>, NoMemory>
    ensures command { IfOk result (λ command. command ≡ command_of words.now) }
    ensures none { command_of words.now ≡ None → result ≡ Ok None }
{
    let Some(command) = command_of(words) else {
        return Ok(None);
    };
    let Ok(all) = all_spelled(alloc, words) else {
        return Err(NoMemory);
    };
    match parsed(alloc, &all) {
        Ok(Some(found)) if found == command => Ok(Some(found)),
        _ => Err(NoMemory),
    }
}
