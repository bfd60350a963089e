//! The top call.
ghost use Rattle.std.specs.Prelude.{◌≡◌, ◌≢◌, ◌≤◌, ◌<◌, ◌⊎◌, IsTrue, IsOk, IsErr, IfSome, None, false};
ghost use Rattle.std.specs.Io.KnownBytes.{Appends, Keeps};
ghost use Rattle.ax_io.specs.Causes.{Rose};
ghost use Rattle.ax_io.specs.Parts.{AppendsFront};
ghost use Rattle.ax_words.specs.Words.{command_of};
ghost use Rattle.ax_top.specs.Runs.{script_of};
ghost use Rattle.ax_top.specs.Gen.{gen_text};
ghost use Rattle.ax_top.specs.Answer.{is_built, is_reading, is_making, text_of, usage_text};
ghost use Rattle.ax_top.specs.Endings.{run_text};
ghost use Rattle.ax_top.specs.Ends.{Done, IsMade, Replayed, TellsRefusal, WritesFront, WritesPart};

use crate::answer::answer;
use crate::ending::Ending;
use crate::making::gen_text;
use ax_base::Text;
use ax_io::{ReadErr, Sink, Source, read_up_to, write_whole};
use ax_words::{Command, read_words};
use std::alloc::Global;

const USAGE: &str = "usage: ax_tool replay | race | combine | act | gen SEED FRAMES OPS\n";

/// A script has at most so many bytes.
const LIMIT: usize = 67_108_864;

/// How a run ended.
#[derive(Clone, Copy, Debug, PartialEq, Eq)]
pub enum Status {
    /// The whole text was written, of a script that was read to its end or was made.
    Ok,
    /// The words are no command, as the line says that was written.
    Usage,
    /// The bytes were refused, as the line says that was written.
    Script,
    /// The source failed, and nothing was written.
    ReadFault,
    /// The sink failed, and a first part of the text was written.
    WriteFault,
    /// There was no memory, and nothing was written.
    NoMemory,
}

impl Status {
    ghost use Rattle.std.specs.Prelude.{◌≡◌};
    ghost use Rattle.ax_top.specs.Status.{status_number};

    /// The number that the program ends with.
    pub fn number(self) -> u8
        ensures { result ≡ status_number self }
    {
        match self {
            Status::Ok => 0,
            Status::Usage => 2,
            Status::Script => 3,
            Status::ReadFault => 4,
            Status::WriteFault => 5,
            Status::NoMemory => 6,
        }
    }
}

/// Writes a text, and gives the status of a write that is whole.
fn finish<K: Sink>(out: &mut K, text: &[u8], status: Status) -> Status
    requires { status ≢ Status.WriteFault }
    ensures whole { result ≢ Status.WriteFault → (result ≡ status) × Appends (K.held out.old) (K.held out.new) text.now }
    ensures front { result ≡ Status.WriteFault → AppendsFront (K.held out.old) (K.held out.new) text.now }
    ensures fault { result ≡ Status.WriteFault → Rose (K.fault_count out.old) (K.fault_count out.new) }
    ensures later { K.fault_count out.old ≤ K.fault_count out.new }
{
    match write_whole(out, text) {
        Ok(()) => status,
        Err(_) => Status::WriteFault,
    }
}

/// Reads a script, runs it over its own order and writes the text with its ending.
fn replay<S: Source, K: Sink>(alloc: Global, ending: Ending, src: &mut S, out: &mut K) -> Status
    ensures done { result ≡ Status.Ok → Replayed (run_text ending) (S.left src.old) (S.left src.new) (K.held out.old) (K.held out.new) }
    ensures refused { result ≡ Status.Script → TellsRefusal (S.left src.old) (K.held out.old) (K.held out.new) }
    ensures usage { result ≢ Status.Usage }
    ensures read { result ≡ Status.ReadFault → Rose (S.fault_count src.old) (S.fault_count src.new) × Keeps (K.held out.old) (K.held out.new) }
    ensures write { result ≡ Status.WriteFault → Rose (K.fault_count out.old) (K.fault_count out.new)
        × IfSome (S.left src.old) (λ b. WritesFront (text_of (run_text ending) (script_of b)) (K.held out.old) (K.held out.new)) }
    ensures memory { result ≡ Status.NoMemory → Keeps (K.held out.old) (K.held out.new) }
    ensures source_later { S.fault_count src.old ≤ S.fault_count src.new }
    ensures sink_later { K.fault_count out.old ≤ K.fault_count out.new }
{
    let bytes = match read_up_to(alloc, src, LIMIT) {
        Ok(bytes) => bytes,
        Err(ReadErr::Fault) => return Status::ReadFault,
        Err(ReadErr::NoMemory) => return Status::NoMemory,
    };
    match answer(alloc, ending, bytes) {
        Ok(told) => {
            if told.is_script {
                finish(out, &told.text, Status::Ok)
            } else {
                finish(out, &told.text, Status::Script)
            }
        }
        Err(_) => Status::NoMemory,
    }
}

/// Makes a script, runs it and writes its line.
fn make_and_run<K: Sink>(alloc: Global, seed: u32, frames: u32, ops: u32, out: &mut K) -> Status
    requires some { 0 < frames }
    requires frames { frames ≤ 1000 }
    requires ops { ops ≤ 900000 }
    ensures done { result ≡ Status.Ok → IsMade seed frames ops (K.held out.old) (K.held out.new) }
    ensures kind { (result ≡ Status.Ok) ⊎ ((result ≡ Status.WriteFault) ⊎ (result ≡ Status.NoMemory)) }
    ensures write { result ≡ Status.WriteFault → Rose (K.fault_count out.old) (K.fault_count out.new)
        × WritesFront (gen_text seed frames ops) (K.held out.old) (K.held out.new) }
    ensures memory { result ≡ Status.NoMemory → Keeps (K.held out.old) (K.held out.new) }
    ensures sink_later { K.fault_count out.old ≤ K.fault_count out.new }
{
    match gen_text(alloc, seed, frames, ops) {
        Ok(text) => finish(out, &text, Status::Ok),
        Err(_) => Status::NoMemory,
    }
}

/// Does what the words say.
///
/// `replay` runs the script that it reads, over the script's own order; `combine` does so too, and has the combined tree
/// behind the dump; `gen` runs a script that it makes. The other commands are answered like words that are none. Each status
/// comes only as its clause says, and names the bytes that the source had left and those that the sink gained. No text is
/// written before it stands whole.
pub fn calm_main<S: Source, K: Sink>(
    alloc: Global,
    words: &[Text],
    src: &mut S,
    out: &mut K,
) -> Status
    // The whole text was written: of `replay` and `combine` that of the script that was read to its end, of `gen` its line.
    ensures done { result ≡ Status.Ok → Done (command_of words.now) (S.left src.old) (S.left src.new) (K.held out.old) (K.held out.new) }
    // The words are no command.
    ensures usage { result ≡ Status.Usage → (is_built (command_of words.now) ≡ false)
        × Appends (K.held out.old) (K.held out.new) usage_text }
    // Where the words don't ask for it the source isn't read, however the call ends.
    ensures unread { is_reading (command_of words.now) ≡ false → src.new ≡ src.old }
    ensures refused { result ≡ Status.Script → IsTrue (is_reading (command_of words.now))
        × TellsRefusal (S.left src.old) (K.held out.old) (K.held out.new) }
    ensures read { result ≡ Status.ReadFault → Rose (S.fault_count src.old) (S.fault_count src.new)
        × Keeps (K.held out.old) (K.held out.new) }
    ensures write { result ≡ Status.WriteFault → Rose (K.fault_count out.old) (K.fault_count out.new)
        × WritesPart (command_of words.now) (S.left src.old) (K.held out.old) (K.held out.new) }
    ensures memory { result ≡ Status.NoMemory → Keeps (K.held out.old) (K.held out.new) }
    ensures source_later { S.fault_count src.old ≤ S.fault_count src.new }
    ensures sink_later { K.fault_count out.old ≤ K.fault_count out.new }

    // Where no count rose, a script whose items are there in their turn is run, or there was no memory.
    ensures complete { IsTrue (is_reading (command_of words.now))
        → ¬ Rose (S.fault_count src.old) (S.fault_count src.new)
        → ¬ Rose (K.fault_count out.old) (K.fault_count out.new)
        → IfSome (S.left src.old) (λ b. IsOk (script_of b) → (result ≡ Status.Ok) ⊎ (result ≡ Status.NoMemory)) }
    // Where no count rose, other bytes are refused, or there was no memory.
    ensures complete_refusal { IsTrue (is_reading (command_of words.now))
        → ¬ Rose (S.fault_count src.old) (S.fault_count src.new)
        → ¬ Rose (K.fault_count out.old) (K.fault_count out.new)
        → IfSome (S.left src.old) (λ b. IsErr (script_of b) → (result ≡ Status.Script) ⊎ (result ≡ Status.NoMemory)) }
    // Where the sink's count didn't rise, a made script is run, or there was no memory.
    ensures complete_gen { IsTrue (is_making (command_of words.now))
        → ¬ Rose (K.fault_count out.old) (K.fault_count out.new)
        → (result ≡ Status.Ok) ⊎ (result ≡ Status.NoMemory) }
    // Words that are no command are told so, unless the write fails.
    ensures complete_usage { command_of words.now ≡ None
        → ¬ Rose (K.fault_count out.old) (K.fault_count out.new)
        → result ≡ Status.Usage }
    // So is a command that isn't built, or there was no memory.
    ensures complete_unbuilt { is_built (command_of words.now) ≡ false
        → ¬ Rose (K.fault_count out.old) (K.fault_count out.new)
        → (result ≡ Status.Usage) ⊎ (result ≡ Status.NoMemory) }
{
    match read_words(alloc, words) {
        Ok(Some(Command::Replay)) => replay(alloc, Ending::Dump, src, out),
        Ok(Some(Command::Combine)) => replay(alloc, Ending::Combined, src, out),
        Ok(Some(Command::Gen { seed, frames, ops })) => make_and_run(alloc, seed, frames, ops, out),
        Ok(_) => finish(out, USAGE.as_bytes(), Status::Usage),
        Err(_) => Status::NoMemory,
    }
}
