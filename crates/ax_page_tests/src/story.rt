//! How a story is told: the program runs its script from a source into a sink, both in memory.

use ax_base::Text;
use ax_io::{MemSink, MemSource};
use ax_top::{Status, calm_main};
use std::alloc::Global;

/// A name, a script, and the text that is printed for it.
pub type Story = (&'static str, &'static str, &'static str);

/// How many bytes one call reads or writes: a script and a text take many calls.
const CHUNK: usize = 64;

/// More bytes than any text here has.
const ROOM: usize = 32_768;

fn words(alloc: Global, command: &str) -> Option<Vec<Text>> {
    let mut words = Vec::new(alloc);
    words.push(Text::of(alloc, command).ok()?).ok()?;
    Some(words)
}

fn source(alloc: Global, script: &str) -> Option<MemSource> {
    let bytes = script.as_bytes().to_vec(alloc).ok()?;
    Some(MemSource::new(bytes, CHUNK, Vec::new(alloc)))
}

fn sink(alloc: Global) -> Option<MemSink> {
    MemSink::new(alloc, ROOM, CHUNK, Vec::new(alloc)).ok()
}

fn runs(alloc: Global, command: &str, src: &mut MemSource, out: &mut MemSink) -> bool {
    match words(alloc, command) {
        Some(words) => calm_main(alloc, &words, src, out) == Status::Ok,
        None => false,
    }
}

fn writes(alloc: Global, command: &str, src: &mut MemSource, text: &str) -> bool {
    match sink(alloc) {
        Some(mut out) => runs(alloc, command, src, &mut out) && out.held() == text.as_bytes(),
        None => false,
    }
}

fn answers(alloc: Global, command: &str, script: &str, text: &str) -> bool {
    match source(alloc, script) {
        Some(mut src) => writes(alloc, command, &mut src, text),
        None => false,
    }
}

/// Whether the script is replayed, and exactly the text is written.
pub fn is_told(alloc: Global, script: &str, text: &str) -> bool {
    answers(alloc, "replay", script, text)
}

/// The same with the combined tree.
pub fn is_combined(alloc: Global, script: &str, text: &str) -> bool {
    answers(alloc, "combine", script, text)
}
