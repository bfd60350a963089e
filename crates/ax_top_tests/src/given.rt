//! Words, a source and a sink in memory, and whole runs over them. Where one can't be made, the test fails.

use ax_base::Text;
use ax_io::{MemSink, MemSource, Source};
use ax_top::{Status, calm_main};
use std::alloc::Global;

/// How many bytes one write takes.
const CHUNK: usize = 8;

/// More bytes than any text here has.
const ROOM: usize = 4096;

/// The words and the bytes of a run, and which reads and writes fail, by their numbers from 1. 0 is none.
#[derive(Drop)]
pub struct Given {
    pub words: &'static [&'static str],
    pub bytes: &'static str,
    pub failing_read: u64,
    pub failing_write: u64,
}

impl Given {
    /// A script that is replayed without faults.
    pub fn replay(script: &'static str) -> Given {
        Given {
            words: &["replay"],
            bytes: script,
            failing_read: 0,
            failing_write: 0,
        }
    }
}

fn push_word(alloc: Global, texts: &mut Vec<Text>, word: &str) -> bool {
    match Text::of(alloc, word) {
        Ok(text) => texts.push(text).is_ok(),
        Err(_) => false,
    }
}

fn texts(alloc: Global, words: &[&str]) -> Option<Vec<Text>> {
    let mut texts = Vec::new(alloc);
    for word in words {
        if !push_word(alloc, &mut texts, word) {
            return None;
        }
    }
    Some(texts)
}

fn source(alloc: Global, bytes: &str, failing: u64) -> Option<MemSource> {
    let bytes = bytes.as_bytes().to_vec(alloc).ok()?;
    let failing = [failing].to_vec(alloc).ok()?;
    Some(MemSource::new(bytes, 7, failing))
}

fn sink(alloc: Global, failing: u64) -> Option<MemSink> {
    let failing = [failing].to_vec(alloc).ok()?;
    MemSink::new(alloc, ROOM, CHUNK, failing).ok()
}

fn has_status<S: Source>(
    alloc: Global,
    words: &[&str],
    src: &mut S,
    out: &mut MemSink,
    status: Status,
) -> bool {
    match texts(alloc, words) {
        Some(words) => calm_main(alloc, &words, src, out) == status,
        None => false,
    }
}

/// Whether a run over this source ends with the status, and has written just the text. The write of the number fails, 0 for none.
pub fn writes<S: Source>(
    alloc: Global,
    src: &mut S,
    given: &Given,
    status: Status,
    text: &[u8],
) -> bool {
    match sink(alloc, given.failing_write) {
        Some(mut out) => {
            has_status(alloc, given.words, src, &mut out, status) && out.held() == text
        }
        None => false,
    }
}

/// Whether a run ends with the status, and has written just the text.
pub fn ends(alloc: Global, given: &Given, status: Status, text: &[u8]) -> bool {
    match source(alloc, given.bytes, given.failing_read) {
        Some(mut src) => writes(alloc, &mut src, given, status, text),
        None => false,
    }
}
