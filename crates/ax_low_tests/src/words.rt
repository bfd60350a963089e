//! Each command once, and words that are none.
use ax_base::Text;
use ax_words::{Command, read_words};
use std::alloc::Global;

fn push_word(alloc: Global, texts: &mut Vec<Text>, word: &str) -> bool {
    match Text::of(alloc, word) {
        Ok(text) => texts.push(text).is_ok(),
        Err(_) => false,
    }
}

fn texts(alloc: Global, words: &[&str]) -> Option<Vec<Text>> {
    let mut texts = Vec::new(alloc);
    for word in words {
        if !push_word(alloc, &mut texts, word) {
            return None;
        }
    }
    Some(texts)
}

fn are_read(alloc: Global, words: &[&str], wanted: Option<Command>) -> bool {
    match texts(alloc, words) {
        Some(texts) => read_words(alloc, texts.as_slice()) == Ok(wanted),
        None => false,
    }
}

const READ: [(&[&str], Option<Command>); 11] = [
    (&["replay"], Some(Command::Replay)),
    (&["race"], Some(Command::Race)),
    (&["combine"], Some(Command::Combine)),
    (&["act"], Some(Command::Act)),
    (
        &["gen", "0", "1", "1"],
        Some(Command::Gen {
            seed: 0,
            frames: 1,
            ops: 1,
        }),
    ),
    (
        &["gen", "4294967295", "1000", "900000"],
        Some(Command::Gen {
            seed: 4_294_967_295,
            frames: 1000,
            ops: 900_000,
        }),
    ),
    (&[], None),
    (&["replay", "x"], None),
    (&["-h"], None),
    (&["help"], None),
    (&["--version"], None),
];

#[test]
fn words_are_read(rt: HostRuntime) {
    for (words, command) in READ {
        assert!(rt; are_read(rt.alloc(), words, command));
    }
}
