//! Texts: where the crate of boundaries parts them, and copies. Each step says whether it went as is wanted.
use ax_base::{SliceErr, Text};
use std::alloc::Global;

fn ends_early(text: &Text) -> bool {
    match text.slice(1, 3) {
        Ok(_) => false,
        Err(refusal) => refusal == SliceErr::BadRange(1, 3, 2),
    }
}

fn has_part(text: &Text, start: usize, end: usize, wanted: &str) -> bool {
    match text.slice(start, end) {
        Ok(part) => part.as_str() == wanted,
        Err(_) => false,
    }
}

fn has_parts(text: &Text) -> bool {
    text.len() == 4 && has_part(text, 1, 3, "\u{e9}\u{1F600}") && has_part(text, 2, 2, "")
}

fn stays_without(text: Text, copy: &Text) -> bool {
    let same = text.same(copy);
    drop(text);
    same && copy.as_str() == "News of the day"
}

fn copy_stays(text: Text) -> bool {
    match text.copy() {
        Ok(copy) => stays_without(text, &copy),
        Err(_) => false,
    }
}

fn copy_is_empty(text: &Text) -> bool {
    match text.copy() {
        Ok(copy) => copy.is_empty(),
        Err(_) => false,
    }
}

fn has_bounds(text: &Text, wanted: &[usize]) -> bool {
    match text.grapheme_bounds() {
        Ok(bounds) => bounds.as_slice() == wanted,
        Err(_) => false,
    }
}

fn has_starts(text: &Text) -> bool {
    match text.word_starts() {
        Ok(starts) => starts.as_slice() == [0, 4, 7, 9].as_slice(),
        Err(_) => false,
    }
}

fn of(alloc: Global, s: &str) -> Text {
    match Text::of(alloc, s) {
        Ok(text) => text,
        Err(_) => Text::new(alloc),
    }
}

fn is_cut(alloc: Global, s: &str, wanted: &[usize]) -> bool {
    has_bounds(&of(alloc, s), wanted)
}

#[test]
fn a_text_has_parts(rt: HostRuntime) {
    assert!(rt; ends_early(&of(rt.alloc(), "ab")));
    assert!(rt; has_parts(&of(rt.alloc(), "a\u{e9}\u{1F600}b")));
}

#[test]
fn a_copy_stays_without_its_first(rt: HostRuntime) {
    assert!(rt; copy_stays(of(rt.alloc(), "News of the day")));
    assert!(rt; copy_is_empty(&Text::new(rt.alloc())));
}

/// An accent, joined pictures, pairs of flags and a line break, and a conjunct.
const CUT: [(&str, &[usize]); 4] = [
    ("abe\u{301}", &[0, 1, 2, 4]),
    ("\u{1F468}\u{200D}\u{1F469}\u{200D}\u{1F467}x", &[0, 5, 6]),
    ("\u{1F1E9}\u{1F1EA}\u{1F1EB}\u{1F1F7}\r\n", &[0, 2, 4, 6]),
    ("\u{915}\u{94D}\u{937}a", &[0, 3, 4]),
];

#[test]
fn clusters(rt: HostRuntime) {
    for (text, bounds) in CUT {
        assert!(rt; is_cut(rt.alloc(), text, bounds), "{text}");
    }
}

#[test]
fn words(rt: HostRuntime) {
    assert!(rt; has_starts(&of(rt.alloc(), "one two, e\u{301}n")));
}
