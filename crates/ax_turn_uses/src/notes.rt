//! A list of notes that a turn keeps.
use ax_turn::Kept;

/// A number that a thread wrote down.
#[derive(Clone, Copy, Debug, PartialEq, Eq)]
pub struct Note {
    /// The thread's number.
    pub by: u64,
    pub number: u64,
}

/// The notes of all threads, in the order in which they were added.
#[derive(Debug, Drop)]
pub struct Notes {
    pub items: Vec<Note>,
}

impl Kept for Notes {
    ghost use Rattle.std.specs.Prelude.{[]};

    type Entry = Note;

    ghost entries = { λ notes. notes.items.items };

    ghost maker = { λ note. note.by };

    ghost name = { λ _. [] };
}
