//! Text that grows.
ghost use Rattle.std.specs.Prelude.{◌≡◌, [], ◌++◌, IfOk};

use ax_base::{NoMemory, Text};
use std::alloc::Global;
use std::marker::Model;

/// Text that grows, seen as the list of its Unicode scalar values.
#[derive(Debug, Drop)]
pub(crate) struct Gathered {
    text: String,
}

impl Model for Gathered {
    ghost use Rattle.std.specs.Prelude.{List, ℕ};
    ghost use Rattle.std.specs.Str.{chars};
    ghost use Rattle.std.specs.String.{string_bytes};

    ghost Value = { List ℕ };

    ghost view = { λ t. chars (string_bytes t.text) };
}

impl Gathered {
    pub(crate) fn new(alloc: Global) -> Gathered
        ensures { result ≡ [] }
    {
        Gathered {
            text: String::new(alloc),
        }
    }

    /// Appends a text.
    pub(crate) fn append(&mut self, text: &Text) -> Result<(), NoMemory>
        ensures { IfOk result (λ _. self.new ≡ self.old ++ text.now) }
    {
        match self.text.push_str(text.as_str()) {
            Ok(()) => {}
            Err(_) => return Err(NoMemory),
        }
        Ok(())
    }

    pub(crate) fn text(&self, alloc: Global) -> Result<Text, NoMemory>
        ensures { IfOk result (λ t. t ≡ self.now) }
    {
        Text::of(alloc, self.text.as_str())
    }
}
