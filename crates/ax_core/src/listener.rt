//! Who hears the lines of a finale as they come.
ghost use Rattle.std.specs.Prelude.{◌≡◌, ◌++◌, ◌∷◌, [], OnOk};
ghost use Rattle.ax_ask.specs.declared.line.Line.{Line as Told};

use ax_ask::{Line, Lines};
use ax_base::NoMemory;

/// Who hears lines, one after the other.
pub trait Listener {
    /// What a line makes of the listener.
    ghost heard: { Self → Told → Self };

    /// Hears a line. After want of memory nothing is said of the listener.
    fn hear(&mut self, line: Line) -> Result<(), NoMemory>
        ensures { OnOk result (self.new ≡ heard self.old line) };
}

/// A list keeps each line behind those that it has.
impl Listener for Lines {
    ghost heard = { λ lines line. lines ++ line ∷ [] };

    fn hear(&mut self, line: Line) -> Result<(), NoMemory> {
        self.push(line)
    }
}
