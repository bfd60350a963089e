//! What a value is to a turn.
ghost use Rattle.std.specs.Prelude.{ℕ, List};

/// A value that a turn keeps. It stands for a list of entries; each entry has the number of its maker, and the value
/// has a name, which never changes.
pub trait Kept {
    type Entry;

    ghost entries: { Self → List Self.Entry };

    ghost maker: { Self.Entry → ℕ };

    ghost name: { Self → List ℕ };
}
