//! The first word of a text.
ghost use Rattle.std.specs.Prelude.{◌≡◌, ◌≤◌, length};
ghost use Rattle.std.specs.Str.{chars};
ghost use Rattle.ax_base.specs.TextBounds.{starts, begins_white};
ghost use Rattle.ax_rules.specs.Sequences.{first_of};
ghost use Rattle.unicode_segmentation.specs.Word.{word_bounds};

use unicode_segmentation::UnicodeSegmentation;

/// How many scalars a piece of text has.
fn scalar_count(piece: &str) -> usize
    ensures same { result ≡ length (chars piece.now) }
    ensures few { result ≤ length piece.now }
{
    piece.chars().count()
}

/// Whether the first scalar is white space. An empty piece counts as such, and there is none.
fn begins_white(piece: &str) -> bool
    ensures { result ≡ begins_white (chars piece.now) }
{
    match piece.chars().next() {
        Some(c) => c.is_whitespace(),
        None => true,
    }
}

/// The start of the first piece between word boundaries that doesn't begin with white space, in scalars. It reads the
/// text up to there.
pub(crate) fn first_word(text: &str) -> Option<usize>
    ensures { result ≡ first_of (starts 0 (word_bounds text.now)) }
{
    let mut start = 0usize;
    for piece in text.split_word_bounds() {
        if !begins_white(piece) {
            return Some(start);
        }
        start += scalar_count(piece);
    }
    None
}
