//! Texts, and where they may be parted.
ghost use Rattle.std.specs.Prelude.{◌≡◌, ◌≤◌, [], ◌∷◌, ◌⊎◌, true, length, take, drop, slice_range, IfOk, IfErr, IsTrue, ◌↔◌};
ghost use Rattle.std.specs.Str.{chars};
ghost use Rattle.std.specs.String.{string_bytes};
ghost use Rattle.ax_base.specs.TextBounds.{grapheme_bounds, word_starts, ends, starts, begins_white};
ghost use Rattle.unicode_segmentation.specs.Grapheme.{graphemes};
ghost use Rattle.unicode_segmentation.specs.Word.{word_bounds};

use crate::{NoMemory, Offsets};
use std::alloc::Global;
use std::marker::Model;
use std::sync::ArcStr;
use unicode_segmentation::UnicodeSegmentation;

/// UTF-8 text that contracts see as the list of its Unicode scalar values. Every offset counts scalars.
///
/// Its bytes never change, and stand once however often it is copied. The empty text has none and takes no memory.
#[derive(Debug, Drop)]
pub struct Text {
    bytes: Option<ArcStr>,
    alloc: Global,
}

impl Model for Text {
    ghost use Rattle.std.specs.Prelude.{List, ℕ};
    ghost use Rattle.std.specs.Str.{chars};
    ghost use Rattle.ax_base.specs.SharedText.{bytes_of};

    ghost Value = { List ℕ };

    ghost view = { λ t. chars (bytes_of t.bytes) };
}

/// Why a part of a text wasn't given: its start, its end and the text's length, or want of memory.
#[derive(Clone, Copy, Debug, PartialEq, Eq)]
pub enum SliceErr {
    BadRange(usize, usize, usize),
    NoMemory,
}

impl From<NoMemory> for SliceErr {
    ghost use Rattle.std.specs.Prelude.{◌≡◌};
    ghost use Rattle.ax_base.specs.declared.text.SliceErr.TheVariants.{NoMemory as OutOfMemory};

    ghost from_gives = { λ _ e. e ≡ OutOfMemory };

    fn from(_error: NoMemory) -> SliceErr {
        SliceErr::NoMemory
    }
}

impl Text {
    /// The empty text, which takes no memory.
    pub fn new(alloc: Global) -> Text
        ensures { result ≡ [] }
    {
        Text { bytes: None, alloc }
    }

    /// The text of these bytes. Linear in them.
    pub fn of(alloc: Global, s: &str) -> Result<Text, NoMemory>
        ensures { IfOk result (λ t. t ≡ chars s.now) }
    {
        if s.is_empty() {
            return Ok(Text::new(alloc));
        }
        let bytes = ArcStr::from_str(alloc, s)?;
        Ok(Text {
            bytes: Some(bytes),
            alloc,
        })
    }

    fn of_string(alloc: Global, text: String) -> Result<Text, NoMemory>
        ensures { IfOk result (λ t. t ≡ chars (string_bytes text)) }
    {
        if text.as_str().is_empty() {
            return Ok(Text::new(alloc));
        }
        let bytes = ArcStr::from_string(text)?;
        Ok(Text {
            bytes: Some(bytes),
            alloc,
        })
    }

    pub fn as_str(&self) -> &str
        ensures { chars result.now ≡ self.now }
    {
        match &self.bytes {
            Some(bytes) => bytes.as_str(),
            None => "",
        }
    }

    /// How many scalars it has. Linear in the text.
    pub fn len(&self) -> usize
        ensures { result ≡ length self.now }
    {
        self.as_str().chars().count()
    }

    pub fn is_empty(&self) -> bool
        ensures { IsTrue result ↔ (self.now ≡ []) }
    {
        self.as_str().is_empty()
    }

    /// Whether both have the same scalars. Linear in the text.
    pub fn same(&self, other: &Text) -> bool
        ensures { IsTrue result ↔ (self.now ≡ other.now) }
    {
        self.as_str() == other.as_str()
    }

    /// One more owner of the same bytes. It takes no memory: `NoMemory` comes only where the owners can't be counted.
    pub fn copy(&self) -> Result<Text, NoMemory>
        ensures { IfOk result (λ t. t ≡ self.now) }
    {
        let bytes = match &self.bytes {
            Some(bytes) => Some(bytes.clone()?),
            None => None,
        };
        Ok(Text {
            bytes,
            alloc: self.alloc,
        })
    }

    /// The scalars from `start` to before `end`. Linear in the text.
    pub fn slice(&self, start: usize, end: usize) -> Result<Text, SliceErr>
        ensures ok { IfOk result (λ t. t ≡ slice_range self.now start end) }
        ensures err { IfErr result (λ e. (e ≡ SliceErr.NoMemory) ⊎ (e ≡ SliceErr.BadRange start end (length self.now))) }
        ensures range { (result ≡ Err (SliceErr.BadRange start end (length self.now))) ↔ ¬ ((start ≤ end) × (end ≤ length self.now)) }
    {
        let len = self.len();
        if start > end || end > len {
            return Err(SliceErr::BadRange(start, end, len));
        }
        let part = part_of(self.alloc, self.as_str(), start, end - start)?;
        Ok(part)
    }

    /// 0, and then the end of each extended grapheme cluster. Linear in the text.
    pub fn grapheme_bounds(&self) -> Result<Offsets, NoMemory>
        ensures { IfOk result (λ bounds. bounds ≡ grapheme_bounds self.now) }
    {
        grapheme_bounds_of(self.alloc, self.as_str())
    }

    /// The starts of the pieces between word boundaries whose first scalar isn't white space. Linear in the text.
    pub fn word_starts(&self) -> Result<Offsets, NoMemory>
        ensures { IfOk result (λ offsets. offsets ≡ word_starts self.now) }
    {
        word_starts_of(self.alloc, self.as_str())
    }
}

impl PartialEq for Text {
    ghost use Rattle.std.specs.Cmp.{partial_equiv_from_equiv};
    ghost use Rattle.std.specs.Cmp.Lexicographic.{nat_list_eq_equiv};
    ghost use Rattle.std.specs.Str.{bytes_eq};

    ghost eq = { bytes_eq };

    ghost laws = { partial_equiv_from_equiv nat_list_eq_equiv };

    fn eq(&self, other: &Self) -> bool {
        self.same(other)
    }
}

impl Eq for Text {
    ghost use Rattle.std.specs.Cmp.Lexicographic.{nat_list_eq_equiv};

    ghost laws = { nat_list_eq_equiv };
}

/// The scalars from `start` on, `count` of them.
fn part_of(alloc: Global, text: &str, start: usize, count: usize) -> Result<Text, NoMemory>
    ensures { IfOk result (λ part. part ≡ take count (drop start (chars text.now))) }
{
    let part: String = text.chars().skip(start).take(count).collect(alloc)?;
    Text::of_string(alloc, part)
}

// The pieces come as bytes, so the scalars of each are counted: no offset in bytes is ever turned into one in scalars.
fn grapheme_bounds_of(alloc: Global, text: &str) -> Result<Offsets, NoMemory>
    ensures { IfOk result (λ bounds. bounds ≡ 0 ∷ ends 0 (graphemes true text.now)) }
{
    let mut bounds = Offsets::new(alloc);
    let mut end = 0usize;
    bounds.push(end)?;
    for piece in text.graphemes(true) {
        end += scalar_count(piece);
        bounds.push(end)?;
    }
    Ok(bounds)
}

fn word_starts_of(alloc: Global, text: &str) -> Result<Offsets, NoMemory>
    ensures { IfOk result (λ offsets. offsets ≡ starts 0 (word_bounds text.now)) }
{
    let mut offsets = Offsets::new(alloc);
    let mut start = 0usize;
    for piece in text.split_word_bounds() {
        if !begins_white(piece) {
            offsets.push(start)?;
        }
        start += scalar_count(piece);
    }
    Ok(offsets)
}

/// How many scalars a piece of text has.
fn scalar_count(piece: &str) -> usize
    ensures same { result ≡ length (chars piece.now) }
    ensures few { result ≤ length piece.now }
{
    piece.chars().count()
}

/// Whether the first scalar is white space. An empty piece counts as such, and there is none.
fn begins_white(piece: &str) -> bool
    ensures { result ≡ begins_white (chars piece.now) }
{
    match piece.chars().next() {
        Some(c) => c.is_whitespace(),
        None => true,
    }
}
