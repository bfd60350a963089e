//! Which words are a command.
ghost use Rattle.std.specs.Prelude.{◌≡◌, map, encode_utf8_all};
ghost use Rattle.std.specs.Char.{is_ascii_digit};
ghost use Rattle.std.specs.List.{list_all};
ghost use Rattle.ax_words.specs.Words.{is_numeral, in_range, number_in, gen_words, lone_word, command_of};

use crate::Command;
use ax_base::Text;

/// The word as its bytes spell it.
pub(crate) fn spelled(word: &Text) -> &str
    ensures { result.now ≡ encode_utf8_all word.now }
{
    word.as_str()
}

fn are_digits(bytes: &[u8]) -> bool
    ensures { result ≡ list_all is_ascii_digit bytes.now }
{
    bytes.iter().all(|digit| digit.is_ascii_digit())
}

/// Whether a word is decimal digits without a leading zero.
fn is_numeral(word: &str) -> bool
    ensures { result ≡ is_numeral word.now }
{
    let bytes = word.as_bytes();
    match bytes {
        [] => false,
        [first, rest @ ..] => are_digits(bytes) && (*first != 48 || rest.is_empty()),
    }
}

fn in_range(low: u32, high: u32, number: u32) -> Option<u32>
    ensures { result ≡ in_range low high number }
{
    if low <= number && number <= high {
        Some(number)
    } else {
        None
    }
}

/// The number that a word writes, where it lies between these.
fn number_in(low: u32, high: u32, word: &str) -> Option<u32>
    ensures { result ≡ number_in low high word.now }
{
    if !is_numeral(word) {
        return None;
    }
    match word.parse::<u32>() {
        Ok(number) => in_range(low, high, number),
        Err(_) => None,
    }
}

#[tactic(auto, unfolding(crate::specs::Words::gen_words))]
fn gen_words(a: &str, b: &str, c: &str) -> Option<Command>
    ensures { result ≡ gen_words a.now b.now c.now }
{
    let seed = number_in(0, 4_294_967_295, a)?;
    let frames = number_in(1, 1000, b)?;
    let ops = number_in(1, 900_000, c)?;
    Some(Command::Gen { seed, frames, ops })
}

fn lone_word(word: &str) -> Option<Command>
    ensures { result ≡ lone_word word.now }
{
    if word == "replay" {
        Some(Command::Replay)
    } else if word == "race" {
        Some(Command::Race)
    } else if word == "combine" {
        Some(Command::Combine)
    } else if word == "act" {
        Some(Command::Act)
    } else {
        None
    }
}

/// The command that the words are.
pub(crate) fn command_of(words: &[Text]) -> Option<Command>
    ensures { result ≡ command_of words.now }
{
    match words {
        [word] => lone_word(spelled(word)),
        [word, a, b, c] => {
            if spelled(word) == "gen" {
                gen_words(spelled(a), spelled(b), spelled(c))
            } else {
                None
            }
        }
        _ => None,
    }
}
