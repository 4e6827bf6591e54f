// The word reader.
ghost use Rattle.std.specs.Prelude.{◌≡◌, ◌+◌, ◌<◌, ◌≤◌, length, Some};
ghost use Rattle.std.specs.List.{prefix_len};
ghost use Rattle.words.specs.Words.{Said, is_blank, goes_on, spelled, mark, width, says, end_token, Comes, WordsStand};

use crate::word::{Token, Word};

// How many blanks stand at the front.
fn blanks(bytes: &[u8]) -> usize
    ensures count { result ≡ prefix_len is_blank bytes.now }
    ensures within { result ≤ length bytes.now }
{
    bytes
        .iter()
        .take_while(|b| matches!(b, b' ' | b'\n'))
        .count()
}

// How many letters and digits stand at the front.
// Kept: one function that takes the test was tried, and the goal of what it counts stays open.
fn run_length(bytes: &[u8]) -> usize
    ensures count { result ≡ prefix_len goes_on bytes.now }
    ensures within { result ≤ length bytes.now }
{
    bytes
        .iter()
        .take_while(|b| b.is_ascii_lowercase() || b.is_ascii_digit())
        .count()
}

// The word that a run of letters and digits is.
fn spelled_word(run: &[u8]) -> Word<'_>
    ensures { says result ≡ Some (spelled run.now) }
{
    match run {
        b"in" => Word::In,
        b"out" => Word::Out,
        b"true" => Word::True,
        b"false" => Word::False,
        _ => Word::Name(run),
    }
}

// The word of one byte that `b` is.
fn mark_word<'a>(b: u8) -> Word<'a>
    ensures { says result ≡ Some (mark b) }
{
    match b {
        b'X' => Word::Next,
        b'G' => Word::Always,
        b'R' => Word::Release,
        b'U' => Word::Until,
        b'F' => Word::Finally,
        b'&' => Word::And,
        b'|' => Word::Or,
        b'!' => Word::Not,
        b'(' => Word::Open,
        b')' => Word::Close,
        _ => Word::Strange(b),
    }
}

// The first word from `from` on, with its place and the place behind it.
pub fn next_word(text: &[u8], from: usize) -> Token<'_>
    ensures comes { from ≤ length text.now → Comes text.now from result }
    ensures onward { from ≤ length text.now → from ≤ result.at }
    ensures past { length text.now < from → result ≡ end_token (length text.now) }
    ensures ordered { result.at ≤ result.next }
    ensures within { result.next ≤ length text.now }
    ensures behind { (s : Said) → says result.word ≡ Some s → result.next ≡ result.at + width s }
    ensures moves { (s : Said) → says result.word ≡ Some s → result.at < result.next }
{
    let start = from.min(text.len());
    let at = start + blanks(&text[start..]);
    let Some(&first) = text.get(at) else {
        return Token {
            word: Word::End,
            at,
            next: at,
        };
    };
    let (word, next) = if first.is_ascii_lowercase() {
        let next = at + run_length(&text[at..]);
        (spelled_word(&text[at..next]), next)
    } else {
        (mark_word(first), at + 1)
    };
    Token { word, at, next }
}

// The theorems on words.
pub fn words_stand()
    ensures { WordsStand }
{}
