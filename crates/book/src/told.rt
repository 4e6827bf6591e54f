// What the bytes of a book tell of a position, whatever bytes they are.
ghost use Rattle.std.specs.Prelude.{◌≡◌};
ghost use Rattle.arena.specs.Book.{entry_at};
ghost use Rattle.book.specs.Told.{flag_told, count_told, spoiling_told, answer_told};

use terms::bytes::{byte_at, word_at};
use terms::count::Count;

// Where the record of p begins.
pub fn entry_at(p: u8) -> usize
    ensures { result ≡ entry_at p }
{
    8 + 24 * (p as usize).saturating_sub(1)
}

// The status flag in the record of p.
// Kept: each call asks one thing of one position; a type of book and position would be made for every call.
pub fn flag_told(book: &[u8], p: u8) -> u8
    ensures { result ≡ flag_told book.now p }
{
    byte_at(book, entry_at(p))
}

// The count in the record of p.
pub fn count_told(book: &[u8], p: u8) -> Count
    ensures { result ≡ count_told book.now p }
{
    match flag_told(book, p) {
        1 => Count::Unlimited,
        _ => Count::Limited(word_at(book, entry_at(p) + 4)),
    }
}

// The spoiling input in the record of p.
pub fn spoiling_told(book: &[u8], p: u8) -> Option<u8>
    ensures { result ≡ spoiling_told book.now p }
{
    match count_told(book, p) {
        Count::Unlimited => None,
        _ => Some(byte_at(book, entry_at(p) + 6)),
    }
}

// The answer to x in the record of p.
pub fn answer_told(book: &[u8], p: u8, x: u8) -> u8
    ensures { result ≡ answer_told book.now p x }
{
    byte_at(book, entry_at(p) + (8 + x as usize))
}
