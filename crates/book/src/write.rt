// Writing the book of a solved game.
ghost use Rattle.std.specs.Prelude.{◌≡◌, ℕ, ◌<◌, ◌≤◌, length};
ghost use Rattle.arena.specs.Arena.{Place};
ghost use Rattle.arena.specs.Values.{Values};
ghost use Rattle.arena.specs.Book.{AnswerBytes, book_length, Entry, Book};
ghost use Rattle.book.specs.Ranks.{Filled};

use crate::layout::{front_of, header_of};
use crate::solution::Solution;
use game::game::{Game, input_count};
use std::array;

impl<G: Game> Solution<'_, G> {
    // The answer to x in p, or 0 where there is no such input.
    fn answer_byte(&self, p: u8, x: u8) -> u8
        requires { Place (G.meaning self.now.game.now) p }
        ensures { (v : Values (G.meaning self.now.game.now)) → Filled v p x result }
    {
        if x >= input_count(self.game) {
            return 0;
        }
        self.answer(p, x)
    }

    // The sixteen answers in the record of p.
    fn answers(&self, p: u8) -> [u8; 16]
        requires { Place (G.meaning self.now.game.now) p }
        ensures { (v : Values (G.meaning self.now.game.now)) → AnswerBytes (G.meaning self.now.game.now) v p result }
    {
        array::from_fn(|x| self.answer_byte(p, x as u8))
    }

    // Writes the record of p into the 24 bytes that are lent for it.
    fn write_record(&self, p: u8, entry: &mut [u8])
        requires place { Place (G.meaning self.now.game.now) p }
        requires long { length entry.old ≡ 24 }
        ensures { (v : Values (G.meaning self.now.game.now)) → Entry (G.meaning self.now.game.now) v p entry.new }
    {
        entry[..8].copy_from_slice(&front_of(self.count(p), self.spoiling(p)));
        entry[8..].copy_from_slice(&self.answers(p));
    }

    // Writes the book.
    pub(crate) fn write_book(&self, book: &mut [u8])
        requires sized { 1 ≤ (G.meaning self.now.game.now).size }
        requires long { length book.old ≡ book_length (G.meaning self.now.game.now).size }
        ensures { (v : Values (G.meaning self.now.game.now)) → Book (G.meaning self.now.game.now) v book.new }
    {
        book[..8].copy_from_slice(&header_of(self.game));

        // Kept: the 24 bytes in the middle of the book are lent to the writer of a record, which so knows nothing of the rest.
        for p in 1..=self.game.size() {
            let at = 8 + 24 * (p as usize - 1);
            self.write_record(p, &mut book[at..at + 24]);
        }
    }
}
