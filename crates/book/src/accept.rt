// Accepting a book: one pass over its bytes and the moves of its game.
ghost use Rattle.std.specs.Prelude.{◌≡◌, ℕ, ◌^◌, ◌≤◌, length, take, drop, Decides, MatchResult};
ghost use Rattle.arena.specs.Arena.{Place};
ghost use Rattle.terms.specs.Order.{Most, Least};
ghost use Rattle.arena.specs.Book.{front, header, entry_at, book_length};
ghost use Rattle.book.specs.Told.{count_told, spoiling_told, answer_told, count_in};
ghost use Rattle.book.specs.Agreeing.{Follows, Expected, AnswersAgree, AgreesAt, Agrees};
ghost use Rattle.book.specs.Accepting.{Accepted, Unaccepted};

use crate::told::{answer_told, count_told, entry_at, spoiling_told};
use game::game::{Game, input_count, output_count};
use terms::count::Count;
use terms::refusal::Refusal;

// A record's first eight bytes for a count and a spoiling input.
// Kept: this, the header and the length stand in the solver's `layout` too, since the check shares no step with the solver.
fn front_of(count: Count, spoiling: Option<u8>) -> [u8; 8]
    ensures { result ≡ front count spoiling }
{
    let x = spoiling.unwrap_or(0);
    match count {
        Count::Lost => [0, 0, 0, 0, 0, 0, x, 0],
        Count::Limited(k) => [2, 0, 0, 0, (k / 256) as u8, (k % 256) as u8, x, 0],
        Count::Unlimited => [1, 0, 0, 0, 0, 0, x, 0],
    }
}

// A book that is judged against a game, as long as the game's own.
#[derive(Drop)]
struct Judged<'a, G: Game> {
    game: &'a G,
    book: &'a [u8],
    ghost long: { length book.now ≡ book_length (G.meaning game.now).size },
}

impl<G: Game> Judged<'_, G> {
    // The count where a move leads.
    fn move_count(&self, p: u8, x: u8, y: u8) -> Count
        ensures { result ≡ count_in self.now.book.now ((G.meaning self.now.game.now).move p x y) }
    {
        match self.game.step(p, x, y) {
            0 => Count::Lost,
            q => count_told(self.book, q),
        }
    }

    // The output whose move counts most, the lowest on ties.
    // Kept: a loop of its own, as the input's is, since the check shares no step with the solver, whose picks go by `best`.
    fn best_output(&self, p: u8, x: u8) -> u8
        ensures { Most (2 ^ (G.meaning self.now.game.now).outputs) (λ y. count_in self.now.book.now ((G.meaning self.now.game.now).move p x y)) result }
    {
        let mut best = 0;
        let mut high = self.move_count(p, x, 0);
        for y in 1..output_count(self.game) {
            let c = self.move_count(p, x, y);
            if !c.is_at_most(high) {
                best = y;
                high = c;
            }
        }
        best
    }

    // The count where the answer to x leads.
    fn answer_count(&self, p: u8, x: u8) -> Count
        ensures { result ≡ count_in self.now.book.now ((G.meaning self.now.game.now).move p x (answer_told self.now.book.now p x)) }
    {
        self.move_count(p, x, answer_told(self.book, p, x))
    }

    // The input whose answer leads to the least count, the lowest on ties.
    fn worst_input(&self, p: u8) -> u8
        ensures { Least (2 ^ (G.meaning self.now.game.now).inputs) (λ x. count_in self.now.book.now ((G.meaning self.now.game.now).move p x (answer_told self.now.book.now p x))) result }
    {
        let mut worst = 0;
        let mut low = self.answer_count(p, 0);
        for x in 1..input_count(self.game) {
            let c = self.answer_count(p, x);
            if !low.is_at_most(c) {
                worst = x;
                low = c;
            }
        }
        worst
    }

    // Whether the answer to x in the record of p is the best, and 0 where there is no such input.
    fn answer_agrees(&self, p: u8, x: u8) -> bool
        ensures { Decides result (Expected (G.meaning self.now.game.now) self.now.book.now p x (answer_told self.now.book.now p x)) }
    {
        let told = answer_told(self.book, p, x);
        if x >= input_count(self.game) {
            return told == 0;
        }
        told == self.best_output(p, x)
    }

    // Whether each answer in the record of p is right.
    fn answers_agree(&self, p: u8) -> bool
        ensures { Decides result (AnswersAgree (G.meaning self.now.game.now) self.now.book.now p) }
    {
        (0..16).all(|x| self.answer_agrees(p, x))
    }

    // Whether the count and the spoiling input of p follow from where its answers lead.
    fn count_follows(&self, p: u8) -> bool
        ensures { Decides result (Follows (count_told self.now.book.now p) (2 ^ (G.meaning self.now.game.now).inputs) (λ x. count_in self.now.book.now ((G.meaning self.now.game.now).move p x (answer_told self.now.book.now p x))) (spoiling_told self.now.book.now p)) }
    {
        let x = self.worst_input(p);
        let low = self.answer_count(p, x);
        match spoiling_told(self.book, p) {
            None => low == Count::Unlimited,
            Some(told) => told == x && count_told(self.book, p).is_one_more(low),
        }
    }

    // Whether the first eight bytes of the record of p are those of the count and the spoiling input that they tell.
    fn front_agrees(&self, p: u8) -> bool
        requires { Place (G.meaning self.now.game.now) p }
        ensures { Decides result (take 8 (drop (entry_at p) self.now.book.now) ≡ front (count_told self.now.book.now p) (spoiling_told self.now.book.now p)) }
    {
        let at = entry_at(p);
        let expected = front_of(count_told(self.book, p), spoiling_told(self.book, p));
        self.book[at..at + 8] == expected[..]
    }

    // Whether the record of p agrees with the records to which its moves lead.
    fn record_agrees(&self, p: u8) -> bool
        requires { Place (G.meaning self.now.game.now) p }
        ensures { Decides result (AgreesAt (G.meaning self.now.game.now) self.now.book.now p) }
    {
        self.front_agrees(p) && self.answers_agree(p) && self.count_follows(p)
    }

    // Whether each position's record agrees.
    fn records_agree(&self) -> bool
        ensures { Decides result ((p : ℕ) → Place (G.meaning self.now.game.now) p → AgreesAt (G.meaning self.now.game.now) self.now.book.now p) }
    {
        (1..=self.game.size()).all(|p| self.record_agrees(p))
    }

    // Whether the first eight bytes are the game's.
    fn header_agrees(&self) -> bool
        requires { 8 ≤ length self.now.book.now }
        ensures { Decides result (take 8 self.now.book.now ≡ header (G.meaning self.now.game.now)) }
    {
        let g = self.game;
        self.book[..8] == [1, g.inputs(), g.outputs(), g.size(), g.start(), 0, 0, 0]
    }

    // Whether the whole book agrees with the moves.
    fn agrees(&self) -> bool
        requires { 1 ≤ (G.meaning self.now.game.now).size }
        ensures { Decides result (Agrees (G.meaning self.now.game.now) self.now.book.now) }
    {
        self.header_agrees() && self.records_agree()
    }
}

// Accepts a book that is, byte by byte, the game's book.
pub fn accept<G: Game>(g: &G, book: &[u8]) -> Result<(), Refusal>
    ensures { MatchResult result (λ _. Accepted (G.meaning g.now) book.now) (Unaccepted (G.meaning g.now) book.now) }
{
    if g.size() == 0 {
        return Err(Refusal::SizeZero);
    }
    if book.len() != 8 + 24 * g.size() as usize {
        return Err(Refusal::NotThisBook);
    }
    let judged = Judged { game: g, book };
    if !judged.agrees() {
        return Err(Refusal::NotThisBook);
    }
    Ok(())
}
