// Solving a game.
ghost use Rattle.std.specs.Result.{MatchResult};
ghost use Rattle.arena.specs.Held.{InTime};
ghost use Rattle.book.specs.Solving.{Solved, Declined};

use crate::layout::book_length;
use crate::sweep::settle;
use game::game::Game;
use game::table::MoveTable;
use terms::refusal::Refusal;

// Solves a game into its book and says how many bytes that takes. No game needs a 257th sweep.
pub fn solve<G: Game>(g: &G, book: &mut [u8]) -> Result<usize, Refusal>
    ensures solves { MatchResult result (Solved (G.meaning g.now) book.old book.new) (Declined (G.meaning g.now) book.old book.new) }
    ensures in_time { InTime (G.meaning g.now) }
{
    if g.size() == 0 {
        return Err(Refusal::SizeZero);
    }
    let table = MoveTable::of(g);
    let solution = settle(&table).ok_or(Refusal::TooManySweeps)?;
    let len = book_length(g);
    if book.len() < len {
        return Err(Refusal::StoreTooShort);
    }
    solution.write_book(&mut book[..len]);
    Ok(len)
}
