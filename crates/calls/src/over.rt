// The calls over any game.
ghost use Rattle.calls.specs.Giving.{Comes, SolvedInto, Judged};
ghost use Rattle.calls.specs.Rows.{RowReplayed};

use crate::code::{Answer, CallCode};
use crate::outcome::Outcome;
use crate::row::replay;
use book::accept::accept;
use book::solve::solve;
use game::game::Game;
use run::play::Play;

pub(crate) fn solve_game<G: Game>(game: &G, book: &mut [u8]) -> Outcome
    ensures { Comes (SolvedInto book.old book.new (G.meaning game.now)) result }
{
    Outcome::of(solve(game, book))
}

pub(crate) fn accept_book<G: Game>(game: &G, book: &[u8]) -> Outcome
    ensures { Comes (Judged book.now (G.meaning game.now)) result }
{
    Outcome::of(accept(game, book).map(|()| book.len()))
}

pub(crate) fn replay_row<G: Game>(
    game: &G,
    book: &[u8],
    row: &[CallCode],
    answers: &mut [Answer],
) -> Outcome
    ensures { Comes (RowReplayed (G.meaning game.now) book.now row.now answers.old answers.new) result }
{
    Outcome::of(replay(&Play { game, book }, row, answers))
}
