// The calls over a diagram.
ghost use Rattle.std.specs.Prelude.{◌≡◌};
ghost use Rattle.calls.specs.Giving.{DiagramMeans, DiagramMisread, Gives, SolvedInto, Judged};
ghost use Rattle.calls.specs.Rows.{RowReplayed};

use crate::code::{Answer, CallCode};
use crate::outcome::Outcome;
use crate::over::{accept_book, replay_row, solve_game};
use game::diagram::Diagram;

// Solves the game that the bytes draw into its book.
pub fn solve_diagram(diagram: &[u8], book: &mut [u8]) -> Outcome
    ensures { Gives (DiagramMeans diagram.now) (DiagramMisread diagram.now) (book.new ≡ book.old) (SolvedInto book.old book.new) result }
{
    match Diagram::read(diagram) {
        Ok(game) => solve_game(&game, book),
        Err(refusal) => Outcome::refused(refusal),
    }
}

// Accepts a book that is the one of the game that the bytes draw.
pub fn accept_diagram(diagram: &[u8], book: &[u8]) -> Outcome
    ensures { Gives (DiagramMeans diagram.now) (DiagramMisread diagram.now) Unit (Judged book.now) result }
{
    match Diagram::read(diagram) {
        Ok(game) => accept_book(&game, book),
        Err(refusal) => Outcome::refused(refusal),
    }
}

// Carries a row of calls through a run of the game that the bytes draw, by its book.
pub fn replay_diagram(
    diagram: &[u8],
    book: &[u8],
    row: &[CallCode],
    answers: &mut [Answer],
) -> Outcome
    ensures { Gives (DiagramMeans diagram.now) (DiagramMisread diagram.now) (answers.new ≡ answers.old) (λ a. RowReplayed a book.now row.now answers.old answers.new) result }
{
    match Diagram::read(diagram) {
        Ok(game) => replay_row(&game, book, row, answers),
        Err(refusal) => Outcome::refused(refusal),
    }
}
