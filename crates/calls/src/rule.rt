// The calls over the two texts of a rule.
ghost use Rattle.std.specs.Prelude.{◌≡◌, ◌≤◌, length};
ghost use Rattle.calls.specs.Giving.{Compiled as Compiling, RuleMeans, RuleMisread, Gives, SolvedInto, Judged};
ghost use Rattle.calls.specs.Rows.{RowReplayed};

use crate::code::{Answer, CallCode};
use crate::outcome::Outcome;
use crate::over::{accept_book, replay_row, solve_game};
use compile::compile::compile;
use compile::compiled::Compiled;
use compile::position::Position;
use reader::texts::Misread;
use rules::part::Part;
use words::name::Name;

// Compiles the rule of the texts, and keeps of it what its game has.
fn compiled(signals: &[u8], rule: &[u8], positions: &mut [Position]) -> Result<Compiled, Misread>
    requires { 255 ≤ length positions.old }
    ensures { Compiling signals.now rule.now result positions.new }
{
    let mut names = [Name::default(); 8];
    let mut parts = [Part::True; 64];
    compile(signals, rule, &mut names, &mut parts, positions)
}

// Solves the game of the rule into its book.
pub fn solve_rule(signals: &[u8], rule: &[u8], book: &mut [u8]) -> Outcome
    ensures { Gives (RuleMeans signals.now rule.now) (RuleMisread signals.now rule.now) (book.new ≡ book.old) (SolvedInto book.old book.new) result }
{
    let mut positions = [Position::unused(); 255];
    match compiled(signals, rule, &mut positions) {
        Ok(numbers) => solve_game(&numbers.game(&positions), book),
        Err(misread) => Outcome::misread(misread),
    }
}

// Accepts a book that is the one of the rule's game.
pub fn accept_rule(signals: &[u8], rule: &[u8], book: &[u8]) -> Outcome
    ensures { Gives (RuleMeans signals.now rule.now) (RuleMisread signals.now rule.now) Unit (Judged book.now) result }
{
    let mut positions = [Position::unused(); 255];
    match compiled(signals, rule, &mut positions) {
        Ok(numbers) => accept_book(&numbers.game(&positions), book),
        Err(misread) => Outcome::misread(misread),
    }
}

// Carries a row of calls through a run of the rule's game, by its book.
pub fn replay_rule(
    signals: &[u8],
    rule: &[u8],
    book: &[u8],
    row: &[CallCode],
    answers: &mut [Answer],
) -> Outcome
    ensures { Gives (RuleMeans signals.now rule.now) (RuleMisread signals.now rule.now) (answers.new ≡ answers.old) (λ a. RowReplayed a book.now row.now answers.old answers.new) result }
{
    let mut positions = [Position::unused(); 255];
    match compiled(signals, rule, &mut positions) {
        Ok(numbers) => replay_row(&numbers.game(&positions), book, row, answers),
        Err(misread) => Outcome::misread(misread),
    }
}
