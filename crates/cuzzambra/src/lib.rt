// The library for C: each call of the crate `calls` under a name of its own. bindings/cuzzambra.h says what each one is
// given and gives.
#![tactic(auto)]

ghost use Rattle.std.specs.Prelude.{◌≡◌};
ghost use Rattle.calls.specs.Giving.{RuleMeans, RuleMisread, DiagramMeans, DiagramMisread, Gives, SolvedInto, Judged};
ghost use Rattle.calls.specs.Rows.{RowReplayed};

use calls::code::{Answer, CallCode};
use calls::outcome::Outcome;

#[unsafe(no_mangle)]
pub extern "C" fn cuzzambra_solve_rule(signals: &[u8], rule: &[u8], book: &mut [u8]) -> Outcome
    ensures { Gives (RuleMeans signals.now rule.now) (RuleMisread signals.now rule.now) (book.new ≡ book.old) (SolvedInto book.old book.new) result }
{
    calls::rule::solve_rule(signals, rule, book)
}

#[unsafe(no_mangle)]
pub extern "C" fn cuzzambra_solve_diagram(diagram: &[u8], book: &mut [u8]) -> Outcome
    ensures { Gives (DiagramMeans diagram.now) (DiagramMisread diagram.now) (book.new ≡ book.old) (SolvedInto book.old book.new) result }
{
    calls::diagram::solve_diagram(diagram, book)
}

#[unsafe(no_mangle)]
pub extern "C" fn cuzzambra_accept_rule(signals: &[u8], rule: &[u8], book: &[u8]) -> Outcome
    ensures { Gives (RuleMeans signals.now rule.now) (RuleMisread signals.now rule.now) Unit (Judged book.now) result }
{
    calls::rule::accept_rule(signals, rule, book)
}

#[unsafe(no_mangle)]
pub extern "C" fn cuzzambra_accept_diagram(diagram: &[u8], book: &[u8]) -> Outcome
    ensures { Gives (DiagramMeans diagram.now) (DiagramMisread diagram.now) Unit (Judged book.now) result }
{
    calls::diagram::accept_diagram(diagram, book)
}

#[unsafe(no_mangle)]
pub extern "C" fn cuzzambra_replay_rule(
    signals: &[u8],
    rule: &[u8],
    book: &[u8],
    row: &[CallCode],
    answers: &mut [Answer],
) -> Outcome
    ensures { Gives (RuleMeans signals.now rule.now) (RuleMisread signals.now rule.now) (answers.new ≡ answers.old) (λ a. RowReplayed a book.now row.now answers.old answers.new) result }
{
    calls::rule::replay_rule(signals, rule, book, row, answers)
}

#[unsafe(no_mangle)]
pub extern "C" fn cuzzambra_replay_diagram(
    diagram: &[u8],
    book: &[u8],
    row: &[CallCode],
    answers: &mut [Answer],
) -> Outcome
    ensures { Gives (DiagramMeans diagram.now) (DiagramMisread diagram.now) (answers.new ≡ answers.old) (λ a. RowReplayed a book.now row.now answers.old answers.new) result }
{
    calls::diagram::replay_diagram(diagram, book, row, answers)
}
