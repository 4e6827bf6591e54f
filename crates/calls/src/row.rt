// A row of calls over any game.
ghost use Rattle.std.specs.Prelude.{◌≡◌, Some};
ghost use Rattle.terms.specs.declared.call.Call.{Call};
ghost use Rattle.run.specs.Stages.{stage_after};
ghost use Rattle.calls.specs.Codes.{call_of};
ghost use Rattle.calls.specs.Rows.{strange_at, answer_at, RowReplayed};

use crate::code::{Answer, CallCode};
use game::game::Game;
use run::play::Play;
use run::questions::Questions;
use run::replay::{finish, take};
use run::run::Run;
use run::stage::Stage;
use terms::call::Step;
use terms::refusal::Refusal;

// Makes a run and carries a row of calls through it, and says how many answers it wrote. Refused, it writes none.
pub(crate) fn replay<G: Game>(
    play: &Play<'_, G>,
    row: &[CallCode],
    answers: &mut [Answer],
) -> Result<usize, Refusal>
    ensures { RowReplayed (G.meaning play.now.game.now) play.now.book.now row.now answers.old answers.new result }
{
    if answers.len() < row.len() {
        return Err(Refusal::StoreTooShort);
    }
    if let Some(k) = strange(row) {
        return Err(Refusal::StrangeByte(k));
    }
    let mut stage = Stage::Between(Run::start(play)?);
    for (i, code) in row.iter().enumerate() {
        let (next, answer) = answered(stage, play, *code);
        stage = next;
        match answer {
            Ok(answer) => answers[i] = answer,
            // Kept: an open round has to be spent before the refusal is handed on.
            Err(refusal) => {
                let _ = finish(stage, play);
                return Err(refusal);
            }
        }
    }
    let _ = finish(stage, play);
    Ok(row.len())
}

// The first that is no call.
fn strange(row: &[CallCode]) -> Option<usize>
    ensures { result ≡ strange_at row.now }
{
    row.iter().position(|code| code.call().is_none())
}

// One call, with its answer.
// Kept: a code is read where its call is made, so that no row of calls has to be stored; one that is no call, which a row
// that is carried through does not have, leaves the stage as it is.
fn answered<G: Game>(
    stage: Stage,
    play: &Play<'_, G>,
    code: CallCode,
) -> (Stage, Result<Answer, Refusal>)
    ensures after { (c : Call) → call_of code ≡ Some c → result.0 ≡ stage_after (G.meaning play.now.game.now) play.now.book.now c stage }
    ensures told { (c : Call) → call_of code ≡ Some c → result.1 ≡ answer_at (G.meaning play.now.game.now) play.now.book.now c stage }
{
    let Some(call) = code.call() else {
        return (stage, Err(Refusal::StrangeByte(0)));
    };
    let (next, reply) = take(stage, play, call);
    let answer = next
        .standing(play)
        .map(|standing| Answer::of(Step { reply, standing }));
    (next, answer)
}
