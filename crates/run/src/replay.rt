// A row of calls, from the making of the run to its end.
ghost use Rattle.std.specs.Prelude.{◌≡◌};
ghost use Rattle.run.specs.Stages.{stage_reply, stage_after, stage_position, standing_at};
ghost use Rattle.run.specs.Promise.{Replayed};

use crate::play::Play;
use crate::questions::Questions;
use crate::run::{Declined, Run};
use crate::stage::Stage;
use game::game::Game;
use terms::call::{Call, Reply, Standing, Step};
use terms::refusal::Refusal;

// Any call: carried out where it is allowed, and told.
pub fn take<G: Game>(stage: Stage, play: &Play<'_, G>, call: Call) -> (Stage, Reply)
    ensures after { result.0 ≡ stage_after (G.meaning play.now.game.now) play.now.book.now call stage }
    ensures told { result.1 ≡ stage_reply (G.meaning play.now.game.now) play.now.book.now call stage }
{
    match (stage, call) {
        (stage, Call::AskPosition) => {
            let answer = stage.position(play);
            (stage, answer.map_or_else(Reply::Refused, Reply::Position))
        }
        (stage, Call::AskCount) => {
            let answer = stage.count_left(play);
            (stage, answer.map_or_else(Reply::Refused, Reply::Left))
        }
        (stage, Call::AskSpoiling) => {
            let answer = stage.spoiling_input(play);
            (stage, answer.map_or_else(Reply::Refused, Reply::Spoiling))
        }
        (Stage::Between(run), Call::Open(input)) => match run.open(play, input) {
            Ok(round) => {
                let output = round.output();
                (Stage::Opened(round), Reply::Output(output))
            }
            Err(Declined { run, refusal }) => (Stage::Between(run), Reply::Refused(refusal)),
        },
        (Stage::Opened(mut round), Call::Set(output)) => {
            let answer = round.set(play, output);
            (
                Stage::Opened(round),
                answer.map_or_else(Reply::Refused, |()| Reply::Changed),
            )
        }
        (Stage::Opened(round), Call::Close) => (Stage::Between(round.close(play)), Reply::Closed),
        (Stage::Opened(round), Call::Abandon) => (
            Stage::Between(round.abandon()),
            Reply::Abandoned,
        ),
        (stage, _) => (stage, Reply::NotAllowed),
    }
}

// Ends a run, giving an open round up.
pub fn finish<G>(stage: Stage, play: &Play<'_, G>) -> Result<Standing, Refusal>
    ensures { result ≡ standing_at play.now.book.now (stage_position stage) }
{
    let standing = stage.standing(play);
    match stage {
        Stage::Between(_) => {}
        Stage::Opened(round) => {
            let _ = round.abandon();
        }
    }
    standing
}

// Makes a run and carries a row of calls through it, each given what the calls before it left.
pub fn replay<G: Game>(
    play: &Play<'_, G>,
    row: &[Call],
    steps: &mut [Step],
) -> Result<Standing, Refusal>
    ensures { Replayed (G.meaning play.now.game.now) play.now.book.now row.now steps.old steps.new result }
{
    if steps.len() < row.len() {
        return Err(Refusal::StoreTooShort);
    }
    let mut stage = Stage::Between(Run::start(play)?);
    // Kept: by index, since a loop over `iter_mut` in a `zip` leaves open what it wrote, which is the goal `returns`.
    for (i, call) in row.iter().enumerate() {
        let (next, reply) = take(stage, play, *call);
        stage = next;
        match stage.standing(play) {
            Ok(standing) => steps[i] = Step { reply, standing },
            // Kept: an open round has to be spent before the refusal is handed on.
            Err(refusal) => {
                let _ = finish(stage, play);
                return Err(refusal);
            }
        }
    }
    finish(stage, play)
}
