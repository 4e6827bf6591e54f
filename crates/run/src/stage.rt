// A run, with a round open or not.
ghost use Rattle.run.specs.Stages.{stage_position};

use crate::play::Play;
use crate::questions::Questions;
use crate::run::{Round, Run};
use terms::refusal::Refusal;

// Between rounds, or in an open one, which still has to be closed or abandoned.
pub enum Stage {
    Between(Run),
    Opened(Round),
}

impl Questions for Stage {
    ghost asked_at = { stage_position };

    fn position<G>(&self, play: &Play<'_, G>) -> Result<Option<u8>, Refusal> {
        match self {
            Stage::Between(run) => run.position(play),
            Stage::Opened(round) => round.position(play),
        }
    }
}
