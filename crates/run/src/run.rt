// A run between rounds, and an open round, as values that must be spent.
ghost use Rattle.std.specs.Prelude.{◌≡◌, ◌<◌, ◌≤◌, IfOk};
ghost use Rattle.run.specs.Calls.{IsNoRound, opening_at, open_at, consult_at, set_at, set_result};
ghost use Rattle.run.specs.Promise.{Started};

use crate::play::Play;
use crate::questions::{Questions, position_at};
use book::accept::accept;
use book::told::answer_told;
use game::game::{Game, input_count, output_count};
use terms::refusal::Refusal;

// A run between rounds.
#[derive(Drop)]
pub struct Run {
    // Kept: 0 where the run is lost, as a game's moves have it; an Option is what the question `position` tells.
    position: u8,
}

// An open round, by the position where it was opened, its input and its output so far. It has to be closed or abandoned.
pub struct Round {
    origin: u8,
    input: u8,
    output: u8,
}

impl Drop for Round {
    // No open round may be forgotten: of a round that `open` gave, no caller can show what this asks.
    fn drop(self)
        requires { IsNoRound self }
    {
        let Round {
            origin: _,
            input: _,
            output: _,
        } = self;
    }
}

// A refused opening gives the run back.
#[derive(Drop)]
pub struct Declined {
    pub run: Run,
    pub refusal: Refusal,
}

// The book's answer to an input that is opened at a position, or why it is refused.
// Kept: a play is given to every call, and an input to those that open a round.
fn opening<G: Game>(play: &Play<'_, G>, position: u8, input: u8) -> Result<u8, Refusal>
    ensures value { result ≡ opening_at (G.meaning play.now.game.now) play.now.book.now position input }
    ensures stands { IfOk result (λ _. (1 ≤ position) × (input < 16)) }
{
    let position = position_at(play.book, position)?.ok_or(Refusal::RunLost)?;
    if input >= input_count(play.game) {
        return Err(Refusal::OutOfRange);
    }
    Ok(answer_told(play.book, position, input))
}

impl Run {
    // A run of the game from its start, by its book.
    pub fn start<G: Game>(play: &Play<'_, G>) -> Result<Run, Refusal>
        ensures { Started (G.meaning play.now.game.now) play.now.book.now result }
    {
        accept(play.game, play.book)?;
        Ok(Run {
            position: play.game.start(),
        })
    }

    // Opens the round of an input, with the book's answer as its output.
    pub fn open<G: Game>(self, play: &Play<'_, G>, input: u8) -> Result<Round, Declined>
        ensures value { result ≡ open_at (G.meaning play.now.game.now) play.now.book.now self.position input }
        ensures stands { IfOk result (λ round. (1 ≤ round.origin) × (round.input < 16)) }
    {
        let position = self.position;
        let output = opening(play, position, input).map_err(|refusal| Declined {
            run: self,
            refusal,
        })?;
        Ok(Round {
            origin: position,
            input,
            output,
        })
    }

    // The book's answer to an input, with no round played.
    pub fn consult<G: Game>(self, play: &Play<'_, G>, input: u8) -> Result<(Run, u8), Declined>
        ensures { result ≡ consult_at (G.meaning play.now.game.now) play.now.book.now self.position input }
    {
        let round = self.open(play, input)?;
        let output = round.output();
        Ok((round.abandon(), output))
    }
}

impl Questions for Run {
    ghost asked_at = { λ run. run.position };

    fn position<G>(&self, play: &Play<'_, G>) -> Result<Option<u8>, Refusal> {
        position_at(play.book, self.position)
    }
}

impl Round {
    // The output that closing would bear now.
    pub fn output(&self) -> u8
        ensures { result ≡ self.now.output }
    {
        self.output
    }

    // No second round may be opened while one is open: of a round that `open` gave, no caller can show what this asks.
    // Kept: it uses nothing that it is given, since it is the call that is refused while a round is open.
    pub fn open<G>(self, _play: &Play<'_, G>, _input: u8) -> Round
        requires { IsNoRound self }
        ensures { result ≡ self }
    {
        self
    }

    // Replaces the output.
    pub fn set<G: Game>(&mut self, play: &Play<'_, G>, output: u8) -> Result<(), Refusal>
        ensures after { self.new ≡ set_at (G.meaning play.now.game.now) self.old output }
        ensures value { result ≡ set_result (G.meaning play.now.game.now) output }
    {
        if output >= output_count(play.game) {
            return Err(Refusal::OutOfRange);
        }
        self.output = output;
        Ok(())
    }

    // Ends the round by its move.
    pub fn close<G: Game>(self, play: &Play<'_, G>) -> Run
        ensures { result.position ≡ (G.meaning play.now.game.now).move self.origin self.input self.output }
    {
        let Round {
            origin,
            input,
            output,
        } = self;
        Run {
            position: play.game.step(origin, input, output),
        }
    }

    // Ends the round as if it had never been opened.
    pub fn abandon(self) -> Run
        ensures { result.position ≡ self.origin }
    {
        let Round {
            origin,
            input: _,
            output: _,
        } = self;
        Run { position: origin }
    }
}

impl Questions for Round {
    ghost asked_at = { λ round. round.origin };

    fn position<G>(&self, play: &Play<'_, G>) -> Result<Option<u8>, Refusal> {
        position_at(play.book, self.origin)
    }
}
