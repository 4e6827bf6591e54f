// A game with its book, its rounds, and how they are written.
ghost use Rattle.std.specs.Prelude.{◌≡◌};
ghost use Rattle.book.specs.Told.{answer_told};

use crate::names::{GivenNames, Legend};
use book::told::answer_told;
use game::game::Game;
use run::play::Play;

// A game with its book, and how its rounds are written.
#[derive_where(Clone, Copy)]
pub struct Scene<'s, 'n, G> {
    pub play: Play<'s, G>,
    pub legend: Legend<'n>,
}

impl<'s, 'n, G: Game> Scene<'s, 'n, G> {
    // The rounds are written by the names of signals that the game's sources give.
    pub(crate) fn of(game: &'s G, book: &'s [u8], given: GivenNames<'n>) -> Scene<'s, 'n, G>
        ensures { (result.play.game.now ≡ game.now) × (result.play.book.now ≡ book.now) }
    {
        Scene {
            play: Play { game, book },
            legend: Legend::of(game, given),
        }
    }
}

// A round: its input, its output, and the position where it leads, 0 where it is lost.
// Kept: 0 is what a game's move says.
#[derive(Clone, Copy)]
pub struct Round {
    pub input: u8,
    pub output: u8,
    pub to: u8,
}

// The round of an input at a position, by the book's answer.
pub(crate) fn answered<G: Game>(play: &Play<'_, G>, position: u8, input: u8) -> Round
    ensures input { result.input ≡ input }
    ensures answer { result.output ≡ answer_told play.now.book.now position input }
    ensures leads { result.to ≡ (G.meaning play.now.game.now).move position input result.output }
{
    let output = answer_told(play.book, position, input);
    Round {
        input,
        output,
        to: play.game.step(position, input, output),
    }
}
