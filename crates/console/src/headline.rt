// A game's numbers, as the first line of what is printed.
ghost use Rattle.std.specs.Prelude.{◌≡◌};

use crate::phrases::Several;
use game::game::Game;
use std::fmt;

// What the first line says of a game.
#[derive(Clone, Copy)]
pub struct Headline {
    pub inputs: u8,
    pub outputs: u8,
    pub size: u8,
    pub start: u8,
}

impl Headline {
    pub(crate) fn of<G: Game>(game: &G) -> Headline
        ensures signals { (result.inputs ≡ (G.meaning game.now).inputs) × (result.outputs ≡ (G.meaning game.now).outputs) }
        ensures positions { (result.size ≡ (G.meaning game.now).size) × (result.start ≡ (G.meaning game.now).start) }
    {
        Headline {
            inputs: game.inputs(),
            outputs: game.outputs(),
            size: game.size(),
            start: game.start(),
        }
    }
}

impl fmt::Display for Headline {
    fn fmt<W: fmt::Write>(&self, f: &mut fmt::Formatter<W>) -> fmt::Result {
        let inputs = Several(u32::from(self.inputs), "input");
        let outputs = Several(u32::from(self.outputs), "output");
        let positions = Several(u32::from(self.size), "position");
        let start = self.start;
        write!(f, "game: {inputs}, {outputs}, {positions}, start {start}")
    }
}
