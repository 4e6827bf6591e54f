// The moves of a game, as they are printed.
use game::game::{Game, output_count};
use std::fmt;

// What the outputs do at a position under an input.
#[derive(Drop)]
pub struct MovesUnder<'a, G> {
    pub game: &'a G,
    pub position: u8,
    pub input: u8,
}

impl<G: Game> fmt::Display for MovesUnder<'_, G> {
    fn fmt<W: fmt::Write>(&self, f: &mut fmt::Formatter<W>) -> fmt::Result {
        for output in 0..output_count(self.game) {
            if output > 0 {
                write!(f, ", ")?;
            }
            let result = Outcome(self.game.step(self.position, self.input, output));
            write!(f, "output {output} {result}")?;
        }
        Ok(())
    }
}

// Where a round leads, 0 where it is lost.
// Kept: it is what a game's move says.
#[derive(Clone, Copy)]
struct Outcome(u8);

impl fmt::Display for Outcome {
    fn fmt<W: fmt::Write>(&self, f: &mut fmt::Formatter<W>) -> fmt::Result {
        let p = self.0;
        match p {
            0 => write!(f, "lost"),
            _ => write!(f, "to {p}"),
        }
    }
}
