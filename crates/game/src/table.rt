// A game whose moves are looked up: each is asked of another game once.
ghost use Rattle.std.specs.Prelude.{◌≡◌, ◌+◌, ◌*◌, ◌<◌, slice_index};
ghost use Rattle.game.specs.Moves.{HasMoves};

use crate::game::{Game, input_count, output_count};

// A game with its moves in a table: 16 rows for each position, one for an input, of 16 outputs each.
#[derive(Drop)]
pub struct MoveTable<'a, G: Game> {
    pub(crate) game: &'a G,
    moves: [u8; 65536],
    ghost whole: { HasMoves (G.meaning game.now) moves },
}

impl<'a, G: Game> MoveTable<'a, G> {
    // Asks a game once for each move that it has; no other move leads anywhere.
    pub fn of(game: &'a G) -> MoveTable<'a, G>
        ensures game { result.game.now ≡ game.now }
        ensures means { ⟦<MoveTable<'a, G> as Game>⟧.meaning result ≡ G.meaning game.now }
    {
        let mut moves = [0; 65536];
        for p in 1..game.size() as usize + 1 {
            for x in 0..input_count(game) as usize {
                for y in 0..output_count(game) as usize {
                    moves[256 * p + 16 * x + y] = game.step(p as u8, x as u8, y as u8);
                }
            }
        }
        MoveTable { game, moves }
    }
}

impl<G: Game> Game for MoveTable<'_, G> {
    ghost meaning = { λ t. G.Game.meaning t.game.now };

    ghost sound = { λ t. G.Game.sound t.game.now };

    fn size(&self) -> u8 {
        self.game.size()
    }

    fn inputs(&self) -> u8 {
        self.game.inputs()
    }

    fn outputs(&self) -> u8 {
        self.game.outputs()
    }

    fn start(&self) -> u8 {
        self.game.start()
    }

    fn step(&self, p: u8, x: u8, y: u8) -> u8 {
        if x >= 16 || y >= 16 {
            return 0;
        }
        self.moves[p as usize * 256 + x as usize * 16 + y as usize]
    }
}
