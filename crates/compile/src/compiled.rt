// A compiled rule as a game.
ghost use Rattle.std.specs.Prelude.{◌≡◌, ◌^◌, ◌<◌, ◌≤◌};
ghost use Rattle.arena.proofs.TabledLaws.{tabled_sound};
ghost use Rattle.arena.specs.Tabled.{offered};
ghost use Rattle.compile.specs.TableGame.{arena_in, move_in};

use crate::position::Position;
use crate::turn::Turn;
use game::game::Game;
use game::range::Extent;

// The numbers of a compiled rule.
#[derive(Clone, Copy)]
pub struct Compiled {
    pub inputs: u8,
    pub outputs: u8,
    pub positions: u8,
}

// A compiled rule with the store that has its positions.
#[derive(Clone, Copy)]
pub struct CompiledRule<'p> {
    numbers: Compiled,
    positions: &'p [Position],
}

impl Compiled {
    // The game of these numbers with the moves in the store.
    pub fn game<'p>(self, positions: &'p [Position]) -> CompiledRule<'p>
        ensures fields { (result.numbers ≡ self) × (result.positions.now ≡ positions.now) }
        ensures means { ⟦<CompiledRule<'p> as Game>⟧.meaning result ≡ arena_in self positions.now }
    {
        CompiledRule {
            numbers: self,
            positions,
        }
    }

    // The number k, or 0 where the numbers can be no game's.
    // Kept: any numbers may stand in the struct, and 0 is what a game says where there is none.
    fn offered(self, k: u8) -> u8
        ensures { result ≡ offered self.positions self.inputs self.outputs k }
    {
        if self.inputs <= 4 && self.outputs <= 4 && self.positions >= 1 {
            k
        } else {
            0
        }
    }
}

// What the store says of the move from p by a round, with so many output signals: 0 where it has no entry for p.
// Kept: 0 for lost and for what is out of range is what a game is in this product.
fn move_in(positions: &[Position], outputs: u8, p: u8, turn: Turn) -> u8
    requires { (outputs ≤ 4) × ((1 ≤ p) × ((turn.input < 16) × (turn.output < 2 ^ outputs))) }
    ensures { result ≡ move_in outputs positions.now p turn.input turn.output }
{
    let Some(position) = positions.get(p as usize - 1) else {
        return 0;
    };
    position.moves[turn.number(outputs)]
}

impl Game for CompiledRule<'_> {
    ghost meaning = { λ g. arena_in g.numbers g.positions.now };

    ghost sound = { λ g. tabled_sound g.numbers.positions g.numbers.inputs g.numbers.outputs (move_in g.numbers.outputs g.positions.now) };

    fn size(&self) -> u8 {
        self.numbers.offered(self.numbers.positions)
    }

    fn inputs(&self) -> u8 {
        self.numbers.offered(self.numbers.inputs)
    }

    fn outputs(&self) -> u8 {
        self.numbers.offered(self.numbers.outputs)
    }

    fn start(&self) -> u8 {
        self.numbers.offered(1)
    }

    fn step(&self, p: u8, x: u8, y: u8) -> u8 {
        let extent = Extent {
            size: self.size(),
            inputs: self.inputs(),
            outputs: self.outputs(),
        };
        if extent.is_outside(p, x, y) {
            return 0;
        }
        let turn = Turn {
            input: x,
            output: y,
        };
        let q = move_in(self.positions, extent.outputs, p, turn);
        if q <= extent.size { q } else { 0 }
    }
}
