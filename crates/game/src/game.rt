// What a game is to the solver and to runs.
ghost use Rattle.std.specs.Prelude.{◌≡◌, ℕ, ◌^◌, ◌<◌, ◌≤◌};
ghost use Rattle.arena.specs.Arena.{Arena, Sound};

use crate::range::count_of;

// A game, by the five things that it means. A question out of range is answered 0.
// Kept: 0 for a lost move and for more than 255 positions is what a game is in this product.
pub trait Game {
    ghost meaning: { Self → Arena };

    // Every game shows that its meaning keeps the laws.
    ghost sound: { (g : Self) → Sound (meaning g) };

    // The number of positions, 0 where there are more than 255.
    fn size(&self) -> u8
        ensures { result ≡ (meaning self.now).size };

    // The number of input signals.
    fn inputs(&self) -> u8
        ensures { result ≡ (meaning self.now).inputs };

    // The number of output signals.
    fn outputs(&self) -> u8
        ensures { result ≡ (meaning self.now).outputs };

    // The position before the first round.
    fn start(&self) -> u8
        ensures { result ≡ (meaning self.now).start };

    // Where a round leads from position p, under input x and output y: 0 where it is lost.
    // Kept: three numbers, as a move has them wherever it is defined.
    fn step(&self, p: u8, x: u8, y: u8) -> u8
        ensures { result ≡ (meaning self.now).move p x y };
}

// How many inputs a round can have.
// Kept: of outputs it is the same, a line each, as the trait has the two numbers.
pub fn input_count<G: Game>(g: &G) -> u8
    ensures { (result ≡ 2 ^ (G.meaning g.now).inputs) × (result ≤ 16) }
{
    count_of(g.inputs())
}

// How many outputs a round can have.
pub fn output_count<G: Game>(g: &G) -> u8
    ensures { (result ≡ 2 ^ (G.meaning g.now).outputs) × (result ≤ 16) }
{
    count_of(g.outputs())
}
