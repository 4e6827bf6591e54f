// Two games played side by side on the same signals.
ghost use Rattle.std.specs.Prelude.{◌≡◌, ℕ, ◌+◌, ◌-◌, ◌*◌, ◌%◌, ◌^◌, ◌<◌, ◌≤◌};
ghost use Rattle.arena.proofs.PairLaws.{pair_sound};
ghost use Rattle.arena.specs.Pair.{pair, joint, product};

use crate::game::{Game, input_count, output_count};
use crate::range::Extent;

// Signal k of the one is signal k of the other, and a round that either loses is lost.
#[derive(Drop)]
pub struct Pair<A, B> {
    pub first: A,
    pub second: B,
}

impl<A: Game, B: Game> Pair<A, B> {
    // The two games played side by side.
    pub fn of(first: A, second: B) -> Pair<A, B>
        ensures games { (result.first ≡ first) × (result.second ≡ second) }
        ensures means { ⟦<Pair<A, B> as Game>⟧.meaning result ≡ pair (A.meaning first) (B.meaning second) }
    {
        Pair { first, second }
    }
}

impl<A: Game, B: Game> Game for Pair<A, B> {
    ghost meaning = { λ s. pair (A.Game.meaning s.first) (B.Game.meaning s.second) };

    ghost sound = { λ s. pair_sound (A.Game.sound s.first) (B.Game.sound s.second) };

    fn size(&self) -> u8 {
        product_of(self.first.size(), self.second.size())
    }

    // Kept: two members of the trait, a line each.
    fn inputs(&self) -> u8 {
        self.first.inputs().max(self.second.inputs())
    }

    fn outputs(&self) -> u8 {
        self.first.outputs().max(self.second.outputs())
    }

    fn start(&self) -> u8 {
        if self.size() == 0 {
            return 0;
        }
        joint_of(self.second.size(), self.first.start(), self.second.start())
    }

    #[tactic(auto, using(arena::proofs::PairLaws::factors), unfolding(arena::specs::Arena::beyond, arena::specs::Pair::product, arena::specs::Pair::both))]
    fn step(&self, p: u8, x: u8, y: u8) -> u8 {
        let extent = Extent {
            size: self.size(),
            inputs: self.inputs(),
            outputs: self.outputs(),
        };
        if extent.is_outside(p, x, y) {
            return 0;
        }
        let q = p - 1;
        let n = self.second.size();
        let a = low_step(&self.first, q / n + 1, x, y);
        let b = low_step(&self.second, q % n + 1, x, y);
        joint_of(n, a, b)
    }
}

// The product of two sizes, or 0 where it is above 255.
#[tactic(auto, unfolding(arena::specs::Pair::product))]
fn product_of(m: u8, n: u8) -> u8
    ensures { result ≡ product m n }
{
    m.checked_mul(n).unwrap_or(0)
}

// The positions p and q as one, where the second game has n.
#[tactic(auto, unfolding(arena::specs::Pair::joint))]
fn joint_of(n: u8, p: u8, q: u8) -> u8
    requires { (p - 1) * n + q ≤ 255 }
    ensures { result ≡ joint n p q }
{
    if p == 0 || q == 0 {
        return 0;
    }
    (p - 1) * n + q
}

// The move of one of the two games, which reads the low bits.
fn low_step<G: Game>(g: &G, p: u8, x: u8, y: u8) -> u8
    ensures { result ≡ (G.meaning g.now).move p (x % 2 ^ (G.meaning g.now).inputs) (y % 2 ^ (G.meaning g.now).outputs) }
{
    g.step(p, x % input_count(g), y % output_count(g))
}
