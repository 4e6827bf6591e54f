// The solution of a game: its values, by the ranks of its positions.
ghost use Rattle.std.specs.Prelude.{◌≡◌, ℕ, ◌^◌, ◌<◌, ◌≤◌, slice_index};
ghost use Rattle.arena.specs.Arena.{Place};
ghost use Rattle.terms.specs.Order.{Least};
ghost use Rattle.arena.specs.Values.{Values};
ghost use Rattle.book.specs.Ranks.{counts_of};

use crate::best::least;
use game::game::{Game, input_count, output_count};
use std::cmp::Reverse;
use terms::count::Count;

// A game that is solved: the rank of each position, one more than its count, where top stands for unlimited.
// Kept: ranks are numbers, since the sweeps need one above each count so far, and no count is.
#[derive(Drop)]
pub(crate) struct Solution<'a, G: Game> {
    pub(crate) game: &'a G,
    pub(crate) ranks: [u16; 256],
    pub(crate) top: u16,
    ghost low: { top ≤ 257 },
    ghost within: { (q : ℕ) → slice_index ranks q ≤ top },
    ghost counts: { (v : Values (G.meaning game.now)) (q : ℕ) → v.count q ≡ counts_of top ranks q },
}

// Kept: each method says for itself that p is a position. A struct of both would be one more type, for one caller.
impl<G: Game> Solution<'_, G> {
    // The count of q.
    #[tactic(auto, unfolding(crate::specs::Ranks::count_of))]
    pub(crate) fn count(&self, q: u8) -> Count
        ensures { (v : Values (G.meaning self.now.game.now)) → result ≡ v.count q }
    {
        match self.ranks[q as usize] {
            0 => Count::Lost,
            r if r >= self.top => Count::Unlimited,
            r => Count::Limited(r - 1),
        }
    }

    // The answer to x in p: the output whose move counts most.
    pub(crate) fn answer(&self, p: u8, x: u8) -> u8
        requires place { Place (G.meaning self.now.game.now) p }
        requires input { x < 2 ^ (G.meaning self.now.game.now).inputs }
        ensures { (v : Values (G.meaning self.now.game.now)) → result ≡ v.answer p x }
    {
        least(
            output_count(self.game),
            |y| Reverse(self.count(self.game.step(p, x, y))),
        )
    }

    // The input whose answer leads to the least count.
    fn worst_input(&self, p: u8) -> u8
        requires { Place (G.meaning self.now.game.now) p }
        ensures { (v : Values (G.meaning self.now.game.now)) → Least (2 ^ (G.meaning self.now.game.now).inputs) (λ x. v.count ((G.meaning self.now.game.now).move p x (v.answer p x))) result }
    {
        least(
            input_count(self.game),
            |x| self.count(self.game.step(p, x, self.answer(p, x))),
        )
    }

    // The spoiling input of p.
    pub(crate) fn spoiling(&self, p: u8) -> Option<u8>
        requires { Place (G.meaning self.now.game.now) p }
        ensures { (v : Values (G.meaning self.now.game.now)) → result ≡ v.spoiling p }
    {
        match self.count(p) {
            Count::Limited(_) => Some(self.worst_input(p)),
            _ => None,
        }
    }
}
