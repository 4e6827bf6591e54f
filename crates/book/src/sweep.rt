// Sweeping over a game's positions until no sweep drops one.
ghost use Rattle.std.specs.Prelude.{◌≡◌, ℕ, suc, ◌+◌, ◌^◌, ◌<◌, ◌≤◌, Decides, MatchOption};
ghost use Rattle.arena.specs.Arena.{Place};
ghost use Rattle.arena.specs.Held.{Held, Answered, Keeps, Settled};
ghost use Rattle.book.specs.Ranks.{Ranks, Amid, Over};

use crate::solution::Solution;
use game::game::{Game, input_count, output_count};

// A game in the course of the sweeps: the rank of each position so far.
#[derive(Drop)]
struct Sweeps<'a, G> {
    game: &'a G,
    ranks: [u16; 256],
}

impl<'a, G: Game> Sweeps<'a, G> {
    // Before the first sweep.
    fn begin(game: &'a G) -> Sweeps<'a, G>
        ensures same { result.game.now ≡ game.now }
        ensures ranks { Ranks (G.meaning game.now) 0 result.ranks }
    {
        let mut ranks = [0; 256];
        ranks[1..=game.size() as usize].fill(1);
        Sweeps { game, ranks }
    }

    // Whether some output answers x with a move to a position of rank above k.
    // Kept: the number of the sweep goes along, since within a sweep the ranks are of two sweeps.
    fn is_answered(&self, k: u16, p: u8, x: u8) -> bool
        ensures { Decides result (Answered (G.meaning self.now.game.now) (Over self.now.ranks k) p x) }
    {
        (0..output_count(self.game)).any(|y| self.ranks[self.game.step(p, x, y) as usize] > k)
    }

    // Whether each input has such an output.
    fn keeps(&self, k: u16, p: u8) -> bool
        ensures { Decides result (Keeps (G.meaning self.now.game.now) (Over self.now.ranks k) p) }
    {
        (0..input_count(self.game)).all(|x| self.is_answered(k, p, x))
    }

    // The turn of p in the sweep after k: whether p was not dropped.
    fn raise(&mut self, k: u16, p: u8) -> bool
        requires small { k ≤ 255 }
        requires place { Place (G.meaning self.old.game.now) p }
        requires before { Amid (G.meaning self.old.game.now) k p self.old.ranks }
        ensures same { self.new.game.now ≡ self.old.game.now }
        ensures after { Amid (G.meaning self.old.game.now) k (p + 1) self.new.ranks }
        ensures kept { Decides result (Held (G.meaning self.old.game.now) k p → Held (G.meaning self.old.game.now) (suc k) p) }
    {
        if self.ranks[p as usize] <= k {
            return true;
        }
        let kept = self.keeps(k, p);
        if kept {
            self.ranks[p as usize] = k + 2;
        }
        kept
    }

    // The sweep after k: whether no position was dropped.
    fn sweep(&mut self, k: u16) -> bool
        requires small { k ≤ 255 }
        requires before { Ranks (G.meaning self.old.game.now) k self.old.ranks }
        ensures same { self.new.game.now ≡ self.old.game.now }
        ensures after { Ranks (G.meaning self.old.game.now) (suc k) self.new.ranks }
        ensures settled { Decides result (Settled (G.meaning self.old.game.now) k) }
    {
        let mut none = true;
        for p in 1..=self.game.size() {
            none &= self.raise(k, p);
        }
        none
    }
}

// Sweeps until none is dropped, at most 256 times.
pub(crate) fn settle<'a, G: Game>(game: &'a G) -> Option<Solution<'a, G>>
    ensures { MatchOption result ((k : ℕ) → k ≤ 255 → Settled (G.meaning game.now) k → ⊥) (λ s. s.game.now ≡ game.now) }
{
    let mut sweeps = Sweeps::begin(game);

    // Kept: each sweep changes the ranks for the next, so `find` would be no plainer: its test would write.
    for k in 0..256 {
        if sweeps.sweep(k) {
            return Some(Solution {
                game,
                ranks: sweeps.ranks,
                top: k + 2,
            });
        }
    }
    None
}
