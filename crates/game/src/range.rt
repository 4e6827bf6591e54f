// The range of a game's questions.
ghost use Rattle.std.specs.Prelude.{◌≡◌, ◌^◌, ◌≤◌, ◌||◌, nat_lt};
ghost use Rattle.arena.specs.Arena.{beyond};

// How many numbers have so many bits.
// Kept: it asks for at most four, so it is no public call; the compiled rule has its own, of another width.
pub(crate) fn count_of(bits: u8) -> u8
    requires { bits ≤ 4 }
    ensures { (result ≡ 2 ^ bits) × (result ≤ 16) }
{
    1 << bits
}

// How many positions a game has, and how many signals each way.
// Kept: each game's step names the three; a function over any game that named them would lead back to the step, and a
// call of it there gets no proof.
#[derive(Clone, Copy)]
pub struct Extent {
    pub size: u8,
    pub inputs: u8,
    pub outputs: u8,
}

impl Extent {
    // Whether a question is out of range. Where there are more than four signals, every question is.
    #[tactic(auto, unfolding(arena::specs::Arena::beyond))]
    pub fn is_outside(&self, p: u8, x: u8, y: u8) -> bool
        ensures { result ≡ (nat_lt 4 self.now.inputs || (nat_lt 4 self.now.outputs || beyond self.now.size self.now.inputs self.now.outputs p x y)) }
    {
        self.inputs > 4
            || self.outputs > 4
            || p == 0
            || p > self.size
            || x >= count_of(self.inputs)
            || y >= count_of(self.outputs)
    }
}
