// The worked examples: eight rules over one input, door, and one output, lock; a pair of two of them; and a diagram.
ghost use Rattle.std.specs.Prelude.{◌≡◌};
ghost use Rattle.worked.specs.Worked.{signals, text, image};

// An example, named by what it asks.
#[derive(Clone, Copy, PartialEq, Eq, Debug)]
pub enum Example {
    True,
    False,
    NextFalse,
    Guard,
    Follow,
    Later,
    Clash,
    Release,
    Paired,
    Drawn,
}

// All of them, in the order in which they are shown.
pub const ALL: [Example; 10] = [
    Example::True,
    Example::False,
    Example::NextFalse,
    Example::Guard,
    Example::Follow,
    Example::Later,
    Example::Clash,
    Example::Release,
    Example::Paired,
    Example::Drawn,
];

impl Example {
    // The text of its rule; a pair and a diagram have none.
    #[tactic(auto, unfolding(crate::specs::Worked::text))]
    pub fn text(self) -> &'static [u8]
        ensures { result.now ≡ text self }
    {
        match self {
            Example::True => b"true",
            Example::False => b"false",
            Example::NextFalse => b"X false",
            Example::Guard => b"G (!door | lock)",
            Example::Follow => b"G (!door | X lock)",
            Example::Later => b"X X door",
            Example::Clash => b"X lock & X !lock",
            Example::Release => b"lock R door",
            Example::Paired | Example::Drawn => b"",
        }
    }
}
