// Rounds and their numbers.
ghost use Rattle.std.specs.Prelude.{◌≡◌, ◌^◌, ◌<◌, ◌≤◌};
ghost use Rattle.compile.specs.Positions.{turn_number, turn_at};
ghost use Rattle.compile.specs.Played.{played};

// How many numbers so many signals have.
pub(crate) fn count_of(signals: u8) -> usize
    requires { signals ≤ 4 }
    ensures { (result ≡ 2 ^ signals) × (result ≤ 16) }
{
    1 << signals
}

// A round: the number of its input and that of its output.
// Kept: its calls ask for at most four output signals, since `Signals` may hold any numbers: calls over it are total.
#[derive(Clone, Copy)]
pub(crate) struct Turn {
    pub(crate) input: u8,
    pub(crate) output: u8,
}

impl Turn {
    // The round of a number, with so many output signals.
    pub(crate) fn at(number: usize, outputs: u8) -> Turn
        requires { (number < 256) × (outputs ≤ 4) }
        ensures { played result ≡ turn_at outputs number }
    {
        let count = count_of(outputs);
        Turn {
            input: (number / count) as u8,
            output: (number % count) as u8,
        }
    }

    // The number of the round.
    pub(crate) fn number(self, outputs: u8) -> usize
        requires { (outputs ≤ 4) × ((self.input < 16) × (self.output < 2 ^ outputs)) }
        ensures { (result ≡ turn_number outputs self.input self.output) × (result < 256) }
    {
        self.input as usize * count_of(outputs) + self.output as usize
    }
}
