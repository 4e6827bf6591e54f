// Signals that are read in a round.
ghost use Rattle.std.specs.Prelude.{◌≡◌, ◌&&◌, true, bit_and, ◌==◌};
ghost use Rattle.compile.specs.Played.{played};
ghost use Rattle.compile.specs.Reads.{none, digit, mask_of, joined, Agree};

use crate::turn::Turn;
use rules::part::Signal;

// The digit of signal `k`, none where no round has it.
fn digit(k: u8) -> u8
    ensures { result ≡ digit k }
{
    if k < 8 { 1 << k } else { 0 }
}

// Signals of a round, by their digits: those among the inputs and those among the outputs.
#[derive(Clone, Copy)]
pub(crate) struct Mask {
    pub(crate) inputs: u8,
    pub(crate) outputs: u8,
}

impl Mask {
    // No signal.
    pub(crate) const NONE: Mask = Mask {
        inputs: 0,
        outputs: 0,
    };

    // A signal alone.
    pub(crate) fn of(signal: Signal) -> Mask
        ensures { result ≡ mask_of signal }
    {
        match signal {
            Signal::Input(k) => Mask {
                inputs: digit(k),
                outputs: 0,
            },
            Signal::Output(k) => Mask {
                inputs: 0,
                outputs: digit(k),
            },
        }
    }

    // The signals of both.
    pub(crate) fn join(self, other: Mask) -> Mask
        ensures { result ≡ joined self other }
    {
        Mask {
            inputs: self.inputs | other.inputs,
            outputs: self.outputs | other.outputs,
        }
    }

    // The round with all other signals off.
    pub(crate) fn shown(self, turn: Turn) -> Turn
        ensures { (result.input ≡ bit_and turn.input self.inputs) × (result.output ≡ bit_and turn.output self.outputs) }
    {
        Turn {
            input: turn.input & self.inputs,
            output: turn.output & self.outputs,
        }
    }

    // Whether two rounds are alike in these signals.
    pub(crate) fn hides(self, a: Turn, b: Turn) -> bool
        ensures value { result ≡ ((bit_and a.input self.inputs == bit_and b.input self.inputs) && (bit_and a.output self.outputs == bit_and b.output self.outputs)) }
        ensures agrees { result ≡ true → Agree self (played a) (played b) }
    {
        let one = self.shown(a);
        let other = self.shown(b);
        one.input == other.input && one.output == other.output
    }
}
