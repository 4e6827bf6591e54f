// The names of a rule's signals, and how the inputs and outputs of rounds are written.
use game::game::Game;
use rules::part::Signal;
use std::alloc::AllocError;
use std::fmt;
use words::name::Name;
use words::signals::Signals;

// The names of a rule's signals, in their order.
#[derive(Drop)]
pub struct Names {
    pub inputs: Vec<String>,
    pub outputs: Vec<String>,
}

impl Names {
    // The names of so many signals, the inputs first.
    pub(crate) fn of(
        rt: &HostRuntime,
        names: &[Name],
        signals: Signals,
    ) -> Result<Names, AllocError> {
        let inputs = names.iter().take(signals.inputs as usize);
        let outputs = names.iter().skip(signals.inputs as usize);
        Ok(Names {
            inputs: inputs
                .map(|name| text_of(rt, name))
                .try_collect(rt.alloc())?,
            outputs: outputs
                .take(signals.outputs as usize)
                .map(|name| text_of(rt, name))
                .try_collect(rt.alloc())?,
        })
    }

    pub(crate) fn name(&self, signal: Signal) -> &str {
        let (names, k) = match signal {
            Signal::Input(k) => (self.inputs.as_slice(), k),
            Signal::Output(k) => (self.outputs.as_slice(), k),
        };
        names.get(k as usize).map_or("", |name| name.as_str())
    }
}

// A name without the zeros behind it.
fn text_of(rt: &HostRuntime, name: &Name) -> Result<String, AllocError> {
    let bytes = name.bytes.split(|b| *b == 0).next().unwrap_or(&[]);
    String::from_utf8_lossy(rt.alloc(), bytes)
}

// The names that two sources give, none where a source is no rule or is not there.
pub type GivenNames<'n> = [Option<&'n Names>; 2];

// How the inputs and the outputs of a game's rounds are written.
#[derive(Clone, Copy)]
pub struct Legend<'n> {
    pub inputs: Spelling<'n>,
    pub outputs: Spelling<'n>,
}

impl<'n> Legend<'n> {
    // By the names of the first source that names all signals of the kind, else by numbers.
    pub(crate) fn of<G: Game>(game: &G, given: GivenNames<'n>) -> Legend<'n> {
        let [first, second] = given;
        Legend {
            inputs: Spelling::of(
                game.inputs(),
                first.map(|names| names.inputs.as_slice()),
                second.map(|names| names.inputs.as_slice()),
            ),
            outputs: Spelling::of(
                game.outputs(),
                first.map(|names| names.outputs.as_slice()),
                second.map(|names| names.outputs.as_slice()),
            ),
        }
    }
}

// The names by which inputs or outputs are written, none where they are written as numbers.
#[derive(Clone, Copy)]
pub struct Spelling<'n>(Option<&'n [String]>);

impl<'n> Spelling<'n> {
    // The first names that are so many.
    fn of(signals: u8, first: Option<&'n [String]>, second: Option<&'n [String]>) -> Spelling<'n> {
        let count = signals as usize;
        let first = first.filter(|names| names.len() == count);
        Spelling(first.or(second.filter(|names| names.len() == count)))
    }

    pub(crate) fn spell(self, number: u8) -> Spelled<'n> {
        Spelled {
            names: self.0,
            number,
        }
    }
}

// An input or an output: the names of the signals that are on, '-' where none is, or its number.
#[derive(Clone, Copy)]
pub struct Spelled<'n> {
    names: Option<&'n [String]>,
    number: u8,
}

impl fmt::Display for Spelled<'_> {
    fn fmt<W: fmt::Write>(&self, f: &mut fmt::Formatter<W>) -> fmt::Result {
        let Spelled { names, number } = *self;
        let Some(names) = names else {
            return write!(f, "{number}");
        };
        if number == 0 {
            return write!(f, "-");
        }
        let mut first = true;
        for (bit, name) in [1u8, 2, 4, 8].iter().zip(names.iter()) {
            if number & *bit != 0 {
                let gap = if first { "" } else { " " };
                write!(f, "{gap}{name}")?;
                first = false;
            }
        }
        Ok(())
    }
}
