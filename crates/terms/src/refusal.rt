// Why a call is refused: one list for the whole product.
ghost use Rattle.std.specs.Prelude.{◌≡◌, Some};
ghost use Rattle.terms.specs.Refusals.{number, layer, place, layer_word};

use std::fmt;
use thiserror::Error;

// A refusal, with its place where that is not always 0. It is printed as what is wrong, in one sentence.
#[derive(Clone, Copy, PartialEq, Eq, Debug, Error)]
pub enum Refusal {
    #[error("the text is longer than 1024 bytes")]
    TextTooLong,
    #[error("no word begins with this byte")]
    StrangeByte(usize),
    #[error("this word is not allowed here, or the text ends too early")]
    Misplaced(usize),
    #[error("the name is longer than eight letters and digits, or is there already")]
    BadName(usize),
    #[error("no signal has this name")]
    UnknownName(usize),
    #[error("there are at most four inputs and four outputs")]
    TooManySignals(usize),
    #[error("rules have no U and no F")]
    Unsupported(usize),
    #[error("the rule is more than 32 levels deep")]
    TooDeep(usize),
    #[error("the rule has more than 64 parts or 32 duties")]
    RuleTooLarge,
    #[error("the rule is lost before the first round")]
    StartLost,
    #[error("a list of more than 32 sets of duties is needed")]
    TooWide(usize),
    #[error("the rule has more than 255 positions")]
    TooManyPositions,
    #[error("a store is too short")]
    StoreTooShort,
    #[error("a field or the length of the diagram is wrong")]
    DiagramField(usize),
    #[error("an index of the diagram names no record or one reached before, or no chain reaches a record")]
    DiagramChain(usize),
    #[error("a position of the diagram has two records for the same input and output")]
    DiagramRepeat(usize),
    #[error("the game has more than 255 positions")]
    SizeZero,
    #[error("the book is not the book of this game")]
    NotThisBook,
    #[error("there is no such input or output")]
    OutOfRange,
    #[error("the run is lost")]
    RunLost,
    #[error("the game did not settle within 256 sweeps")]
    TooManySweeps,
}

// The part of the product that refuses.
#[derive(Clone, Copy, PartialEq, Eq, Debug)]
pub enum Layer {
    Text,
    Signals,
    Rule,
    Compile,
    Store,
    Diagram,
    Game,
    Run,
    Solve,
}

// Kept: a layer is no error, and only errors derive their words.
impl fmt::Display for Layer {
    ghost output = { λ layer. Some (layer_word layer) };

    fn fmt<W: fmt::Write>(&self, f: &mut fmt::Formatter<W>) -> fmt::Result {
        let name = match self {
            Layer::Text => "text",
            Layer::Signals => "signals",
            Layer::Rule => "rule",
            Layer::Compile => "compile",
            Layer::Store => "store",
            Layer::Diagram => "diagram",
            Layer::Game => "game",
            Layer::Run => "run",
            Layer::Solve => "solve",
        };
        f.write_str(name)
    }
}

impl Refusal {
    // The number in the table of docs/REFUSALS.md.
    pub fn number(&self) -> u8
        ensures { result ≡ number self.now }
    {
        match self {
            Refusal::TextTooLong => 1,
            Refusal::StrangeByte(_) => 2,
            Refusal::Misplaced(_) => 3,
            Refusal::BadName(_) => 4,
            Refusal::UnknownName(_) => 5,
            Refusal::TooManySignals(_) => 6,
            Refusal::Unsupported(_) => 7,
            Refusal::TooDeep(_) => 8,
            Refusal::RuleTooLarge => 9,
            Refusal::StartLost => 10,
            Refusal::TooWide(_) => 11,
            Refusal::TooManyPositions => 12,
            Refusal::StoreTooShort => 13,
            Refusal::DiagramField(_) => 14,
            Refusal::DiagramChain(_) => 15,
            Refusal::DiagramRepeat(_) => 16,
            Refusal::SizeZero => 17,
            Refusal::NotThisBook => 18,
            Refusal::OutOfRange => 19,
            Refusal::RunLost => 20,
            Refusal::TooManySweeps => 21,
        }
    }

    pub fn layer(&self) -> Layer
        ensures { result ≡ layer self.now }
    {
        match self {
            Refusal::TextTooLong | Refusal::StrangeByte(_) | Refusal::Misplaced(_) => Layer::Text,
            Refusal::BadName(_) | Refusal::TooManySignals(_) => Layer::Signals,
            Refusal::UnknownName(_) | Refusal::Unsupported(_) | Refusal::TooDeep(_) => Layer::Rule,
            Refusal::RuleTooLarge
            | Refusal::StartLost
            | Refusal::TooWide(_)
            | Refusal::TooManyPositions => Layer::Compile,
            Refusal::StoreTooShort => Layer::Store,
            Refusal::DiagramField(_) | Refusal::DiagramChain(_) | Refusal::DiagramRepeat(_) => {
                Layer::Diagram
            }
            Refusal::SizeZero => Layer::Game,
            Refusal::NotThisBook | Refusal::OutOfRange | Refusal::RunLost => Layer::Run,
            Refusal::TooManySweeps => Layer::Solve,
        }
    }

    // The byte of the input, or the position, at which the cause stands.
    pub fn place(&self) -> usize
        ensures { result ≡ place self.now }
    {
        match self {
            Refusal::StrangeByte(at)
            | Refusal::Misplaced(at)
            | Refusal::BadName(at)
            | Refusal::UnknownName(at)
            | Refusal::TooManySignals(at)
            | Refusal::Unsupported(at)
            | Refusal::TooDeep(at)
            | Refusal::TooWide(at)
            | Refusal::DiagramField(at)
            | Refusal::DiagramChain(at)
            | Refusal::DiagramRepeat(at) => *at,
            _ => 0,
        }
    }
}
