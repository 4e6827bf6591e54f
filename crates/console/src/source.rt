// The sources that the command line names, read, and their games.
use crate::args::{RuleFiles, Source, Sources};
use crate::fault::Fault;
use crate::names::{GivenNames, Names};
use crate::phrases::Line;
use crate::texts::RuleTexts;
use compile::compile::compile;
use compile::compiled::{Compiled, CompiledRule};
use compile::position::Position;
use game::diagram::Diagram;
use rules::part::Part;
use std::fs;
use words::name::Name;
use words::signals::Signals;

// One source or two, read.
#[derive(Drop)]
pub struct Given<'a> {
    pub first: Loaded<'a>,
    pub second: Option<Loaded<'a>>,
}

impl<'a> Given<'a> {
    pub(crate) fn read(rt: &HostRuntime, sources: Sources<'a>) -> Result<Given<'a>, Fault<'a>> {
        let first = Loaded::read(rt, sources.first)?;
        let second = sources
            .second
            .map(|source| Loaded::read(rt, source))
            .transpose()?;
        Ok(Given { first, second })
    }

    // The names that they give.
    pub(crate) fn names(&self) -> GivenNames<'_> {
        let second = self.second.as_ref();
        [self.first.names(), second.and_then(|loaded| loaded.names())]
    }
}

// A source, read.
#[derive(Drop)]
pub enum Loaded<'a> {
    Drawn(Drawing<'a>),
    Ruled(Sheet),
}

impl<'a> Loaded<'a> {
    fn read(rt: &HostRuntime, source: Source<'a>) -> Result<Loaded<'a>, Fault<'a>> {
        match source {
            Source::Diagram(file) => Ok(Loaded::Drawn(Drawing::read(rt, file)?)),
            Source::Rule(files) => Ok(Loaded::Ruled(Sheet::compiled(rt, files)?)),
        }
    }

    // The names of its signals, where a rule gives them.
    fn names(&self) -> Option<&Names> {
        match self {
            Loaded::Drawn(_) => None,
            Loaded::Ruled(sheet) => Some(&sheet.names),
        }
    }
}

// A diagram's file, read.
#[derive(Drop)]
pub struct Drawing<'a> {
    file: &'a str,
    bytes: Vec<u8>,
}

impl<'a> Drawing<'a> {
    fn read(rt: &HostRuntime, file: &'a str) -> Result<Drawing<'a>, Fault<'a>> {
        let bytes = read_file(rt, file)?;
        Ok(Drawing { file, bytes })
    }

    // The game that the bytes draw. Where there are two sources a refusal says which of their files it is about.
    pub(crate) fn game(&self, alone: bool) -> Result<Diagram<'_>, Fault<'a>> {
        Diagram::read(self.bytes.as_slice()).map_err(|refusal| if alone {
            Fault::from(refusal)
        } else {
            Fault::RefusedIn(Line(refusal), self.file)
        })
    }
}

// A rule that is compiled: its numbers, the names of its signals, and the store of its positions.
#[derive(Drop)]
pub struct Sheet {
    numbers: Compiled,
    names: Names,
    positions: Vec<Position>,
}

impl Sheet {
    // A drawing is read without the stack that this takes.
    #[inline(never)]
    fn compiled<'a>(rt: &HostRuntime, files: RuleFiles<'a>) -> Result<Sheet, Fault<'a>> {
        let texts = RuleTexts::read(rt, files)?;
        let mut names = [Name::default(); 8];
        let mut parts = [Part::True; 64];
        let mut positions = vec![in rt.alloc(); Position::unused(); 255]?;
        let numbers = match compile(
            texts.named.as_slice(),
            texts.ruled.as_slice(),
            &mut names,
            &mut parts,
            positions.as_mut_slice(),
        ) {
            Ok(numbers) => numbers,
            Err(misread) => return Err(texts.fault(rt, misread)),
        };
        let signals = Signals {
            inputs: numbers.inputs,
            outputs: numbers.outputs,
        };
        let names = Names::of(rt, &names, signals)?;
        Ok(Sheet {
            numbers,
            names,
            positions,
        })
    }

    // The rule's game.
    pub(crate) fn game(&self) -> CompiledRule<'_> {
        self.numbers.game(self.positions.as_slice())
    }
}

// The bytes of a file.
pub(crate) fn read_file<'a>(rt: &HostRuntime, file: &'a str) -> Result<Vec<u8>, Fault<'a>> {
    fs::read(rt, file).map_err(|error| Fault::Unreadable(file, error))
}
