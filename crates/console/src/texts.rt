// The two texts of a rule, and the line of one that is refused.
use crate::args::RuleFiles;
use crate::fault::Fault;
use crate::phrases::Line;
use crate::source::read_file;
use reader::texts::{Misread, Text};
use std::alloc::AllocError;
use std::fmt;

// The texts of the signals and of the rule, with their files.
#[derive(Drop)]
pub struct RuleTexts<'a> {
    files: RuleFiles<'a>,
    pub named: Vec<u8>,
    pub ruled: Vec<u8>,
}

impl<'a> RuleTexts<'a> {
    pub(crate) fn read(rt: &HostRuntime, files: RuleFiles<'a>) -> Result<RuleTexts<'a>, Fault<'a>> {
        let named = read_file(rt, files.signals)?;
        let ruled = read_file(rt, files.rule)?;
        Ok(RuleTexts {
            files,
            named,
            ruled,
        })
    }

    // What is said of a refusal. One that is of neither text is of the rule's game.
    pub(crate) fn fault(&self, rt: &HostRuntime, misread: Misread) -> Fault<'a> {
        let Misread { text, refusal } = misread;
        let (file, bytes) = match text {
            Text::Signals => (self.files.signals, self.named.as_slice()),
            Text::Rule => (self.files.rule, self.ruled.as_slice()),
            Text::Neither => return Fault::RefusedIn(Line(refusal), self.files.rule),
        };
        match Mark::at(rt, bytes, refusal.place()) {
            Ok(mark) => Fault::Marked(Line(refusal), file, mark),
            Err(error) => Fault::from(error),
        }
    }
}

// The line of a text that has a place, and how far the place stands in it.
#[derive(Debug, Drop)]
pub struct Mark {
    line: String,
    column: usize,
}

impl Mark {
    fn at(rt: &HostRuntime, text: &[u8], place: usize) -> Result<Mark, AllocError> {
        let start = line_start(text, place);
        let rest = text.get(start..).unwrap_or(&[]);
        let line = rest.split(|b| *b == b'\n').next().unwrap_or(&[]);
        Ok(Mark {
            line: String::from_utf8_lossy(rt.alloc(), line)?,
            column: place.saturating_sub(start),
        })
    }
}

impl fmt::Display for Mark {
    fn fmt<W: fmt::Write>(&self, f: &mut fmt::Formatter<W>) -> fmt::Result {
        let line = self.line.as_str();
        let column = self.column;
        write!(f, "{line}\n{:column$}^", "")
    }
}

// Where the line of a place begins.
fn line_start(text: &[u8], place: usize) -> usize {
    let before = text.get(..place).unwrap_or(text);
    before
        .iter()
        .rposition(|b| *b == b'\n')
        .map_or(0, |k| k + 1)
}
