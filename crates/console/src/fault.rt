// Why the program ends with status 1, and what it then says on the standard error.
use crate::args::{Misuse, USAGE};
use crate::phrases::Line;
use crate::texts::Mark;
use std::alloc::AllocError;
use std::io;
use terms::refusal::Refusal;
use thiserror::Error;

#[derive(Debug, Drop, Error)]
pub enum Fault<'a> {
    #[error("{0}")]
    Refused(Line),
    // The file is named where there are two that can be wrong.
    #[error("{0} (in {1})")]
    RefusedIn(Line, &'a str),
    // The refusal of a text, with its file and its line.
    #[error("{0} (in {1})\n{2}")]
    Marked(Line, &'a str, Mark),
    #[error("cannot read the command line: {0}")]
    NoWords(io::Error),
    #[error("{0}\n{USAGE}")]
    Misused(#[from] Misuse<'a>),
    #[error("cannot read {0}: {1}")]
    Unreadable(&'a str, io::Error),
    #[error("cannot write {0}: {1}")]
    Unwritten(&'a str, io::Error),
    #[error("cannot print: {0}")]
    Unprinted(#[from] io::Error),
    #[error("cannot read the standard input: {0}")]
    NoInput(io::Error),
    #[error("no memory is left")]
    NoMemory(#[from(alloc)] AllocError),
    // A replayed row differs from what was told, which the contract of replaying rules out.
    #[error("the replayed row was told otherwise")]
    Unkept,
}

// Kept: a refusal is made a line on its way, which a derived conversion does not do.
impl<'a> From<Refusal> for Fault<'a> {
    fn from(refusal: Refusal) -> Fault<'a> {
        Fault::Refused(Line(refusal))
    }
}
