// The worked examples, solved and printed, for the gate.
#![tactic(auto)]

use console::phrases::Line;
use console::table::Table;
use std::process::ExitCode;
use std::str::from_utf8;
use std::{fmt, io};
use worked::example::{ALL, Example};
use worked::solved::solve_example;

// How long the book of eight positions is, the longest one of an example.
const LONGEST: usize = 200;

fn text_of(example: Example) -> &'static str {
    from_utf8(example.text()).unwrap_or("")
}

// What an example is called: the text of its rule, or which game it is.
#[derive(Clone, Copy)]
struct Title(Example);

impl fmt::Display for Title {
    fn fmt<W: fmt::Write>(&self, f: &mut fmt::Formatter<W>) -> fmt::Result {
        match self.0 {
            Example::Paired => {
                let first = text_of(Example::Follow);
                let second = text_of(Example::Later);
                write!(f, "pair of {first} and {second}")
            }
            Example::Drawn => write!(f, "diagram"),
            rule => {
                let text = text_of(rule);
                write!(f, "{text}")
            }
        }
    }
}

// Solves an example, and prints its book's table or its refusal.
fn show(rt: &HostRuntime, example: Example) -> io::Result<()> {
    let mut store = [0; LONGEST];
    let title = Title(example);
    match solve_example(example, &mut store) {
        Ok(length) => {
            let book = store.get(..length).unwrap_or(&[]);
            let size = book.get(3).copied().unwrap_or(0);
            let table = Table {
                book,
                size,
                inputs: 2,
            };
            print!(rt; "{title}\n{table}")
        }
        Err(refusal) => {
            let line = Line(refusal);
            println!(rt; "{title}\n{line}")
        }
    }
}

fn show_all(rt: &HostRuntime) -> io::Result<()> {
    for example in ALL {
        show(rt, example)?;
    }
    Ok(())
}

fn main(rt: HostRuntime) -> ExitCode {
    match show_all(&rt) {
        Ok(()) => ExitCode::SUCCESS,
        Err(_) => ExitCode::FAILURE,
    }
}
