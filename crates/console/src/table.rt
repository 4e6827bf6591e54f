// A book's table, as it is printed.
use crate::phrases::Left;
use book::told::{answer_told, count_told, spoiling_told};
use std::fmt;

// The book of a game with so many positions, and with so many inputs to a round.
#[derive(Clone, Copy)]
pub struct Table<'a> {
    pub book: &'a [u8],
    pub size: u8,
    pub inputs: u8,
}

impl fmt::Display for Table<'_> {
    fn fmt<W: fmt::Write>(&self, f: &mut fmt::Formatter<W>) -> fmt::Result {
        for position in 1..=self.size {
            let row = Row {
                table: *self,
                position,
            };
            writeln!(f, "position {position}: {row}")?;
        }
        Ok(())
    }
}

// What the book tells of one position.
#[derive(Clone, Copy)]
struct Row<'a> {
    table: Table<'a>,
    position: u8,
}

impl fmt::Display for Row<'_> {
    fn fmt<W: fmt::Write>(&self, f: &mut fmt::Formatter<W>) -> fmt::Result {
        let Table { book, inputs, .. } = self.table;
        let left = Left(count_told(book, self.position));
        match spoiling_told(book, self.position) {
            Some(x) => write!(f, "limited, {left}, spoiling input {x}")?,
            None => write!(f, "{left}")?,
        }
        write!(f, ", answers")?;
        for x in 0..inputs {
            let answer = answer_told(book, self.position, x);
            write!(f, " {answer}")?;
        }
        Ok(())
    }
}
