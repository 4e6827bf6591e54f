// The edges of a game's graph, and what stands on them.
use crate::names::{Legend, Spelling};
use crate::rounds::Round;
use std::fmt;

// A label has at most so many lines.
const MOST_LINES: usize = 6;

// A line names at most so many outputs.
const MOST_OUTPUTS: u32 = 4;

// What a round is to the play by the book.
#[derive(Clone, Copy, PartialEq, Eq)]
pub enum Kind {
    // The book's answer.
    Answer,
    // The book's answer to the spoiling input.
    Spoiling,
    // Another output than the book's.
    Other,
}

// The kinds, in the order in which they are drawn.
pub const KINDS: [Kind; 3] = [Kind::Answer, Kind::Spoiling, Kind::Other];

impl Kind {
    // How its edges look.
    pub(crate) fn style(self) -> &'static str {
        match self {
            Kind::Answer => "color=black, fontcolor=black, penwidth=1",
            Kind::Spoiling => "color=\"#cb181d\", fontcolor=\"#cb181d\", penwidth=2.5",
            Kind::Other => "color=gray50, fontcolor=gray40, penwidth=0.7, fontsize=9, style=dashed",
        }
    }
}

// A round, with what it is to the play by the book.
#[derive(Clone, Copy)]
pub struct Move {
    pub kind: Kind,
    pub round: Round,
}

// The rounds of one kind from a position to another one, 0 for lost: for each input the outputs, bit y for output y.
#[derive(Clone, Copy)]
pub struct Edge {
    pub from: u8,
    pub to: u8,
    pub kind: Kind,
    sets: [u16; 16],
}

impl Edge {
    // The edge of these moves from a position, if any of them is on it.
    pub(crate) fn of(moves: &[Move], from: u8, to: u8, kind: Kind) -> Option<Edge> {
        let mut sets = [0u16; 16];
        let mut drawn = false;
        for Move { round, .. } in moves.iter().filter(|m| m.kind == kind && m.round.to == to) {
            // inputs and outputs are below 16
            if let Some(set) = sets.get_mut(round.input as usize) {
                *set |= 1u16.wrapping_shl(u32::from(round.output));
                drawn = true;
            }
        }
        drawn.then_some(Edge {
            from,
            to,
            kind,
            sets,
        })
    }
}

// What labels are made by: how rounds are written, and how many inputs and outputs a round can have.
#[derive(Clone, Copy)]
pub struct Key<'s> {
    pub legend: Legend<'s>,
    pub inputs: u8,
    pub outputs: u8,
}

// An edge as a line of the graph.
#[derive(Clone, Copy)]
pub struct Arrow<'s> {
    pub edge: Edge,
    pub key: Key<'s>,
}

impl fmt::Display for Arrow<'_> {
    fn fmt<W: fmt::Write>(&self, f: &mut fmt::Formatter<W>) -> fmt::Result {
        let Arrow { edge, key } = *self;
        let Key {
            legend,
            inputs,
            outputs,
        } = key;
        let label = Label {
            rows: edge.sets.map(|set| Row::of(set, outputs)),
            inputs,
            legend,
        };
        let from = edge.from;
        let to = Place(edge.to);
        write!(f, "{from} -> {to} [label=\"{label}\"]")
    }
}

// The name of a position's node, or that of lost.
#[derive(Clone, Copy)]
struct Place(u8);

impl fmt::Display for Place {
    fn fmt<W: fmt::Write>(&self, f: &mut fmt::Formatter<W>) -> fmt::Result {
        let p = self.0;
        match p {
            0 => write!(f, "lost"),
            _ => write!(f, "{p}"),
        }
    }
}

// What an edge says of one input: no round, the rounds of all outputs but the book's, or those of some outputs.
#[derive(Clone, Copy, PartialEq, Eq)]
enum Row {
    Empty,
    Others,
    These(u16),
}

impl Row {
    // The row of a set of outputs, of so many. Where there is one output but the book's, it is named.
    fn of(set: u16, outputs: u8) -> Row {
        match set.count_ones() {
            0 => Row::Empty,
            n if n > 1 && n + 1 == u32::from(outputs) => Row::Others,
            _ => Row::These(set),
        }
    }
}

// The rounds of an edge, by its rows.
#[derive(Clone, Copy)]
struct Label<'s> {
    rows: [Row; 16],
    inputs: u8,
    legend: Legend<'s>,
}

impl fmt::Display for Label<'_> {
    fn fmt<W: fmt::Write>(&self, f: &mut fmt::Formatter<W>) -> fmt::Result {
        let legend = self.legend;
        let rows = self.rows.get(..self.inputs as usize).unwrap_or(&[]);
        match rows.split_first() {
            Some((first, rest)) if !rest.is_empty() && rest.iter().all(|row| *row == *first) => {
                let outputs = Outputs {
                    row: *first,
                    spelling: legend.outputs,
                };
                write!(f, "any / {outputs}")
            }
            _ => {
                let lines = Lines { rows, legend };
                write!(f, "{lines}")
            }
        }
    }
}

// The rows that have rounds, a line for each input.
#[derive(Clone, Copy)]
struct Lines<'s> {
    rows: &'s [Row],
    legend: Legend<'s>,
}

impl fmt::Display for Lines<'_> {
    fn fmt<W: fmt::Write>(&self, f: &mut fmt::Formatter<W>) -> fmt::Result {
        let count = self.rows.iter().filter(|row| **row != Row::Empty).count();
        let shown = if count > MOST_LINES {
            MOST_LINES - 1
        } else {
            count
        };
        let mut left = shown;
        for (input, row) in (0u8..16).zip(self.rows.iter()) {
            if left > 0 && *row != Row::Empty {
                let gap = if left < shown { "\\n" } else { "" };
                let input = self.legend.inputs.spell(input);
                let outputs = Outputs {
                    row: *row,
                    spelling: self.legend.outputs,
                };
                write!(f, "{gap}{input} / {outputs}")?;
                left -= 1;
            }
        }
        match count - shown {
            0 => Ok(()),
            more => write!(f, "\\nand {more} inputs more"),
        }
    }
}

// The outputs of a row.
#[derive(Clone, Copy)]
struct Outputs<'s> {
    row: Row,
    spelling: Spelling<'s>,
}

impl fmt::Display for Outputs<'_> {
    fn fmt<W: fmt::Write>(&self, f: &mut fmt::Formatter<W>) -> fmt::Result {
        let set = match self.row {
            Row::Empty => return Ok(()),
            Row::Others => return write!(f, "other"),
            Row::These(set) => set,
        };
        let count = set.count_ones();
        if count > MOST_OUTPUTS {
            return write!(f, "{count} outputs");
        }
        let mut first = true;
        for output in 0..16u8 {
            if set >> output & 1 == 1 {
                let gap = if first { "" } else { ", " };
                let output = self.spelling.spell(output);
                write!(f, "{gap}{output}")?;
                first = false;
            }
        }
        Ok(())
    }
}
