// Reading a rule by recursive descent, with its parts entered as they are completed, left side first.
ghost use Rattle.std.specs.Prelude.{◌≡◌, length};
ghost use Rattle.reader.specs.Grammar.{rule as a_rule, choice as a_choice, join as a_join, unit as a_unit};
ghost use Rattle.reader.specs.Scan.{Peek, Moves};
ghost use Rattle.reader.specs.Steps.{text_of, names_of, Refuses, Deeper, Comes, LiteralComes, NotComes, CloseComes};
ghost use Rattle.reader.specs.Texts.{WholeComes};

use crate::table::Table;
use rules::part::{Part, Signal};
use terms::refusal::Refusal;
use words::name::Name;
use words::reader::next_word;
use words::signals::{Signals, signal_of};
use words::word::{Token, Word};

// A rule has at most so many levels.
const MOST_LEVELS: u8 = 32;

// What is read: a text, and the names of its signals.
#[derive(Clone, Copy)]
pub struct Source<'a> {
    pub text: &'a [u8],
    pub names: &'a [Name],
    pub signals: Signals,
}

// A part that was read: its number, where the table has room for it, and the place in the text behind it.
#[derive(Clone, Copy)]
pub struct Found {
    pub number: Option<u8>,
    pub at: usize,
}

// The refusal of a word that is not allowed where it stands.
fn refuse(t: Token<'_>) -> Refusal
    ensures { Refuses t.entry.word t.entry.at result }
{
    match t.word {
        Word::Strange(_) => Refusal::StrangeByte(t.at),
        Word::Until | Word::Finally => Refusal::Unsupported(t.at),
        _ => Refusal::Misplaced(t.at),
    }
}

// The levels that are left inside the word at `at`.
fn deeper(depth: u8, at: usize) -> Result<u8, Refusal>
    ensures { Deeper depth at result }
{
    depth.checked_sub(1).ok_or(Refusal::TooDeep(at))
}

impl<'a> Source<'a> {
    // The word at `at` or behind blanks there.
    fn word_at(&self, at: usize) -> Token<'a>
        ensures peek { Peek (text_of self.now) at result }
        ensures moves { Moves (length (text_of self.now)) at result }
    {
        next_word(self.text, at)
    }

    // The signal that a run of letters and digits names; the first names are the inputs, the others the outputs.
    fn signal(&self, run: &[u8]) -> Option<Signal>
        ensures { result ≡ names_of self.now run.now }
    {
        let k = signal_of(self.names, self.signals, run)?;
        let inputs = self.signals.inputs as usize;
        if k < inputs {
            Some(Signal::Input(k as u8))
        } else {
            Some(Signal::Output((k - inputs) as u8))
        }
    }

    // The literal of the name `run`, which is the word `t`.
    #[tactic(auto, using(crate::proofs::EntryLaws::leaf_enters), unfolding(rules::specs::Table::parts_on))]
    fn literal(
        &self,
        table: &mut Table,
        t: Token<'_>,
        run: &[u8],
        on: bool,
    ) -> Result<Found, Refusal>
        ensures { LiteralComes self.now run.now on t.entry table.old table.new result }
    {
        let signal = self.signal(run).ok_or(Refusal::UnknownName(t.at))?;
        let number = table.enter(Part::Literal(signal, on));
        Ok(Found { number, at: t.next })
    }

    // The name behind a `!`.
    fn negated(&self, table: &mut Table, from: usize) -> Result<Found, Refusal>
        ensures { NotComes self.now from table.old table.new result }
    {
        let t = self.word_at(from);
        match t.word {
            Word::Name(letters) => self.literal(table, t, letters, false),
            _ => Err(refuse(t)),
        }
    }

    // The bracket that closes the rule in it.
    fn closed(&self, inner: Found) -> Result<Found, Refusal>
        ensures { CloseComes self.now inner result }
    {
        let t = self.word_at(inner.at);
        match t.word {
            Word::Close => Ok(Found {
                at: t.next,
                ..inner
            }),
            _ => Err(refuse(t)),
        }
    }

    // true, false, a name, `!` and a name, X and a unit, G and a unit, or a rule in brackets.
    // Kept: the four readers take a table, a place and the levels left apart, since place and levels go on by themselves.
    #[cycle(choice_join_rule_unit)]
    fn unit(&self, table: &mut Table, from: usize, depth: u8) -> Result<Found, Refusal>
        ensures { Comes self.now a_unit depth from table.old table.new result }
    {
        let t = self.word_at(from);
        match t.word {
            Word::True => Ok(Found {
                number: table.enter(Part::True),
                at: t.next,
            }),
            Word::False => Ok(Found {
                number: table.enter(Part::False),
                at: t.next,
            }),
            Word::Name(letters) => self.literal(table, t, letters, true),
            Word::Not => self.negated(table, t.next),
            Word::Next => {
                let inside = deeper(depth, t.at)?;
                let inner = self.unit(table, t.next, inside)?;
                let number = table.enter_one(inner.number, Part::Next);
                Ok(Found { number, ..inner })
            }
            Word::Always => {
                let inside = deeper(depth, t.at)?;
                let never = table.enter(Part::False);
                let inner = self.unit(table, t.next, inside)?;
                let number = table.enter_two(never, inner.number, Part::Release);
                Ok(Found { number, ..inner })
            }
            Word::Open => {
                let inside = deeper(depth, t.at)?;
                let inner = self.rule(table, t.next, inside)?;
                self.closed(inner)
            }
            _ => Err(refuse(t)),
        }
    }

    // Units with `&` between them, which groups from the left.
    // Kept: one function for joins and choices would match on which it reads for its sides, its mark and its part. The
    // loops end at the first word that is no mark, which is where they return.
    #[cycle(choice_join_rule_unit)]
    fn join(&self, table: &mut Table, from: usize, depth: u8) -> Result<Found, Refusal>
        ensures { Comes self.now a_join depth from table.old table.new result }
    {
        let mut left = self.unit(table, from, depth)?;
        loop {
            let t = self.word_at(left.at);
            let Word::And = t.word else {
                return Ok(left);
            };
            let right = self.unit(table, t.next, depth)?;
            let number = table.enter_two(left.number, right.number, Part::Both);
            left = Found { number, ..right };
        }
    }

    // Joins with `|` between them, which groups from the left.
    #[cycle(choice_join_rule_unit)]
    fn choice(&self, table: &mut Table, from: usize, depth: u8) -> Result<Found, Refusal>
        ensures { Comes self.now a_choice depth from table.old table.new result }
    {
        let mut left = self.join(table, from, depth)?;
        loop {
            let t = self.word_at(left.at);
            let Word::Or = t.word else {
                return Ok(left);
            };
            let right = self.join(table, t.next, depth)?;
            let number = table.enter_two(left.number, right.number, Part::Either);
            left = Found { number, ..right };
        }
    }

    // A choice, or a choice, `R` and a rule.
    #[cycle(choice_join_rule_unit)]
    fn rule(&self, table: &mut Table, from: usize, depth: u8) -> Result<Found, Refusal>
        ensures { Comes self.now a_rule depth from table.old table.new result }
    {
        let left = self.choice(table, from, depth)?;
        let t = self.word_at(left.at);
        let Word::Release = t.word else {
            return Ok(left);
        };
        let inside = deeper(depth, t.at)?;
        let right = self.rule(table, t.next, inside)?;
        let number = table.enter_two(left.number, right.number, Part::Release);
        Ok(Found { number, ..right })
    }

    // A rule, and then the end of the text: the number of its own part, where the table has room for all.
    pub(crate) fn whole(&self, table: &mut Table) -> Result<Option<u8>, Refusal>
        ensures { WholeComes self.now table.old table.new result }
    {
        let found = self.rule(table, 0, MOST_LEVELS)?;
        let t = self.word_at(found.at);
        let Word::End = t.word else {
            return Err(refuse(t));
        };
        Ok(found.number)
    }
}
