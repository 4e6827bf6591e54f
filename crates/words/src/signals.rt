// The reader of signals texts.
ghost use Rattle.std.specs.Prelude.{◌≡◌, ℕ, ◌+◌, ◌↔◌, [], length, Some};
ghost use Rattle.words.specs.Words.{says};
ghost use Rattle.words.specs.Names.{name_of, HoldsNames, sought, Named};
ghost use Rattle.words.specs.Signals.{Answer, Fits, Outcome, Gives, Leaves, Read};
ghost use Rattle.words.specs.Steps.{entered, by_stage, sorted, finished};

use crate::name::Name;
use crate::reader::next_word;
use crate::word::{Token, Word};
use register::{Register, find};
use terms::refusal::Refusal;

// How many inputs and outputs there are.
#[derive(Clone, Copy, PartialEq, Eq, Default, Debug)]
pub struct Signals {
    pub inputs: u8,
    pub outputs: u8,
}

impl Signals {
    // How many there are in all.
    fn count(self) -> usize
        ensures { result ≡ self.inputs + self.outputs }
    {
        self.inputs as usize + self.outputs as usize
    }
}

// Where the reader stands: before `in`, among the inputs, or among the outputs.
#[derive(Clone, Copy, Default)]
enum Stage {
    #[default]
    Before,
    Inputs,
    Outputs,
}

// The stage, and how many inputs and outputs were read.
#[derive(Clone, Copy, Default)]
struct Reader {
    stage: Stage,
    read: Signals,
}

impl Reader {
    // Enters a name behind those that were read, of which `count` are of its kind: how many there are then.
    // Kept: the count is of one kind of names, and no length of the store.
    fn enter(self, names: &mut [Name], count: u8, run: &[u8], at: usize) -> Result<u8, Refusal>
        ensures { (result, names.new) ≡ entered count (self.read.inputs + self.read.outputs) at (name_of run.now) names.old }
    {
        let name = Name::of(run).ok_or(Refusal::BadName(at))?;
        let used = self.read.count();
        let mut register = Register { store: names, used };
        match register.enter(name) {
            Some(k) if k < used => Err(Refusal::BadName(at)),
            Some(_) if count < 4 => Ok(count + 1),
            _ => Err(Refusal::TooManySignals(at)),
        }
    }

    // The reader behind one more word.
    fn step(mut self, names: &mut [Name], token: Token<'_>) -> Result<Reader, Refusal>
        ensures { (result, names.new) ≡ by_stage self.stage self names.old token.entry.at (sorted (says token.entry.word)) }
    {
        match (self.stage, token.word) {
            (Stage::Before, Word::In) => self.stage = Stage::Inputs,
            (Stage::Inputs, Word::Out) => self.stage = Stage::Outputs,
            // Kept: the reader is a machine matched on stage and word, and each of its two counts has an arm.
            (Stage::Inputs, Word::Name(run)) => {
                self.read.inputs = self.enter(names, self.read.inputs, run, token.at)?;
            }
            (Stage::Outputs, Word::Name(run)) => {
                self.read.outputs = self.enter(names, self.read.outputs, run, token.at)?;
            }
            (_, Word::Strange(_)) => return Err(Refusal::StrangeByte(token.at)),
            _ => return Err(Refusal::Misplaced(token.at)),
        }
        Ok(self)
    }

    // What was read, at the end of the text.
    fn finish(self, at: usize) -> Result<Signals, Refusal>
        ensures { result ≡ finished self at }
    {
        match self.stage {
            Stage::Outputs => Ok(self.read),
            _ => Err(Refusal::Misplaced(at)),
        }
    }
}

// Makes every name all zeros.
pub fn clear(names: &mut [Name])
    ensures { HoldsNames [] names.new }
{
    names.fill(Name::default());
}

// Reads the words of a text of at most 1,024 bytes into a cleared store.
fn read_words(text: &[u8], names: &mut [Name]) -> Result<Signals, Refusal>
    requires { (Fits (length names.old) text.now) × (HoldsNames [] names.old) }
    ensures { Read (length names.old) text.now result names.new }
{
    let mut reader = Reader::default();
    let mut at = 0;
    // Kept: an iterator of words would be a type, an impl and their laws more, for this loop alone.
    loop {
        let token = next_word(text, at);
        if let Word::End = token.word {
            return reader.finish(token.at);
        }
        reader = reader.step(names, token)?;
        at = token.next;
    }
}

// Reads a signals text into a store of names, which needs room for eight.
pub fn read_signals(text: &[u8], names: &mut [Name]) -> Result<Signals, Refusal>
    ensures outcome { (a : Answer) × Outcome (length names.old) text.now a × Gives result a × Leaves names.old a names.new }
    ensures only { (a : Answer) → Outcome (length names.old) text.now a → Gives result a × Leaves names.old a names.new }
{
    if names.len() < 8 {
        return Err(Refusal::StoreTooShort);
    }
    clear(names);
    if text.len() > 1024 {
        return Err(Refusal::TextTooLong);
    }
    // Kept: the names are cleared behind a refusal, while the refusal goes on.
    let read = read_words(text, names);
    if read.is_err() {
        clear(names);
    }
    read
}

// The number of the signal that a run names, inputs first. A run that names none has none.
pub fn signal_of(names: &[Name], signals: Signals, run: &[u8]) -> Option<usize>
    ensures value { result ≡ sought names.now (signals.inputs + signals.outputs) run.now }
    ensures named { (k : ℕ) → (result ≡ Some k) ↔ Named names.now (signals.inputs + signals.outputs) run.now k }
{
    let name = Name::of(run)?;
    let known = names.get(..signals.count()).unwrap_or(names);
    find(known, &name)
}

#[cfg(test)]
mod tests {
    use super::{Name, Signals, read_signals, signal_of};

    // The number and place of a refusal, or 0 and how many names there are.
    fn outcome(text: &[u8]) -> (u8, usize) {
        let mut names = [Name { bytes: [1; 8] }; 8];
        match read_signals(text, &mut names) {
            Ok(s) => (0, s.inputs as usize + s.outputs as usize),
            Err(e) => (e.number(), e.place()),
        }
    }

    #[test]
    fn served(rt: HostRuntime) {
        assert_eq!(rt; outcome(b"in out"), (0, 0));
        assert_eq!(rt; outcome(b"in door out lock ajar"), (0, 3));
        assert_eq!(rt; outcome(b"in abcdefgh out"), (0, 1));
        assert_eq!(rt; outcome(b"in a b c d out e f g h"), (0, 8));
    }

    #[test]
    fn strange(rt: HostRuntime) {
        assert_eq!(rt; outcome(b"in\tout"), (2, 2));
        assert_eq!(rt; outcome(b"in \xc3 out"), (2, 3));
    }

    #[test]
    fn misplaced(rt: HostRuntime) {
        assert_eq!(rt; outcome(b""), (3, 0));
        assert_eq!(rt; outcome(b"in"), (3, 2));
        assert_eq!(rt; outcome(b"in X out"), (3, 3));
        assert_eq!(rt; outcome(b"in a true out"), (3, 5));
        assert_eq!(rt; outcome(b"in out out"), (3, 7));
    }

    #[test]
    fn names(rt: HostRuntime) {
        assert_eq!(rt; outcome(b"in abcdefghi out"), (4, 3));
        assert_eq!(rt; outcome(b"in door door out"), (4, 8));
        assert_eq!(rt; outcome(b"in a b c d a out"), (4, 11));
        assert_eq!(rt; outcome(b"in a b c d e out"), (6, 11));
        assert_eq!(rt; outcome(b"in out a b c d e"), (6, 15));
    }

    #[test]
    fn lengths(rt: HostRuntime) {
        assert_eq!(rt; outcome(&[b' '; 1025]), (1, 0));
        let mut text = [b' '; 1024];
        text[0] = b'i';
        text[1] = b'n';
        text[1021] = b'o';
        text[1022] = b'u';
        text[1023] = b't';
        assert_eq!(rt; outcome(&text), (0, 0));
        let mut few = [Name { bytes: [1; 8] }; 7];
        assert!(rt; read_signals(b"in out", &mut few).is_err());
        assert!(rt; few[0].bytes == [1; 8]);
    }

    #[test]
    fn stored(rt: HostRuntime) {
        let mut names = [Name { bytes: [1; 8] }; 9];
        assert!(rt; read_signals(b"in door out lock", &mut names).is_ok());
        assert!(rt; names[0].bytes == *b"door\0\0\0\0");
        assert!(rt; names[1].bytes == *b"lock\0\0\0\0");
        assert!(rt; names[2].bytes == [0; 8] && names[8].bytes == [0; 8]);
        let signals = Signals {
            inputs: 1,
            outputs: 1,
        };
        assert_eq!(rt; signal_of(&names, signals, b"lock"), Some(1));
        assert_eq!(rt; signal_of(&names, signals, b"luck"), None);
    }
}
