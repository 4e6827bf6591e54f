// The words of the command line, and the command that they give.
ghost use Rattle.std.specs.Prelude.{◌≡◌, ◌≤◌, length, Some, None, MatchResult};
ghost use Rattle.std.specs.Slice.Iter.{iter_rest};

use std::slice::Iter;
use thiserror::Error;

// How the program is called.
pub const USAGE: &str = "usage:
  playbook solve SOURCE [SOURCE] [--book FILE]   solve the game, print its table, write its book
  playbook show SOURCE [SOURCE]                  print the game's moves
  playbook graph SOURCE [SOURCE]                 draw the solved game for Graphviz
  playbook explain SOURCE [SOURCE]               tell how the game is lost soonest, round by round
  playbook check SOURCE [SOURCE] --book FILE     accept the book, or refuse it
  playbook run SOURCE [SOURCE] --book FILE       play a run: calls on the standard input, an answer line for each
  playbook parts --rule SIGNALS RULE             print the signals and the parts of the rule in the two files
a SOURCE is
  --diagram FILE                                 the game that the file draws
  --rule SIGNALS RULE                            the game of the rule in the two files
Two sources are paired: signal k of the one is signal k of the other.";

// The files of a rule: that of its signals, and its own.
#[derive(Clone, Copy)]
pub struct RuleFiles<'a> {
    pub signals: &'a str,
    pub rule: &'a str,
}

// Where a game comes from.
#[derive(Clone, Copy)]
pub enum Source<'a> {
    Diagram(&'a str),
    Rule(RuleFiles<'a>),
}

// One game, or two that are paired.
#[derive(Clone, Copy)]
pub struct Sources<'a> {
    pub first: Source<'a>,
    pub second: Option<Source<'a>>,
}

// What is to be done with a game: a file is given for its book where the command needs one.
#[derive(Clone, Copy)]
pub enum Command<'a> {
    Solve(Option<&'a str>),
    Show,
    Graph,
    Explain,
    Check(&'a str),
    Run(&'a str),
}

// What is to be done: a command over games, or the parts of a rule.
#[derive(Clone, Copy)]
pub enum Task<'a> {
    Over(Sources<'a>, Command<'a>),
    Parts(RuleFiles<'a>),
}

// Why the words are no command.
#[derive(Clone, Copy, Debug, Error)]
pub enum Misuse<'a> {
    #[error("no command is given")]
    NoCommand,
    #[error("'{0}' is no command")]
    UnknownCommand(&'a str),
    #[error("'{0}' has no meaning here")]
    UnknownWord(&'a str),
    #[error("nothing stands after {0}")]
    NothingAfter(&'a str),
    #[error("no source of a game is given")]
    NoSource,
    #[error("more than two sources are given")]
    ThirdSource,
    #[error("a second file for the book is given, '{0}'")]
    SecondBook(&'a str),
    #[error("{0} writes no book, and '{1}' is given for one")]
    NoBookHere(&'a str, &'a str),
    #[error("no book is given")]
    NoBook,
    #[error("parts needs --rule and two files, and nothing else")]
    NoRule,
}

// What the words ask for, the program's own name first.
pub(crate) fn parse<'a>(words: &'a [String]) -> Result<Task<'a>, Misuse<'a>> {
    let [_, verb, rest @ ..] = words else {
        return Err(Misuse::NoCommand);
    };
    match verb.as_str() {
        "parts" => parts(rest),
        "solve" => Options::read(rest)?.solve(),
        "show" => Options::read(rest)?.with_no_book("show", Command::Show),
        "graph" => Options::read(rest)?.with_no_book("graph", Command::Graph),
        "explain" => Options::read(rest)?.with_no_book("explain", Command::Explain),
        "check" => Options::read(rest)?.with_book(Command::Check),
        "run" => Options::read(rest)?.with_book(Command::Run),
        other => Err(Misuse::UnknownCommand(other)),
    }
}

// The files of the signals and the rule.
fn parts<'a>(words: &'a [String]) -> Result<Task<'a>, Misuse<'a>> {
    let [flag, signals, rule] = words else {
        return Err(Misuse::NoRule);
    };
    match flag.as_str() {
        "--rule" => Ok(Task::Parts(RuleFiles {
            signals: signals.as_str(),
            rule: rule.as_str(),
        })),
        _ => Err(Misuse::NoRule),
    }
}

// What the words after the command say.
#[derive(Clone, Copy, Default)]
struct Options<'a> {
    first: Option<Source<'a>>,
    second: Option<Source<'a>>,
    book: Option<&'a str>,
}

impl<'a> Options<'a> {
    fn read(words: &'a [String]) -> Result<Options<'a>, Misuse<'a>> {
        let mut options = Options::default();
        let mut rest = words.iter();
        while let Some(word) = rest.next() {
            match word.as_str() {
                "--diagram" => options.add(Source::Diagram(after("--diagram", &mut rest)?))?,
                "--rule" => {
                    let signals = after("--rule", &mut rest)?;
                    let rule = after("--rule", &mut rest)?;
                    options.add(Source::Rule(RuleFiles { signals, rule }))?;
                }
                "--book" => options.keep(after("--book", &mut rest)?)?,
                other => return Err(Misuse::UnknownWord(other)),
            }
        }
        Ok(options)
    }

    // One source more.
    fn add(&mut self, source: Source<'a>) -> Result<(), Misuse<'a>> {
        match (self.first, self.second) {
            (None, _) => self.first = Some(source),
            (_, None) => self.second = Some(source),
            _ => return Err(Misuse::ThirdSource),
        }
        Ok(())
    }

    // The file for the book.
    fn keep(&mut self, file: &'a str) -> Result<(), Misuse<'a>>
        ensures { MatchResult result (λ _. self.new.book ≡ Some file.entry) (λ _. self.new.book ≡ self.old.book) }
    {
        if self.book.is_some() {
            return Err(Misuse::SecondBook(file));
        }
        self.book = Some(file);
        Ok(())
    }

    fn sources(&self) -> Result<Sources<'a>, Misuse<'a>>
        ensures { MatchResult result (λ s. (self.now.first ≡ Some s.first) × (s.second ≡ self.now.second)) (λ _. self.now.first ≡ None) }
    {
        let first = self.first.ok_or(Misuse::NoSource)?;
        let second = self.second;
        Ok(Sources { first, second })
    }

    fn solve(&self) -> Result<Task<'a>, Misuse<'a>> {
        Ok(Task::Over(self.sources()?, Command::Solve(self.book)))
    }

    // A command that has no book to write.
    fn with_no_book(&self, verb: &'a str, command: Command<'a>) -> Result<Task<'a>, Misuse<'a>> {
        match self.book {
            Some(file) => Err(Misuse::NoBookHere(verb, file)),
            None => Ok(Task::Over(self.sources()?, command)),
        }
    }

    // A command that needs a book.
    fn with_book<F: FnOnce(&'a str) -> Command<'a>>(
        &self,
        command: F,
    ) -> Result<Task<'a>, Misuse<'a>>
        requires { F.IsAlwaysCallable command }
    {
        let file = self.book.ok_or(Misuse::NoBook)?;
        Ok(Task::Over(self.sources()?, command(file)))
    }
}

// The word that has to follow.
fn after<'a>(word: &'a str, rest: &mut Iter<'a, String>) -> Result<&'a str, Misuse<'a>>
    ensures { length (iter_rest rest.new) ≤ length (iter_rest rest.old) }
{
    let next = rest.next().ok_or(Misuse::NothingAfter(word))?;
    Ok(next.as_str())
}
