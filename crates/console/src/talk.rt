// The calls of a run as lines of text, and what they are told.
use crate::phrases::Line;
use std::fmt;
use terms::call::{Call, Reply};
use terms::count::Count;

// How calls are written.
pub const CALLS: &str = "open X, set Y, close, abandon, position, count or spoiling";

// The call that a line gives, if it gives one.
pub(crate) fn call_of(line: &str) -> Option<Call> {
    let mut words = line.split_whitespace();
    let verb = words.next()?;
    let object = words.next();
    if words.next().is_some() {
        return None;
    }
    match object {
        None => plain_call(verb),
        Some(number) => numbered_call(verb, number_of(number)?),
    }
}

fn plain_call(verb: &str) -> Option<Call> {
    match verb {
        "close" => Some(Call::Close),
        "abandon" => Some(Call::Abandon),
        "position" => Some(Call::AskPosition),
        "count" => Some(Call::AskCount),
        "spoiling" => Some(Call::AskSpoiling),
        _ => None,
    }
}

fn numbered_call(verb: &str, number: u8) -> Option<Call> {
    match verb {
        "open" => Some(Call::Open(number)),
        "set" => Some(Call::Set(number)),
        _ => None,
    }
}

// A number that no game has is as good as 255.
// Kept: a conversion would refuse a larger number.
fn number_of(word: &str) -> Option<u8> {
    let n = word.parse::<u64>().ok()?;
    Some(u8::try_from(n).unwrap_or(255))
}

// A reply as a line.
#[derive(Clone, Copy)]
pub struct Told(pub Reply);

impl fmt::Display for Told {
    fn fmt<W: fmt::Write>(&self, f: &mut fmt::Formatter<W>) -> fmt::Result {
        match self.0 {
            Reply::Output(y) => write!(f, "output {y}"),
            Reply::Changed => write!(f, "set"),
            Reply::Closed => write!(f, "closed"),
            Reply::Abandoned => write!(f, "abandoned"),
            Reply::Position(Some(p)) => write!(f, "position {p}"),
            Reply::Position(None) => write!(f, "position none"),
            Reply::Left(Count::Lost) => write!(f, "count -1"),
            Reply::Left(Count::Limited(n)) => write!(f, "count {n}"),
            Reply::Left(Count::Unlimited) => write!(f, "count unlimited"),
            Reply::Spoiling(Some(x)) => write!(f, "spoiling {x}"),
            Reply::Spoiling(None) => write!(f, "spoiling none"),
            Reply::Refused(refusal) => {
                let line = Line(refusal);
                write!(f, "{line}")
            }
            Reply::NotAllowed => write!(f, "not allowed here"),
        }
    }
}
