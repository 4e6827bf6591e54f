// The calls of a run as numbers, and what they are told.
ghost use Rattle.std.specs.Prelude.{◌≡◌};
ghost use Rattle.calls.specs.Codes.{call_of, answer_of, kind_of, value_of, position_number, input_number, count_number};

use terms::call::{Call, Reply, Step};
use terms::count::Count;

// A call of a run: its kind, and its input or output. The number of a call that has none is not read.
#[repr(C)]
#[derive(Clone, Copy)]
pub struct CallCode {
    pub kind: u8,
    pub number: u8,
}

impl CallCode {
    // The call, none where no call has this kind.
    pub fn call(self) -> Option<Call>
        ensures { result ≡ call_of self }
    {
        match self.kind {
            1 => Some(Call::Open(self.number)),
            2 => Some(Call::Set(self.number)),
            3 => Some(Call::Close),
            4 => Some(Call::Abandon),
            5 => Some(Call::AskPosition),
            6 => Some(Call::AskCount),
            7 => Some(Call::AskSpoiling),
            _ => None,
        }
    }
}

// What a call was told, and where the run stood after it. The kind is the call's where it was served, 8 where it was
// refused, and 9 where it is not allowed where it stood.
#[repr(C)]
#[derive(Clone, Copy)]
pub struct Answer {
    pub kind: u32,
    pub value: i32,
    pub position: u32,
    pub count: i32,
}

impl Answer {
    pub(crate) fn of(step: Step) -> Answer
        ensures { result ≡ answer_of step }
    {
        let Step { reply, standing } = step;
        Answer {
            kind: kind_of(reply),
            value: value_of(reply),
            position: position_number(standing.position) as u32,
            count: count_number(standing.count),
        }
    }
}

fn kind_of(reply: Reply) -> u32
    ensures { result ≡ kind_of reply }
{
    match reply {
        Reply::Output(_) => 1,
        Reply::Changed => 2,
        Reply::Closed => 3,
        Reply::Abandoned => 4,
        Reply::Position(_) => 5,
        Reply::Left(_) => 6,
        Reply::Spoiling(_) => 7,
        Reply::Refused(_) => 8,
        Reply::NotAllowed => 9,
    }
}

// What is told beside the kind: an output, a position, a count, an input, or a refusal's number; else 0.
fn value_of(reply: Reply) -> i32
    ensures { result ≡ value_of reply }
{
    match reply {
        Reply::Output(output) => output as i32,
        Reply::Position(position) => position_number(position) as i32,
        Reply::Left(count) => count_number(count),
        Reply::Spoiling(input) => input_number(input),
        Reply::Refused(refusal) => refusal.number() as i32,
        _ => 0,
    }
}

// 0 where the run is lost.
fn position_number(position: Option<u8>) -> u8
    ensures { result ≡ position_number position }
{
    position.unwrap_or(0)
}

// -1 where there is no spoiling input.
fn input_number(input: Option<u8>) -> i32
    ensures { result ≡ input_number input }
{
    match input {
        None => -1,
        Some(x) => x as i32,
    }
}

// The numbers are in the order of counts: -1 for lost, and 65536 for unlimited.
fn count_number(count: Count) -> i32
    ensures { result ≡ count_number count }
{
    match count {
        Count::Lost => -1,
        Count::Limited(n) => n as i32,
        Count::Unlimited => 65536,
    }
}
