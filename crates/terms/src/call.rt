// The calls of a run, and what each is told.
use crate::count::Count;
use crate::refusal::Refusal;

// A call: an opening with its input, a setting with its output, an ending, or a question.
#[derive(Clone, Copy, PartialEq, Eq, Debug)]
pub enum Call {
    Open(u8),
    Set(u8),
    Close,
    Abandon,
    AskPosition,
    AskCount,
    AskSpoiling,
}

// What a call is told.
#[derive(Clone, Copy, PartialEq, Eq, Default, Debug)]
pub enum Reply {
    // the book's output for the opened round
    Output(u8),
    // the output was set
    Changed,
    Closed,
    Abandoned,
    Position(Option<u8>),
    Left(Count),
    Spoiling(Option<u8>),
    Refused(Refusal),
    // the call is not allowed where it stands
    #[default]
    NotAllowed,
}

// Where a run stands: its position, none where it is lost, and its count.
#[derive(Clone, Copy, PartialEq, Eq, Default, Debug)]
pub struct Standing {
    pub position: Option<u8>,
    pub count: Count,
}

// One call of a row: what it was told, and where the run stands after it.
#[derive(Clone, Copy, PartialEq, Eq, Default, Debug)]
pub struct Step {
    pub reply: Reply,
    pub standing: Standing,
}
