// What a call of the library comes to, as numbers.
ghost use Rattle.std.specs.Prelude.{◌≡◌};
ghost use Rattle.calls.specs.Outcomes.{layer_number, text_number, served, refused, outcome};

use reader::texts::{Misread, Text};
use terms::refusal::{Layer, Refusal};

// Served: all numbers are 0 but the length, that of the book or the number of answers. Refused: the refusal's number in
// the table of docs/REFUSALS.md, its layer and its place, and the text that has the place; the length is 0.
#[repr(C)]
#[derive(Clone, Copy)]
pub struct Outcome {
    pub number: u32,
    pub layer: u32,
    pub text: u32,
    pub place: usize,
    pub length: usize,
}

impl Outcome {
    // A call that is served.
    pub(crate) fn served(length: usize) -> Outcome
        ensures { result ≡ served length }
    {
        Outcome {
            number: 0,
            layer: 0,
            text: 0,
            place: 0,
            length,
        }
    }

    // A refusal, and the text that has its place.
    pub(crate) fn misread(misread: Misread) -> Outcome
        ensures { result ≡ refused misread }
    {
        let Misread { text, refusal } = misread;
        Outcome {
            number: refusal.number() as u32,
            layer: layer_number(refusal.layer()),
            text: text_number(text),
            place: refusal.place(),
            length: 0,
        }
    }

    // A refusal that has no place in a text.
    pub(crate) fn refused(refusal: Refusal) -> Outcome
        ensures { result ≡ refused (record { text = Text.Neither; refusal = refusal }) }
    {
        Outcome::misread(Misread {
            text: Text::Neither,
            refusal,
        })
    }

    // What a call gave, with its length.
    pub(crate) fn of(res: Result<usize, Refusal>) -> Outcome
        ensures { result ≡ outcome res }
    {
        match res {
            Ok(length) => Outcome::served(length),
            Err(refusal) => Outcome::refused(refusal),
        }
    }
}

// The layers are numbered from 1, in their order.
fn layer_number(layer: Layer) -> u32
    ensures { result ≡ layer_number layer }
{
    match layer {
        Layer::Text => 1,
        Layer::Signals => 2,
        Layer::Rule => 3,
        Layer::Compile => 4,
        Layer::Store => 5,
        Layer::Diagram => 6,
        Layer::Game => 7,
        Layer::Run => 8,
        Layer::Solve => 9,
    }
}

// 1 for the signals text, 2 for the rule, and 0 for none.
fn text_number(text: Text) -> u32
    ensures { result ≡ text_number text }
{
    match text {
        Text::Neither => 0,
        Text::Signals => 1,
        Text::Rule => 2,
    }
}
