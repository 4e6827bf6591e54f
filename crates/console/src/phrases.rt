// Refusals, counts and numbers of things in words.
use std::fmt;
use terms::count::Count;
use terms::refusal::Refusal;

// A refusal's line: its number, layer and place, and what is wrong.
#[derive(Clone, Copy, Debug)]
pub struct Line(pub Refusal);

impl fmt::Display for Line {
    fn fmt<W: fmt::Write>(&self, f: &mut fmt::Formatter<W>) -> fmt::Result {
        let refusal = self.0;
        let number = refusal.number();
        let layer = refusal.layer();
        let place = refusal.place();
        write!(f, "refusal {number} ({layer}) at {place}: {refusal}")
    }
}

// How many rounds are left.
#[derive(Clone, Copy)]
pub struct Left(pub Count);

impl fmt::Display for Left {
    fn fmt<W: fmt::Write>(&self, f: &mut fmt::Formatter<W>) -> fmt::Result {
        match self.0 {
            Count::Lost => write!(f, "lost"),
            Count::Limited(n) => write!(f, "count {n}"),
            Count::Unlimited => write!(f, "unlimited"),
        }
    }
}

// A number of things: '1 input', '2 inputs'.
#[derive(Clone, Copy)]
pub struct Several(pub u32, pub &'static str);

impl fmt::Display for Several {
    fn fmt<W: fmt::Write>(&self, f: &mut fmt::Formatter<W>) -> fmt::Result {
        let Several(n, thing) = *self;
        match n {
            1 => write!(f, "1 {thing}"),
            _ => write!(f, "{n} {thing}s"),
        }
    }
}
