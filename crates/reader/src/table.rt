// The table of a rule's parts: equal parts are one part.
ghost use Rattle.std.specs.Prelude.{◌≡◌, ℕ, ◌≤◌, [], length};
ghost use Rattle.rules.specs.Table.{enter};
ghost use Rattle.rules.specs.declared.part.Part.{Part};
ghost use Rattle.reader.specs.Entries.{Numbered, one_side, two_sides, EntersPart};

use register::Register;
use rules::part::Part;
use std::marker::Model;

// A rule has at most so many parts.
pub const MOST_PARTS: usize = 64;

// Room for the parts of a rule, of which the first `used` are in the table.
// Kept: an array and its length, since there is no heap; outside, it is a slice.
#[derive(Drop)]
pub struct Table {
    parts: [Part; MOST_PARTS],
    used: usize,
}

// Clauses see the parts that are in the table.
impl Model for Table {
    ghost use Rattle.std.specs.Prelude.{List, ◌≤◌, take};
    ghost use Rattle.rules.specs.declared.part.Part.{Part};

    ghost Value = { List Part };

    ghost view = { λ t. take t.used t.parts };

    ghost invariant = { λ t. t.used ≤ 64 };
}

impl Table {
    // A table with no parts.
    pub(crate) fn new() -> Table
        ensures { result ≡ [] }
    {
        Table {
            parts: [Part::True; MOST_PARTS],
            used: 0,
        }
    }

    // The parts, in the order of their numbers.
    pub(crate) fn parts(&self) -> &[Part]
        ensures value { result.now ≡ self.now }
        ensures few { length self.now ≤ 64 }
    {
        &self.parts[..self.used]
    }

    // The number of `part`: the earlier one where it is in the table, else the next, which it then has. There is none
    // where the table is full.
    pub(crate) fn enter(&mut self, part: Part) -> Option<u8>
        ensures { Numbered self.new result (enter self.old part) }
    {
        let mut register = Register {
            store: &mut self.parts,
            used: self.used,
        };
        let number = register.enter(part)?;
        self.used = register.used;
        Some(number as u8)
    }

    // The number of the part that one side makes. There is none where the side has none.
    pub(crate) fn enter_one<F: FnOnce(u8) -> Part + Drop>(
        &mut self,
        side: Option<u8>,
        part: F,
    ) -> Option<u8>
        requires { F.IsAlwaysCallable part }
        ensures { (x : ℕ → Part) → ((a : ℕ) (p : Part) → F.post part a p → p ≡ x a) → EntersPart self.old (one_side x side) self.new result }
    {
        self.enter(part(side?))
    }

    // The number of the part that two sides make. There is none where a side has none.
    // Kept: one side and two are two calls, since what makes the part takes one number or two.
    pub(crate) fn enter_two<F: FnOnce(u8, u8) -> Part + Drop>(
        &mut self,
        left: Option<u8>,
        right: Option<u8>,
        part: F,
    ) -> Option<u8>
        requires { F.IsAlwaysCallable part }
        ensures { (x : ℕ → ℕ → Part) → ((a b : ℕ) (p : Part) → F.post part a b p → p ≡ x a b) → EntersPart self.old (two_sides x left right) self.new result }
    {
        self.enter(part(left?, right?))
    }
}
