// A position of a compiled rule.
ghost use Rattle.std.specs.Prelude.{◌≡◌, refl};
ghost use Rattle.std.proofs.Common.{sym, ◌∙◌};
ghost use Rattle.compile.specs.Positions.{same_position, entry_of, unused as unused_position};
ghost use Rattle.compile.specs.Same.{same_position_decides};

use crate::list::DutyList;
use register::Same;

// A list of duty sets, and where each round leads from it: the number of a position, 0 for lost. The round of input x
// and output y has the number x × 2^o + y, with o output signals.
#[derive(Clone, Copy)]
pub struct Position {
    pub(crate) list: DutyList,
    pub(crate) moves: [u8; 256],
}

impl Position {
    // The position of a list, before any round has left it.
    pub(crate) fn of(list: DutyList) -> Position
        ensures { result ≡ entry_of list }
    {
        Position {
            list,
            moves: [0; 256],
        }
    }

    // An entry that no position uses: all zero.
    pub fn unused() -> Position
        ensures { result ≡ unused_position }
    {
        Position::of(DutyList::of_false())
    }
}

// Positions are the same where their lists are, wherever their moves lead.
// Kept: a derived equality would ask that the moves are equal too.
impl Same for Position {
    ghost same = { same_position };

    ghost reflexive = { λ x. (same_position_decides x x).1 refl };

    ghost symmetric = { λ x y h. (same_position_decides y x).1 (sym ((same_position_decides x y).0 h)) };

    ghost transitive = { λ x y z h k. (same_position_decides x z).1 ((same_position_decides x y).0 h ∙ (same_position_decides y z).0 k) };

    fn same_as(&self, other: &Position) -> bool {
        self.list.as_slice() == other.list.as_slice()
    }
}
