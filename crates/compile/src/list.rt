// What a list of duty sets is stored as.
ghost use Rattle.std.specs.Prelude.{◌≡◌, ◌<◌, ◌≤◌, [], ◌∷◌, ◌++◌, length, MatchOption, ◌==◌};
ghost use Rattle.rules.specs.Sets.{sets};
ghost use Rattle.rules.specs.Progress.{of_true, of_false, own as own_list};

use std::marker::Model;

// The most sets of a list.
const WIDEST: usize = 32;

// At most 32 sets of duties, each a number whose bit d is set where duty d is in it; zeros stand behind them.
// Kept: an array and its length, since the library has no heap and positions are copied; outside, it is a slice.
#[derive(Clone, Copy)]
pub struct DutyList {
    len: usize,
    sets: [u32; 32],
}

// Clauses see the list of its sets.
impl Model for DutyList {
    ghost use Rattle.std.specs.Prelude.{ℕ, List, take};

    ghost Value = { List ℕ };

    ghost use Rattle.compile.specs.Padded.{Padded, padded, padded_back};

    ghost view = { λ l. take l.len l.sets };

    ghost invariant = { λ l. Padded l.len l.sets };

    ghost inverse = { padded };

    ghost inverse_ok = { padded_back };
}

impl DutyList {
    // The list with one set.
    pub(crate) fn alone(set: u32) -> DutyList
        ensures { result ≡ set ∷ [] }
    {
        let mut sets = [0; 32];
        sets[0] = set;
        DutyList { len: 1, sets }
    }

    // The list of `true`: the empty set alone.
    pub(crate) fn of_true() -> DutyList
        ensures { sets result ≡ of_true }
    {
        DutyList::alone(0)
    }

    // The list of `false`: no set.
    pub(crate) fn of_false() -> DutyList
        ensures { sets result ≡ of_false }
    {
        DutyList {
            len: 0,
            sets: [0; 32],
        }
    }

    // The list of a duty: its own set alone.
    pub(crate) fn own(duty: u8) -> DutyList
        requires { duty < 32 }
        ensures { sets result ≡ own_list duty }
    {
        DutyList::alone(1 << duty)
    }

    // Its sets, in order.
    pub(crate) fn as_slice(&self) -> &[u32]
        ensures sets { result.now ≡ self.now }
        ensures few { length self.now ≤ 32 }
    {
        &self.sets[..self.len]
    }

    // Whether there is no set, so that the list is lost.
    pub(crate) fn is_empty(&self) -> bool
        ensures { result ≡ (length self.now == 0) }
    {
        self.len == 0
    }

    // Puts a set behind the others; none where there are 32 already.
    pub(crate) fn push(&mut self, set: u32) -> Option<()>
        ensures { MatchOption result (length self.old ≡ 32) (λ _. (length self.old < 32) × (self.new ≡ self.old ++ set ∷ [])) }
    {
        if self.len == WIDEST {
            return None;
        }
        self.sets[self.len] = set;
        self.len += 1;
        Some(())
    }
}
