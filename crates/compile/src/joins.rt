// Long joins that were made before.
ghost use Rattle.std.specs.Prelude.{◌≡◌, ◌<◌, Decides, MatchOption};
ghost use Rattle.rules.specs.Sets.{too_wide, sets, join_and};
ghost use Rattle.compile.specs.Listed.{Gives};
ghost use Rattle.compile.specs.Known.{gives_prop};

use crate::join::both;
use crate::list::DutyList;

// How many are kept.
const SLOTS: usize = 256;

// Two lists, and their "and".
#[derive(Clone, Copy)]
struct Made {
    first: DutyList,
    second: DutyList,
    list: Option<DutyList>,
    ghost right: { Gives list (join_and (sets first) (sets second)) } by { gives_prop list (join_and (sets first) (sets second)) },
}

impl Made {
    fn of(first: DutyList, second: DutyList) -> Made
        ensures { (result.first ≡ first) × (result.second ≡ second) }
    {
        let list = both(&first, &second);
        Made {
            first,
            second,
            list,
        }
    }

    // Whether it is the "and" of these two.
    fn is_of(&self, a: &DutyList, b: &DutyList) -> bool
        ensures { Decides result ((self.now.first ≡ a.now) × (self.now.second ≡ b.now)) }
    {
        self.first.as_slice() == a.as_slice() && self.second.as_slice() == b.as_slice()
    }
}

// The number of one of the slots, which two lists share with few others. Any one is right.
fn slot_of(a: &DutyList, b: &DutyList) -> usize
    ensures { result < 256 }
{
    let first = mixed(0, a.as_slice());
    (mixed(first, b.as_slice()) >> 24) as usize
}

// A number that few lists have in common, in its upper digits. Any one is right.
fn mixed(start: u32, sets: &[u32]) -> u32 {
    sets.iter().fold(
        start,
        |sum, set| (sum.rotate_left(5) ^ *set).wrapping_mul(0x9E37_79B1),
    )
}

// The long joins that were made last.
#[derive(Clone, Copy)]
pub(crate) struct Joins {
    made: [Made; SLOTS],
}

impl Joins {
    // No join but that of two empty lists.
    pub(crate) fn new() -> Joins {
        Joins {
            made: [Made::of(DutyList::of_false(), DutyList::of_false()); SLOTS],
        }
    }

    // The "and" of two lists. A long join is made once while it is kept; a short one takes no longer than to
    // look for it.
    pub(crate) fn both(&mut self, a: &DutyList, b: &DutyList) -> Option<DutyList>
        ensures { Gives result (join_and (sets a.now) (sets b.now)) }
    {
        if a.as_slice().len() * b.as_slice().len() <= 64 {
            return both(a, b);
        }
        let slot = slot_of(a, b);
        if !self.made[slot].is_of(a, b) {
            self.made[slot] = Made::of(*a, *b);
        }
        self.made[slot].list
    }

    // Joins another list to `all`, in place where each has one set, or `all` has none.
    pub(crate) fn add(&mut self, all: &mut DutyList, one: &DutyList) -> Option<()>
        ensures { MatchOption result (join_and (sets all.old) (sets one.now) ≡ too_wide) (λ _. join_and (sets all.old) (sets one.now) ≡ sets all.new) }
    {
        let xs = all.as_slice();
        let ys = one.as_slice();
        if xs.is_empty() {
            return Some(());
        }
        if xs.len() * ys.len() == 1 {
            *all = DutyList::alone(xs[0] | ys[0]);
            return Some(());
        }
        *all = self.both(all, one)?;
        Some(())
    }
}
