// How many rounds a position can be held.
ghost use Rattle.std.specs.Prelude.{◌≡◌, Decides};
ghost use Rattle.terms.specs.Order.{AtMost, plus};

// A count of rounds. Lost stands for -1, and unlimited is above every number.
#[derive(Clone, Copy, PartialEq, Eq, PartialOrd, Ord, Default, Debug)]
pub enum Count {
    #[default]
    Lost,
    Limited(u16),
    Unlimited,
}

impl Count {
    // Whether this is no more than the other.
    pub fn is_at_most(self, other: Count) -> bool
        ensures { Decides result (AtMost self other) }
    {
        self <= other
    }

    // Whether this is one round more than the other.
    #[tactic(auto, unfolding(crate::specs::Order::plus))]
    pub fn is_one_more(self, other: Count) -> bool
        ensures { Decides result (self ≡ plus other 1) }
    {
        match (self, other) {
            (Count::Limited(k), Count::Lost) => k == 0,
            (Count::Limited(k), Count::Limited(j)) => k as u32 == j as u32 + 1,
            (Count::Unlimited, Count::Unlimited) => true,
            _ => false,
        }
    }
}
