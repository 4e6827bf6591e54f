// Lists that were made before, by the numbers of their parts.
ghost use Rattle.std.specs.Prelude.{◌≡◌, ◌<◌, true, false, replicate, slice_index_or, slice_set};

use crate::list::DutyList;

// Of each part whether its list is known, and what it is: none where it is too wide.
// Kept: marks beside the lists, since many marks are cleared for each round, and the lists behind them are long.
#[derive(Clone, Copy)]
pub(crate) struct Memo {
    known: [bool; 64],
    lists: [Option<DutyList>; 64],
}

impl Memo {
    // Nothing is known yet.
    pub(crate) fn new() -> Memo
        ensures { (result.known ≡ replicate 64 false) × (result.lists ≡ replicate 64 None) }
    {
        Memo {
            known: [false; 64],
            lists: [None; 64],
        }
    }

    // Forgets the list of part `k`.
    pub(crate) fn forget(&mut self, k: usize)
        requires { k < 64 }
        ensures { (self.new.known ≡ slice_set self.old.known k false) × (self.new.lists ≡ self.old.lists) }
    {
        self.known[k] = false;
    }

    // Whether the list of part `k` is known.
    pub(crate) fn is_known(&self, k: usize) -> bool
        requires { k < 64 }
        ensures { result ≡ slice_index_or self.now.known k false }
    {
        self.known[k]
    }

    // The list of part `k`, where it is known.
    pub(crate) fn list(&self, k: usize) -> &Option<DutyList>
        requires { k < 64 }
        ensures { result.now ≡ slice_index_or self.now.lists k None }
    {
        &self.lists[k]
    }

    // Notes the list of part `k`.
    pub(crate) fn note(&mut self, k: usize, list: &Option<DutyList>)
        requires { k < 64 }
        ensures { (self.new.known ≡ slice_set self.old.known k true) × (self.new.lists ≡ slice_set self.old.lists k list.now) }
    {
        self.lists[k] = *list;
        self.known[k] = true;
    }
}
