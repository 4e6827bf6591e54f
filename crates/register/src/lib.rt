// Entries in a store that the caller lends, each numbered by its place.
#![tactic(auto)]

ghost use Rattle.std.specs.Prelude.{◌≡◌, ℕ, Bool, true, false, ◌↔◌, length, Some};
ghost use Rattle.register.specs.Places.{found, First, used_after, Entered};

// What can be the same as another.
pub trait Same {
    ghost same: { Self → Self → Bool };

    fn same_as(&self, other: &Self) -> bool
        ensures { result ≡ same self.now other.now };

    ghost reflexive: { (x : Self) → same x x ≡ true };

    ghost symmetric: { (x y : Self) → same x y ≡ true → same y x ≡ true };

    ghost transitive: { (x y z : Self) → same x y ≡ true → same y z ≡ true → same x z ≡ true };
}

// The number of the first entry that is the same as `e`.
pub fn find<E: Same>(entries: &[E], e: &E) -> Option<usize>
    ensures value { result ≡ found E.same e.now entries.now }
    ensures first { (k : ℕ) → (result ≡ Some k) ↔ First E.same e.now (length entries.now) entries.now k }
{
    entries.iter().position(|x| e.same_as(x))
}

// Gives `e` its number, and writes it behind the `used` entries where none of them is the same and there is room.
fn find_or_add<E: Same + Copy>(store: &mut [E], used: usize, e: E) -> Option<usize>
    ensures { Entered E.same e used store.old result store.new }
{
    if let Some(k) = find(store.get(..used)?, &e) {
        return Some(k);
    }
    if used == store.len() {
        return None;
    }
    store[used] = e;
    Some(used)
}

// A store whose first `used` entries are in use.
// Kept: the store is the caller's, lent for a time, and there is no heap.
#[derive(Drop)]
pub struct Register<'s, E> {
    pub store: &'s mut [E],
    pub used: usize,
}

impl<'s, E: Same + Copy> Register<'s, E> {
    // The number of `e`: that of the first entry in use that is the same, else the next, where it is then written.
    // There is none where the store is full.
    pub fn enter(&mut self, e: E) -> Option<usize>
        ensures entered { Entered E.same e self.old.used self.old.store.now result self.new.store.now }
        ensures used { self.new.used ≡ used_after self.old.used result }
        ensures lender { self.new.store.ghost_name ≡ self.old.store.ghost_name }
    {
        let k = find_or_add(self.store, self.used, e)?;
        self.used = self.used.max(k + 1);
        Some(k)
    }
}
