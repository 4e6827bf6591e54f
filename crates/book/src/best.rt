// The best of several by an order, the lowest on ties.
ghost use Rattle.std.specs.Prelude.{ℕ, ◌<◌, ◌≤◌};
ghost use Rattle.terms.specs.Best.{Best};
ghost use Rattle.book.specs.Picking.{UpTo, Computes};

// The number below n whose key is the least, the lowest on ties.
pub(crate) fn least<K: Ord + Drop, F: Fn(u8) -> K>(n: u8, key: F) -> u8
    requires some { 1 ≤ n }
    requires callable { (x : ℕ) → x < n → F.pre key x }
    ensures { (f : ℕ → K) → Computes (F.post key) n f → Best (λ c d. UpTo K.partial_cmp d c) n f result }
{
    (0..n)
        .min_by_key(
            |x|
                requires { F.pre key x.now }
            { key(*x) },
        )
        .unwrap_or(0)
}
