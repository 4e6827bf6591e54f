// "Or" and "and" of lists of duty sets.
ghost use Rattle.std.specs.Prelude.{◌≡◌, ◌+◌, ◌*◌, ◌≤◌, [], ◌++◌, map, length, bit_or};
ghost use Rattle.std.specs.List.{list_any};
ghost use Rattle.rules.specs.Sets.{within, sifted, trim, unions, fit, sets, join_or, join_and};
ghost use Rattle.compile.specs.Listed.{Gives};

use crate::list::DutyList;

// Whether a set of `chosen` is contained in `x`.
fn is_covered(chosen: &[u32], x: u32) -> bool
    ensures { result ≡ list_any (λ y. within y x) chosen.now }
{
    chosen.iter().any(|y| *y & x == *y)
}

// Of ascending sets, those that contain none before them; none where they are more than 32.
fn sift(ascending: &[u32]) -> Option<DutyList>
    ensures { Gives result (fit (sifted [] ascending.now)) }
{
    let mut kept = DutyList::of_false();
    for x in ascending {
        if !is_covered(kept.as_slice(), *x) {
            kept.push(*x)?;
        }
    }
    Some(kept)
}

// The gathered sets with containing ones dropped; none where more than 32 are left.
fn trimmed(gathered: &mut [u32]) -> Option<DutyList>
    ensures { Gives result (fit (trim gathered.old)) }
{
    gathered.sort_unstable();
    sift(gathered)
}

// Writes the union of `x` with each of `ys`.
// Kept: it writes by index, since a `zip` with `iter_mut` leaves open what the row then holds.
fn put_row(x: u32, ys: &[u32], row: &mut [u32])
    requires { length row.old ≡ length ys.now }
    ensures { row.new ≡ map (bit_or x) ys.now }
{
    for (i, y) in ys.iter().enumerate() {
        row[i] = x | *y;
    }
}

// Writes every union of one of `xs` with one of `ys`.
// Kept: the rows are cut by index, since `chunks_exact_mut` asks for a width above 0 and `ys` may be empty.
fn put_unions(xs: &[u32], ys: &[u32], out: &mut [u32])
    requires { length out.old ≡ length xs.now * length ys.now }
    ensures { out.new ≡ unions xs.now ys.now }
{
    let width = ys.len();
    for (i, x) in xs.iter().enumerate() {
        put_row(*x, ys, &mut out[i * width..(i + 1) * width]);
    }
}

// Writes the sets of both, one list behind the other.
// Kept: the two lists are what is joined, and no pair that goes on together.
fn put_both(xs: &[u32], ys: &[u32], out: &mut [u32])
    requires { length out.old ≡ length xs.now + length ys.now }
    ensures { out.new ≡ xs.now ++ ys.now }
{
    let (front, back) = out.split_at_mut(xs.len());
    front.copy_from_slice(xs);
    back.copy_from_slice(ys);
}

// The "or": every set of the two lists, containing ones dropped; none where more than 32 are left.
pub(crate) fn either(a: &DutyList, b: &DutyList) -> Option<DutyList>
    ensures { Gives result (join_or (sets a.now) (sets b.now)) }
{
    let xs = a.as_slice();
    let ys = b.as_slice();
    let mut room = [0; 64];
    let gathered = &mut room[..xs.len() + ys.len()];
    put_both(xs, ys, gathered);
    trimmed(gathered)
}

// The "and", gathered in `room`: every union of one set from each, containing ones dropped; none where more than 32 are
// left.
fn both_in(xs: &[u32], ys: &[u32], room: &mut [u32]) -> Option<DutyList>
    requires { length xs.now * length ys.now ≤ length room.old }
    ensures { Gives result (join_and (sets xs.now) (sets ys.now)) }
{
    let gathered = &mut room[..xs.len() * ys.len()];
    put_unions(xs, ys, gathered);
    trimmed(gathered)
}

// The "and": every union of one set from each, containing ones dropped; none where more than 32 are left.
// Kept: the cases tell lists apart by their lengths, as most lists have one set or none and need no sorting; and of the
// others most are short, and clearing the long room costs more than the join.
pub(crate) fn both(a: &DutyList, b: &DutyList) -> Option<DutyList>
    ensures { Gives result (join_and (sets a.now) (sets b.now)) }
{
    let xs = a.as_slice();
    let ys = b.as_slice();
    match xs.len() * ys.len() {
        0 => Some(DutyList::of_false()),
        1 => Some(DutyList::alone(xs[0] | ys[0])),
        2..=64 => both_in(xs, ys, &mut [0; 64]),
        _ => both_in(xs, ys, &mut [0; 1024]),
    }
}
