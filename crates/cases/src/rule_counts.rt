// How many rounds the positions of a compiled rule can be held, over the input door and the output lock.
use book::solve::solve;
use book::told::count_told;
use compile::compile::compile;
use compile::position::Position;
use rules::part::Part;
use std::alloc::{AllocError, Global};
use std::test::Fail;
use terms::count::Count;
use words::name::Name;

// The counts of a rule's positions, in order; none where the rule is refused.
fn counts_of(heap: Global, ruled: &str) -> Result<Vec<Count>, AllocError> {
    let mut names = [Name::default(); 8];
    let mut parts = [Part::True; 64];
    let mut positions = vec![in heap; Position::unused(); 255]?;
    let mut book = vec![in heap; 0u8; 6128]?;
    let mut counts = Vec::new(heap);
    let compiled = compile(
        b"in door out lock",
        ruled.as_bytes(),
        &mut names,
        &mut parts,
        positions.as_mut_slice(),
    );
    let Ok(numbers) = compiled else {
        return Ok(counts);
    };
    if solve(&numbers.game(positions.as_slice()), book.as_mut_slice()).is_ok() {
        for p in 1..=numbers.positions {
            counts.push(count_told(book.as_slice(), p))?;
        }
    }
    Ok(counts)
}

// Positions are lists and not what they mean, so positions that mean the same may be several; they count the same. The
// first rule has door & G door and then G door; the second the same of the lock. The third asks for nothing in three
// ways: X of it, the lock on or off, and the empty set.
#[test]
fn lists_that_mean_the_same_count_the_same(rt: HostRuntime) -> Result<(), Fail> {
    let heap = rt.alloc();
    let lost = Count::Limited(0);
    let free = Count::Unlimited;
    assert_eq!(rt; counts_of(heap, "G door")?.as_slice(), [lost].as_slice());
    assert_eq!(rt;
        counts_of(heap, "door & G door")?.as_slice(),
        [lost, lost].as_slice()
    );
    assert_eq!(rt;
        counts_of(heap, "lock & G lock")?.as_slice(),
        [free, free].as_slice()
    );
    assert_eq!(rt;
        counts_of(heap, "X(lock | !lock)")?.as_slice(),
        [free, free, free].as_slice()
    );
    Ok(())
}

// A set with the lock on and off is kept until the round that shows it.
#[test]
fn sets_that_disagree_are_held_until_their_round(rt: HostRuntime) -> Result<(), Fail> {
    let heap = rt.alloc();
    let (none, one) = (Count::Limited(0), Count::Limited(1));
    assert_eq!(rt;
        counts_of(heap, "lock & !lock")?.as_slice(),
        [none].as_slice()
    );
    assert_eq!(rt;
        counts_of(heap, "X lock & X !lock")?.as_slice(),
        [one, none].as_slice()
    );
    Ok(())
}

// A door that was on is followed by the lock eight rounds later, and may not be on for eight rounds.
pub(crate) const ROW_OF_EIGHT: &str =
    "G(!door | XXXXXXXX lock) & G(!door | X !door | XX !door | XXX !door
    | XXXX !door | XXXXX !door | XXXXXX !door | XXXXXXX !door)";

// Position p stands for a row of eight rounds: bit k of p - 1 is set where the door was on k rounds before. A round
// leads from the row r to twice r without its highest bit, and the door sets the lowest, so rows are found in the order
// of their numbers. The 256th, with the door on in all, is lost, so as many rounds are held as lack to eight, less one.
#[test]
fn rows_of_doors_are_255_positions(rt: HostRuntime) -> Result<(), Fail> {
    let counts = counts_of(rt.alloc(), ROW_OF_EIGHT)?;
    assert_eq!(rt; counts.len(), 255);
    for (row, count) in counts.iter().enumerate() {
        assert_eq!(rt;
            *count,
            Count::Limited(7 - (row as u8).trailing_ones() as u16),
            "row {row}"
        );
    }
    Ok(())
}
