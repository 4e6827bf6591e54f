// What texts of rules compile to: how many positions, or the number and place of a refusal.
use compile::compile::compile;
use compile::position::Position;
use rules::part::Part;
use std::alloc::{AllocError, Global};
use std::test::Fail;
use words::name::Name;

// A rule over the input door and the output lock, and how many positions its game has.
const SERVED: [(&str, u8); 8] = [
    ("true", 1),
    ("X false", 1),
    ("G (!door | lock)", 1),
    ("G (!door | X lock)", 2),
    ("X X door", 4),
    ("X lock & X !lock", 2),
    ("lock R door", 2),
    ("G(!door|XXXXXXX lock)", 128),
];

// A rule over them, and the number and place of its refusal. The rule with 12 has a list for each row of eight rounds
// with the door on or off, which are 256.
const REFUSED: [(&str, (u8, usize)); 6] = [
    ("false", (10, 0)),
    ("door & !door & false", (10, 0)),
    ("G lock & false", (10, 0)),
    ("(lock | false) & (false | false)", (10, 0)),
    ("G(!door|XXXXXXXX lock)", (12, 0)),
    ("lock & luck", (5, 7)),
];

// Five units that each hold now or in the next round: 32 sets of duties. Six: 64.
const FIVE: &str = "(a|Xa) & (b|Xb) & (c|Xc) & (d|Xd) & (e|Xe)";

const SIX: &str = "(a|Xa) & (b|Xb) & (c|Xc) & (d|Xd) & (e|Xe) & (f|Xf)";

// What stands before five or six units in brackets, the units, what stands behind them, and what the rule comes to. The
// width is judged at every step, from the left, and a list that is too wide refuses what needs it, though another side
// asks for nothing, or for what cannot be; behind an X only a round needs it.
const WIDTHS: [(&str, &str, &str, Outcome); 23] = [
    ("", FIVE, "", Ok(33)), // the start, and then a list for all of a to e that were off, which is one of 32 sets of them
    ("", FIVE, "|f", Err((11, 0))), // 33 sets
    ("", FIVE, "|a", Ok(18)), // a, and 16 sets with X a: those with a are dropped; then true, or a and any of b to e
    ("", FIVE, "|a|f", Ok(18)), // 18 sets, and the same after a round
    ("", FIVE, "|f|a", Err((11, 0))), // 33 sets before the 18
    ("", FIVE, "|f|true", Err((11, 0))), // 33 sets before one
    ("", FIVE, "|true|f", Ok(1)), // the empty set drops all others
    ("", FIVE, "&(f|Xf)&false", Err((11, 0))), // 64 sets before none
    ("", FIVE, "&false&(f|Xf)", Err((10, 0))), // none, from then on
    // After a round the duties of a set are joined from the lowest up, and so are the sets of a list.
    ("X", FIVE, "& X(f|Xf) & X false", Err((11, 1))), // 64 sets before none
    ("X false & X", FIVE, "& X(f|Xf)", Ok(1)), // lost, whatever the round
    ("X", FIVE, "| Xf | X true", Err((11, 1))), // 33 sets before one
    ("X true | X", FIVE, "| Xf", Ok(2)), // the start, and true
    ("", SIX, "", Err((11, 0))),
    ("true | ", SIX, "", Err((11, 0))),
    ("false & ", SIX, "", Err((11, 0))),
    ("true | X", SIX, "", Ok(1)),
    ("X", SIX, "", Err((11, 1))),
    ("X false & X", SIX, "", Err((11, 1))),
    ("XX", SIX, "", Err((11, 2))),
    ("!a | XX", SIX, "", Err((11, 3))), // position 2 is that of true, found first, where a is off
    // Seven rounds with a on or off lead to the positions 128 to 255; 128 is the first that meets the six units, or
    // the first that meets a 256th list where they come one round later.
    ("G(!a|XXXXXXXX f) & XXXXXXXX", SIX, "", Err((11, 128))),
    ("G(!a|XXXXXXXX f) & XXXXXXXXX", SIX, "", Err((12, 0))),
];

// All of e to h in two rounds, and of e and f in a third, beside 32 sets of the same duties of a to d; and the other way
// round. Each of the 1,024 unions of a set from each side is the set of all duties: one set is left.
const ONE_OF_MANY: &str =
    "(e&Xe & f&Xf & g&Xg & h&Xh & XXe&XXf & (a|Xa)&(b|Xb)&(c|Xc)&(d|Xd)&(XXa|XXb))
    & (a&Xa & b&Xb & c&Xc & d&Xd & XXa&XXb & (e|Xe)&(f|Xf)&(g|Xg)&(h|Xh)&(XXe|XXf))";

// How many positions, or the number and place of the refusal.
type Outcome = Result<u8, (u8, usize)>;

// What the texts come to.
fn outcome(heap: Global, named: &[u8], ruled: &[u8]) -> Result<Outcome, AllocError> {
    let mut names = [Name::default(); 8];
    let mut parts = [Part::True; 64];
    let mut positions = vec![in heap; Position::unused(); 255]?;
    let res = compile(
        named,
        ruled,
        &mut names,
        &mut parts,
        positions.as_mut_slice(),
    );
    Ok(match res {
        Ok(numbers) => Ok(numbers.positions),
        Err(misread) => Err((misread.refusal.number(), misread.refusal.place())),
    })
}

#[test]
fn rules_are_served(rt: HostRuntime) -> Result<(), Fail> {
    for (rule, positions) in SERVED {
        let got = outcome(rt.alloc(), b"in door out lock", rule.as_bytes())?;
        assert_eq!(rt; got, Ok(positions));
    }
    Ok(())
}

#[test]
fn rules_are_refused(rt: HostRuntime) -> Result<(), Fail> {
    for (rule, refused) in REFUSED {
        let got = outcome(rt.alloc(), b"in door out lock", rule.as_bytes())?;
        assert_eq!(rt; got, Err(refused));
    }
    Ok(())
}

#[test]
fn width_is_judged_at_every_step(rt: HostRuntime) -> Result<(), Fail> {
    let heap = rt.alloc();
    for (before, units, behind, expected) in WIDTHS {
        let rule = format!(in heap; "{before}({units}){behind}")?;
        let got = outcome(heap, b"in a b c d out e f", rule.as_str().as_bytes())?;
        assert_eq!(rt; got, expected, "{rule}");
    }
    Ok(())
}

// The start, two rounds more, and true: the widest "and" that there is leaves lists of one set.
#[test]
fn widest_and_may_leave_one_set(rt: HostRuntime) -> Result<(), Fail> {
    let heap = rt.alloc();
    let named = b"in a b c d out e f g h";
    assert_eq!(rt; outcome(heap, named, ONE_OF_MANY.as_bytes())?, Ok(4));
    let twice = format!(in heap; "({FIVE}) & ({FIVE})")?;
    assert_eq!(rt; outcome(heap, named, twice.as_str().as_bytes())?, Ok(33));
    Ok(())
}
