// What the calls of the library come to, in numbers.
use crate::rule_counts::ROW_OF_EIGHT;
use crate::tests::{BOOK, WORKED, still};
use book::told::count_told;
use calls::code::{Answer, CallCode};
use calls::diagram::{accept_diagram, replay_diagram, solve_diagram};
use calls::outcome::Outcome;
use calls::rule::{accept_rule, replay_rule, solve_rule};
use std::alloc::{AllocError, Global};
use std::test::Fail;
use terms::count::Count;

// An outcome: number, layer, text, place, length.
type Numbers = (u32, u32, u32, usize, usize);

// A call in numbers, and its answer.
type Told = ((u8, u8), (u32, i32, u32, i32));

const BLANK: Answer = Answer {
    kind: 100,
    value: 100,
    position: 100,
    count: 100,
};

// A row of the worked diagram: in position 1, in an open round, in position 2, and behind the loss.
const TOLD: [Told; 18] = [
    ((5, 0), (5, 1, 1, 1)),
    ((6, 0), (6, 1, 1, 1)),
    ((7, 0), (7, 1, 1, 1)),
    ((3, 0), (9, 0, 1, 1)),
    ((1, 2), (8, 19, 1, 1)),
    ((1, 1), (1, 1, 1, 1)),
    ((1, 0), (9, 0, 1, 1)),
    ((2, 2), (8, 19, 1, 1)),
    ((2, 0), (2, 0, 1, 1)),
    ((2, 1), (2, 0, 1, 1)),
    ((3, 0), (3, 0, 2, 0)),
    ((1, 0), (1, 0, 2, 0)),
    ((4, 0), (4, 0, 2, 0)),
    ((1, 1), (1, 0, 2, 0)),
    ((3, 0), (3, 0, 0, -1)),
    ((6, 0), (6, -1, 0, -1)),
    ((7, 0), (7, -1, 0, -1)),
    ((1, 0), (8, 20, 0, -1)),
];

const SIGNALS: &[u8] = b"in door out lock";

const RULE: &[u8] = b"G (!door | X lock)";

fn numbers(outcome: Outcome) -> Numbers {
    (
        outcome.number,
        outcome.layer,
        outcome.text,
        outcome.place,
        outcome.length,
    )
}

fn answer(answer: &Answer) -> (u32, i32, u32, i32) {
    (answer.kind, answer.value, answer.position, answer.count)
}

// The row of the calls above.
fn row(heap: Global) -> Result<Vec<CallCode>, AllocError> {
    TOLD.iter()
        .map(|((kind, number), _)| CallCode {
            kind: *kind,
            number: *number,
        })
        .collect(heap)
}

#[test]
fn diagrams_are_solved_and_accepted(rt: HostRuntime) -> Result<(), Fail> {
    let mut short = [0xAA; 55];
    assert_eq!(rt; numbers(solve_diagram(&BOOK, &mut short)), (14, 6, 0, 3, 0));
    assert_eq!(rt;
        numbers(solve_diagram(&WORKED, &mut short)),
        (13, 5, 0, 0, 0)
    );
    assert!(rt; short == [0xAA; 55]);
    let mut store = [0xAA; 64];
    assert_eq!(rt;
        numbers(solve_diagram(&WORKED, &mut store)),
        (0, 0, 0, 0, 56)
    );
    assert_eq!(rt; numbers(accept_diagram(&WORKED, &BOOK)), (0, 0, 0, 0, 56));
    assert_eq!(rt;
        numbers(accept_diagram(&WORKED, &BOOK[..55])),
        (18, 8, 0, 0, 0)
    );
    let longest = still(rt.alloc(), 255)?;
    let mut book = vec![in rt.alloc(); 0u8; 6129]?;
    let solved = solve_diagram(longest.as_slice(), book.as_mut_slice());
    assert_eq!(rt; numbers(solved), (0, 0, 0, 0, 6128));
    let accepted = accept_diagram(longest.as_slice(), book.as_slice());
    assert_eq!(rt; numbers(accepted), (18, 8, 0, 0, 0));
    Ok(())
}

#[test]
fn rules_are_solved_and_accepted(rt: HostRuntime) -> Result<(), Fail> {
    let mut store = [0; 64];
    assert_eq!(rt;
        numbers(solve_rule(SIGNALS, b"false", &mut store)),
        (10, 4, 0, 0, 0)
    );
    assert_eq!(rt;
        numbers(solve_rule(SIGNALS, b"G luck", &mut store)),
        (5, 3, 2, 2, 0)
    );
    assert_eq!(rt;
        numbers(solve_rule(b"in door door", RULE, &mut store)),
        (4, 2, 1, 8, 0)
    );
    assert_eq!(rt;
        numbers(solve_rule(SIGNALS, RULE, &mut store)),
        (0, 0, 0, 0, 56)
    );
    assert_eq!(rt;
        numbers(accept_rule(SIGNALS, RULE, &store)),
        (18, 8, 0, 0, 0)
    );
    let mut exact = [0; 56];
    let _ = solve_rule(SIGNALS, RULE, &mut exact);
    assert_eq!(rt;
        numbers(accept_rule(SIGNALS, RULE, &exact)),
        (0, 0, 0, 0, 56)
    );
    let mut book = vec![in rt.alloc(); 0u8; 6128]?;
    let solved = solve_rule(SIGNALS, ROW_OF_EIGHT.as_bytes(), book.as_mut_slice());
    assert_eq!(rt; numbers(solved), (0, 0, 0, 0, 6128));
    assert_eq!(rt; count_told(book.as_slice(), 255), Count::Limited(7));
    Ok(())
}

// Each call is answered, and the answers behind the row stay.
#[test]
fn rows_are_answered(rt: HostRuntime) -> Result<(), Fail> {
    let mut answers = [BLANK; 20];
    let row = row(rt.alloc())?;
    let outcome = replay_diagram(&WORKED, &BOOK, row.as_slice(), &mut answers);
    assert_eq!(rt; numbers(outcome), (0, 0, 0, 0, 18));
    for (got, (call, expected)) in answers.iter().zip(TOLD.iter()) {
        assert_eq!(rt; answer(got), *expected, "{call:?}");
    }
    assert_eq!(rt; answer(&answers[18]), answer(&BLANK));
    assert_eq!(rt; answer(&answers[19]), answer(&BLANK));
    let many = vec![in rt.alloc(); CallCode { kind: 6, number: 0 }; 300]?;
    let mut answers = vec![in rt.alloc(); BLANK; 300]?;
    let outcome = replay_diagram(&WORKED, &BOOK, many.as_slice(), answers.as_mut_slice());
    assert_eq!(rt; numbers(outcome), (0, 0, 0, 0, 300));
    Ok(())
}

// A count without a limit, and no input that spoils it. There are two inputs and one output.
#[test]
fn rows_of_rules_are_answered(rt: HostRuntime) {
    let signals = b"in door load out lock";
    let mut store = [0; 56];
    let mut answers = [BLANK; 3];
    let _ = solve_rule(signals, RULE, &mut store);
    let row = [
        CallCode { kind: 6, number: 0 },
        CallCode { kind: 7, number: 0 },
    ];
    let outcome = replay_rule(signals, RULE, &store, &row, &mut answers);
    assert_eq!(rt; numbers(outcome), (0, 0, 0, 0, 2));
    assert_eq!(rt; answer(&answers[0]), (6, 65536, 1, 65536));
    assert_eq!(rt; answer(&answers[1]), (7, -1, 1, 65536));
}

// The order is: too little room, a kind that no call has, another book. Nothing is written.
#[test]
fn rows_are_refused(rt: HostRuntime) {
    let mut answers = [BLANK; 3];
    let row = [
        CallCode { kind: 6, number: 0 },
        CallCode { kind: 1, number: 0 },
        CallCode { kind: 8, number: 0 },
    ];
    let short = replay_diagram(&WORKED, &BOOK, &row, &mut answers[..2]);
    assert_eq!(rt; numbers(short), (13, 5, 0, 0, 0));
    let strange = replay_diagram(&WORKED, &BOOK, &row, &mut answers);
    assert_eq!(rt; numbers(strange), (2, 1, 0, 2, 0));
    let strange = replay_diagram(&WORKED, &WORKED, &row, &mut answers);
    assert_eq!(rt; numbers(strange), (2, 1, 0, 2, 0));
    let other = replay_diagram(&WORKED, &WORKED, &row[..2], &mut answers);
    assert_eq!(rt; numbers(other), (18, 8, 0, 0, 0));
    for got in answers.iter() {
        assert_eq!(rt; answer(got), answer(&BLANK));
    }
}
