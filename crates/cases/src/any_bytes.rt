// Calls of a run and readings of a book where the bytes are no game's book, and calls that the program does not make.
use crate::tests::{BOOK, WORKED, chain};
use book::told::{answer_told, count_told, flag_told};
use game::diagram::Diagram;
use run::play::Play;
use run::questions::Questions;
use run::replay::replay;
use run::run::Run;
use std::test::Fail;
use terms::bytes::byte_at;
use terms::call::{Call, Reply, Standing, Step};
use terms::count::Count;
use terms::refusal::Refusal;

// Counts in their order.
const COUNTS: [Count; 5] = [
    Count::Lost,
    Count::Limited(0),
    Count::Limited(1),
    Count::Limited(65535),
    Count::Unlimited,
];

#[test]
fn counts_are_ordered(rt: HostRuntime) {
    for (i, c) in COUNTS.iter().enumerate() {
        for (j, d) in COUNTS.iter().enumerate() {
            assert_eq!(rt; c.is_at_most(*d), i <= j, "{c:?} {d:?}");
            let one_more = matches!((i, j), (1, 0) | (2, 1) | (4, 4));
            assert_eq!(rt; c.is_one_more(*d), one_more, "{c:?} {d:?}");
        }
    }
}

// What is cut off is read as 0.
#[test]
fn cut_books_tell_zeros(rt: HostRuntime) {
    let mut book = BOOK;
    book[12] = 1;
    assert_eq!(rt; count_told(&book[..13], 1), Count::Limited(256));
    assert_eq!(rt; count_told(&book[..12], 1), Count::Limited(0));
    assert_eq!(rt; count_told(&book[..8], 1), Count::Limited(0));
    assert_eq!(rt; flag_told(&book, 3), 0);
    assert_eq!(rt; answer_told(&book[..17], 1, 1), 0);
    assert_eq!(rt; byte_at(&[1, 2], 2), 0);
}

// A run by a book without its record, or with a status that is none, is refused what it asks.
#[test]
fn runs_need_their_record(rt: HostRuntime) -> Result<(), Fail> {
    let game = Diagram::read(&WORKED)?;
    let mut flagged = BOOK;
    flagged[32] = 3;
    let play = Play {
        game: &game,
        book: &BOOK,
    };
    let run = Run::start(&play)?;
    match run.open(&play, 1) {
        Ok(round) => {
            let run = round.close(&play);
            assert_eq!(rt; run.position(&play), Ok(Some(2)));
            for book in [&BOOK[..55], &BOOK[..49], &BOOK[..32], &flagged[..]] {
                let play = Play { game: &game, book };
                assert_eq!(rt; run.position(&play), Err(Refusal::NotThisBook));
            }
        }
        Err(declined) => assert_eq!(rt; declined.refusal.number(), 0),
    }
    Ok(())
}

// A consultation leaves the run where it was.
#[test]
fn consulting_plays_no_round(rt: HostRuntime) -> Result<(), Fail> {
    let game = Diagram::read(&WORKED)?;
    let play = Play {
        game: &game,
        book: &BOOK,
    };
    match Run::start(&play)?.consult(&play, 1) {
        Ok((run, output)) => {
            assert_eq!(rt; output, 1);
            assert_eq!(rt; run.position(&play), Ok(Some(1)));
        }
        Err(declined) => assert_eq!(rt; declined.refusal.number(), 0),
    }
    Ok(())
}

// A refused row writes nothing, and a served one nothing behind its steps. A round that is open at the end is abandoned.
#[test]
fn other_steps_stay(rt: HostRuntime) -> Result<(), Fail> {
    let kept = Step {
        reply: Reply::Closed,
        standing: Standing {
            position: Some(7),
            count: Count::Unlimited,
        },
    };
    let mut steps = [kept; 2];
    let game = Diagram::read(&WORKED)?;
    let other = Play {
        game: &game,
        book: &WORKED,
    };
    let refused = replay(&other, &[Call::Open(0)], &mut steps);
    assert_eq!(rt; refused, Err(Refusal::NotThisBook));
    assert_eq!(rt; steps[0], kept);
    let play = Play {
        game: &game,
        book: &BOOK,
    };
    let end = replay(&play, &[Call::Open(0)], &mut steps)?;
    assert_eq!(rt; end, steps[0].standing);
    assert_eq!(rt; end.position, Some(1));
    assert_eq!(rt; steps[1], kept);
    Ok(())
}

// A round that is abandoned at the last of 255 positions.
#[test]
fn last_position_is_kept(rt: HostRuntime) -> Result<(), Fail> {
    let heap = rt.alloc();
    let image = chain(heap)?;
    let game = Diagram::read(image.as_slice())?;
    let mut store = vec![in heap; 0u8; 6128]?;
    let _ = book::solve::solve(&game, store.as_mut_slice())?;
    let play = Play {
        game: &game,
        book: store.as_slice(),
    };
    let mut row = Vec::new(heap);
    for _ in 0..254u8 {
        row.extend_from_slice(&[Call::Open(0), Call::Close])?;
    }
    row.extend_from_slice(&[Call::Open(0), Call::Abandon])?;
    let mut steps = vec![in heap; Step::default(); 510]?;
    let end = replay(&play, row.as_slice(), steps.as_mut_slice())?;
    assert_eq!(rt; end.position, Some(255));
    assert_eq!(rt; end.count, Count::Limited(0));
    Ok(())
}
