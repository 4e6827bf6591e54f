// Worked examples of diagrams, books and refusals, run as tests.
#![tactic(auto)]

#[cfg(test)]
mod tests {
    use book::accept::accept;
    use book::solve::solve;
    use book::told::count_told;
    use game::diagram::Diagram;
    use game::pair::Pair;
    use run::play::Play;
    use run::replay::replay;
    use std::alloc::{AllocError, Global};
    use std::test::Fail;
    use terms::call::{Call, Reply, Standing, Step};
    use terms::count::Count;
    use terms::refusal::Refusal;

    // One input, one output, two positions, start 1, and three records: input 0 with output 0 stays at 1, input 1 with
    // output 1 leads from 1 to 2, and input 0 with output 0 leads from 2 to 1. The header, the two heads, the records.
    pub(crate) const WORKED: [u8; 36] = *b"\x01\x01\x02\x01\x00\x03\x00\x00\
        \x00\x01\x00\x03\
        \x00\x00\x01\x00\x00\x02\x00\x00\
        \x01\x01\x02\x00\x00\x00\x00\x00\
        \x00\x00\x01\x00\x00\x00\x00\x00";

    // Its book: 2 is lost at input 1, so it counts 0, and input 1 leads there from 1, which so counts 1. The header, and
    // for each position its count and spoiling input and then its answers.
    pub(crate) const BOOK: [u8; 56] = *b"\x01\x01\x01\x02\x01\x00\x00\x00\
        \x02\x00\x00\x00\x00\x01\x01\x00\
        \x00\x01\x00\x00\x00\x00\x00\x00\x00\x00\x00\x00\x00\x00\x00\x00\
        \x02\x00\x00\x00\x00\x00\x01\x00\
        \x00\x00\x00\x00\x00\x00\x00\x00\x00\x00\x00\x00\x00\x00\x00\x00";

    // A drawn game of one position that moves nowhere.
    const SINGLE: [u8; 10] = *b"\x00\x00\x01\x01\x00\x00\x00\x00\x00\x00";

    // Where two bytes of the worked diagram are put in place of others, the two, and the number and place of the refusal.
    type Change = (usize, [u8; 2], (u8, usize));

    const CHANGES: [Change; 20] = [
        (0, [5, 1], (14, 0)), // five inputs
        (1, [5, 2], (14, 1)), // five outputs
        (2, [0, 1], (14, 2)), // no position
        (3, [0, 0], (14, 3)), // no start
        (3, [3, 0], (14, 3)), // a start that is no position
        (4, [15, 161], (14, 4)), // 4,001 records
        (4, [15, 160], (14, 36)), // 4,000 records, which are not there
        (6, [1, 0], (14, 6)), // the header's alignment
        (6, [0, 1], (14, 6)), // its other byte
        (12, [2, 0], (14, 12)), // record 1: the input
        (12, [0, 2], (14, 13)), // the output
        (14, [0, 0], (14, 14)), // no destination
        (14, [3, 0], (14, 14)), // a destination that is no position
        (14, [1, 1], (14, 15)), // the alignment
        (34, [0, 1], (14, 34)), // record 3: the alignment at its end
        (24, [0, 1], (15, 24)), // record 2 leads back to record 1
        (8, [0, 4], (15, 8)), // a head that names no record
        (10, [0, 0], (15, 28)), // record 3 is not reached
        (10, [0, 1], (15, 10)), // a head shared by two positions
        (20, [0, 0], (16, 20)), // record 2 repeats the move of record 1
    ];

    // The number and place of a refusal, two zeros where there is none.
    fn refusal_of<T: Drop>(res: Result<T, Refusal>) -> (u8, usize) {
        match res {
            Ok(_) => (0, 0),
            Err(refusal) => (refusal.number(), refusal.place()),
        }
    }

    // The worked diagram with two other bytes.
    fn changed(at: usize, bytes: [u8; 2]) -> [u8; 36] {
        let mut image = WORKED;
        if at < 35 {
            image[at] = bytes[0];
            image[at + 1] = bytes[1];
        }
        image
    }

    // A diagram of so many positions, none of which moves anywhere.
    pub(crate) fn still(heap: Global, size: u8) -> Result<Vec<u8>, AllocError> {
        let mut image = vec![in heap; 0, 0, size, 1, 0, 0, 0, 0]?;
        for _ in 0..size {
            image.extend_from_slice(&[0, 0])?;
        }
        Ok(image)
    }

    // A diagram of 255 positions, each of which moves to the next, and the last nowhere.
    pub(crate) fn chain(heap: Global) -> Result<Vec<u8>, AllocError> {
        let mut image = vec![in heap; 0, 0, 255, 1, 0, 254, 0, 0]?;
        let mut records = Vec::new(heap);
        for p in 1..255u8 {
            image.extend_from_slice(&[0, p])?;
            records.extend_from_slice(&[0, 0, p + 1, 0, 0, 0, 0, 0])?;
        }
        image.extend_from_slice(&[0, 0])?;
        image.extend_from_slice(records.as_slice())?;
        Ok(image)
    }

    #[test]
    fn worked_diagram_has_its_book(rt: HostRuntime) -> Result<(), Fail> {
        let mut store = [0; 56];
        assert_eq!(rt; solve(&Diagram::read(&WORKED)?, &mut store)?, 56);
        assert_eq!(rt; &store[0..56], &BOOK[0..56]);
        Ok(())
    }

    #[test]
    fn bytes_behind_the_book_stay(rt: HostRuntime) -> Result<(), Fail> {
        let mut store = [0xAA; 64];
        assert_eq!(rt; solve(&Diagram::read(&WORKED)?, &mut store)?, 56);
        assert_eq!(rt; &store[0..56], &BOOK[0..56]);
        assert_eq!(rt; &store[56..64], &[0xAA; 8][0..8]);
        Ok(())
    }

    #[test]
    fn short_store_is_refused(rt: HostRuntime) -> Result<(), Fail> {
        let mut store = [0xAA; 55];
        let game = Diagram::read(&WORKED)?;
        assert_eq!(rt; refusal_of(solve(&game, &mut store)), (13, 0));
        assert_eq!(rt; &store[0..55], &[0xAA; 55][0..55]);
        let game = Diagram::read(&SINGLE)?;
        assert_eq!(rt; refusal_of(solve(&game, &mut [0; 31])), (13, 0));
        assert_eq!(rt; solve(&game, &mut [0; 32])?, 32);
        Ok(())
    }

    #[test]
    fn wrong_bytes_are_refused(rt: HostRuntime) {
        for (at, bytes, refused) in CHANGES {
            assert_eq!(rt; refusal_of(Diagram::read(&changed(at, bytes))), refused);
        }
    }

    // A wrong length is the refusal's place.
    #[test]
    fn wrong_lengths_are_refused(rt: HostRuntime) -> Result<(), Fail> {
        for len in 0..36 {
            assert_eq!(rt; refusal_of(Diagram::read(&WORKED[0..len])), (14, len));
        }
        let mut image = WORKED.to_vec(rt.alloc())?;
        image.push(0)?;
        assert_eq!(rt; refusal_of(Diagram::read(image.as_slice())), (14, 37));
        Ok(())
    }

    #[test]
    fn pairs_have_255_positions_at_most(rt: HostRuntime) -> Result<(), Fail> {
        let heap = rt.alloc();
        let mut store = vec![in heap; 0u8; 6128]?;
        let (a, b, c) = (still(heap, 15)?, still(heap, 16)?, still(heap, 17)?);
        let pair = Pair::of(Diagram::read(a.as_slice())?, Diagram::read(c.as_slice())?);
        assert_eq!(rt; solve(&pair, store.as_mut_slice())?, 6128);
        let pair = Pair::of(Diagram::read(b.as_slice())?, Diagram::read(b.as_slice())?);
        assert_eq!(rt; refusal_of(solve(&pair, store.as_mut_slice())), (17, 0));
        Ok(())
    }

    // All 256 sweeps are needed: one position is dropped in each but the last.
    #[test]
    fn long_chain_counts_to_254(rt: HostRuntime) -> Result<(), Fail> {
        let image = chain(rt.alloc())?;
        let mut store = vec![in rt.alloc(); 0u8; 6128]?;
        let length = solve(&Diagram::read(image.as_slice())?, store.as_mut_slice())?;
        assert_eq!(rt; length, 6128);
        for p in 1..256usize {
            let record = store.as_slice().get(24 * p - 16..24 * p - 8).unwrap_or(&[]);
            assert_eq!(rt; record, [2, 0, 0, 0, 0, 255 - p as u8, 0, 0].as_slice());
        }
        Ok(())
    }

    // The refusal of the worked diagram's book where its byte at a place is another.
    fn accepted_with(at: usize, byte: u8) -> (u8, usize) {
        let mut book = BOOK;
        if at < 56 {
            book[at] = byte;
        }
        match Diagram::read(&WORKED) {
            Ok(game) => refusal_of(accept(&game, &book)),
            Err(_) => (0, 1),
        }
    }

    #[test]
    fn no_other_byte_is_accepted(rt: HostRuntime) {
        assert_eq!(rt; accepted_with(56, 0), (0, 0));
        for at in 0..56 {
            assert_eq!(rt; accepted_with(at, BOOK[at] ^ 1), (18, 0));
            assert_eq!(rt; accepted_with(at, BOOK[at] ^ 0xAA), (18, 0));
        }
    }

    #[test]
    fn no_other_length_is_accepted(rt: HostRuntime) -> Result<(), Fail> {
        let game = Diagram::read(&WORKED)?;
        assert_eq!(rt; refusal_of(accept(&game, &BOOK[0..55])), (18, 0));
        let mut book = BOOK.to_vec(rt.alloc())?;
        book.push(0)?;
        assert_eq!(rt; refusal_of(accept(&game, book.as_slice())), (18, 0));
        Ok(())
    }

    // Old bytes in the alignment in front of a short count: the book is refused, and the count is read as 1.
    #[test]
    fn stale_alignment_is_no_count(rt: HostRuntime) -> Result<(), Fail> {
        let mut book = BOOK;
        book[10] = 0x0F;
        book[11] = 0xA0;
        assert_eq!(rt;
            refusal_of(accept(&Diagram::read(&WORKED)?, &book)),
            (18, 0)
        );
        assert_eq!(rt; rounds_of(count_told(&book, 1)), 1);
        Ok(())
    }

    // A count as a number, with 65535 for unlimited and 65534 for lost.
    fn rounds_of(count: Count) -> u16 {
        match count {
            Count::Lost => 65534,
            Count::Limited(n) => n,
            Count::Unlimited => 65535,
        }
    }

    // What a call was told: the number of its refusal, 100 and an output, 99 where it is not allowed, or else 0.
    fn told(step: &Step) -> u8 {
        match step.reply {
            Reply::Refused(refusal) => refusal.number(),
            Reply::Output(y) => if y < 16 { 100 + y } else { 0 },
            Reply::NotAllowed => 99,
            _ => 0,
        }
    }

    const ROW: [Call; 12] = [
        Call::Open(2),
        Call::Close,
        Call::Open(0),
        Call::Set(2),
        Call::Set(1),
        Call::Abandon,
        Call::Open(1),
        Call::Open(0),
        Call::Close,
        Call::Open(1),
        Call::Close,
        Call::Open(0),
    ];

    // What each of these calls is told, and the count after it.
    const TOLD: [(u8, u16); 12] = [
        (19, 1),
        (99, 1),
        (100, 1),
        (19, 1),
        (0, 1),
        (0, 1),
        (101, 1),
        (99, 1),
        (0, 0),
        (100, 0),
        (0, 65534),
        (20, 65534),
    ];

    // A row of the worked diagram: refusals change nothing, an abandoned round leaves no trace, and the spoiling input
    // takes the run from count 1 to the loss, where nothing more can be opened.
    #[test]
    fn row_is_told_and_lost(rt: HostRuntime) -> Result<(), Fail> {
        let blank = Step {
            reply: Reply::NotAllowed,
            standing: Standing {
                position: None,
                count: Count::Lost,
            },
        };
        let mut steps = [blank; 12];
        let game = Diagram::read(&WORKED)?;
        let play = Play {
            game: &game,
            book: &BOOK,
        };
        let end = replay(&play, &ROW, &mut steps)?;
        for (step, expected) in steps.iter().zip(TOLD.iter()) {
            assert_eq!(rt; (told(step), rounds_of(step.standing.count)), *expected);
        }
        assert_eq!(rt; rounds_of(end.count), 65534);
        assert_eq!(rt; refusal_of(replay(&play, &ROW, &mut [blank; 11])), (13, 0));
        Ok(())
    }
}

#[cfg(test)]
mod any_bytes;
#[cfg(test)]
mod library;
#[cfg(test)]
mod rule_counts;
#[cfg(test)]
mod rules_compiled;
#[cfg(test)]
mod texts;
