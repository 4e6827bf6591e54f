// Signals and rules that are read together.
use reader::texts::{Misread, Texts, read};
use rules::part::Part;
use words::name::Name;

// The number and place of what two texts come to; 0 and how many parts the rule has, where both are served.
fn outcome_of(res: Result<Texts, Misread>) -> (u8, usize) {
    match res {
        Ok(texts) => (0, texts.rule.parts as usize),
        Err(misread) => (misread.refusal.number(), misread.refusal.place()),
    }
}

fn both(named: &[u8], ruled: &[u8]) -> (u8, usize) {
    let mut names = [Name { bytes: [0; 8] }; 8];
    let mut parts = [Part::False; 64];
    outcome_of(read(named, ruled, &mut names, &mut parts))
}

#[test]
fn judged_together(rt: HostRuntime) {
    assert_eq!(rt; both(b"in door out lock", b"G (!door | lock)"), (0, 5));
    assert_eq!(rt; both(b"in door\r\nout lock", b"lock ^"), (2, 7));
    assert_eq!(rt; both(b"in door out lock", b"lock\r"), (2, 4));
    assert_eq!(rt; both(b"in door out lock", b"lock & luck"), (5, 7));
    let mut few = [Name { bytes: [1; 8] }; 7];
    let mut parts = [Part::False; 64];
    assert_eq!(rt; outcome_of(read(b"?", b"?", &mut few, &mut parts)), (13, 0));
    assert!(rt; few[6].bytes == [1; 8]);
}
