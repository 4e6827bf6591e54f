// What texts of rules come to, for the input door and the output lock.
use crate::read::{Reading, read_rule};
use rules::part::Part;
use terms::refusal::Refusal;
use words::name::Name;
use words::signals::Signals;

// A text, and the number and place of its refusal; 0 and how many parts it has, where it is served.
struct Case {
    text: &'static str,
    number: u8,
    place: usize,
}

static CASES: [Case; 36] = [
    Case {
        text: "lock ^ door",
        number: 2,
        place: 5,
    },
    Case {
        text: "lock &",
        number: 3,
        place: 6,
    },
    Case {
        text: "G luck",
        number: 5,
        place: 2,
    },
    Case {
        text: "F lock",
        number: 7,
        place: 0,
    },
    Case {
        text: "door U lock",
        number: 7,
        place: 5,
    },
    Case {
        text: "",
        number: 3,
        place: 0,
    },
    Case {
        text: "in",
        number: 3,
        place: 0,
    },
    Case {
        text: "lock | out",
        number: 3,
        place: 7,
    },
    Case {
        text: "lock door",
        number: 3,
        place: 5,
    },
    Case {
        text: "(lock",
        number: 3,
        place: 5,
    },
    Case {
        text: "lock)",
        number: 3,
        place: 4,
    },
    Case {
        text: "! true",
        number: 3,
        place: 2,
    },
    Case {
        text: "!U",
        number: 7,
        place: 1,
    },
    Case {
        text: "doordoordoor",
        number: 5,
        place: 0,
    },
    Case {
        text: "door9",
        number: 5,
        place: 0,
    },
    Case {
        text: "9door",
        number: 2,
        place: 0,
    },
    Case {
        text: "true",
        number: 0,
        place: 1,
    },
    Case {
        text: "X lock & X !lock",
        number: 0,
        place: 5,
    },
    Case {
        text: "G (!door | lock)",
        number: 0,
        place: 5,
    },
    Case {
        text: "lockRdoor",
        number: 0,
        place: 3,
    },
    Case {
        text: "door | lock & door | lock R !door",
        number: 0,
        place: 7,
    },
    Case {
        text: "XXXXXXXXXXXXXXXXXXXXXXXXXXXXXXXXX lock",
        number: 8,
        place: 32,
    },
    Case {
        text: "XXXXXXXXXXXXXXXXXXXXXXXXXXXXXXXX lock",
        number: 9,
        place: 0,
    },
    Case {
        text: "XXXXXXXXXXXXXXXXXXXXXXXXXXXXXXX lock",
        number: 0,
        place: 32,
    },
    Case {
        text: "GGGGGGGGGGGGGGGGGGGGGGGGGGGGGGGGG lock",
        number: 8,
        place: 32,
    },
    Case {
        text: "GGGGGGGGGGGGGGGGGGGGGGGGGGGGGGGG lock",
        number: 9,
        place: 0,
    },
    Case {
        text: "(((((((((((((((((((((((((((((((((lock)))))))))))))))))))))))))))))))))",
        number: 8,
        place: 32,
    },
    Case {
        text: "((((((((((((((((((((((((((((((((lock))))))))))))))))))))))))))))))))",
        number: 0,
        place: 1,
    },
    Case {
        text: "lockRlockRlockRlockRlockRlockRlockRlockRlockRlockRlockRlockRlockRlockRlockRlockRlockRlockRlockRlockRlockRlockRlockRlockRlockRlockRlockRlockRlockRlockRlockRlockRlockRlock",
        number: 8,
        place: 164,
    },
    Case {
        text: "lockRlockRlockRlockRlockRlockRlockRlockRlockRlockRlockRlockRlockRlockRlockRlockRlockRlockRlockRlockRlockRlockRlockRlockRlockRlockRlockRlockRlockRlockRlockRlockRlock",
        number: 9,
        place: 0,
    },
    Case {
        text: "XXXXXXXXXXXXXXXXXXXXXXXXXXXXXXXX)",
        number: 3,
        place: 32,
    },
    Case {
        text: "XXXXXXXXXXXXXXXXXXXXXXXXXXXXXXXXX)",
        number: 8,
        place: 32,
    },
    Case {
        text: "XXXXXXXXXXXXXXXXXXXXXXXXXXXXXXXX^",
        number: 2,
        place: 32,
    },
    Case {
        text: "door|lock|door|lock|door|lock|door|lock|door|lock|door|lock|door|lock|door|lock|door|lock|door|lock|door|lock|door|lock|door|lock|door|lock|door|lock|door|lock|door|lock|door|lock|door|lock|door|lock|door|lock|door|lock|door|lock|door|lock|door|lock|door|lock|door|lock|door|lock|door|lock|door|lock|door|lock|door",
        number: 0,
        place: 64,
    },
    Case {
        text: "door|lock|door|lock|door|lock|door|lock|door|lock|door|lock|door|lock|door|lock|door|lock|door|lock|door|lock|door|lock|door|lock|door|lock|door|lock|door|lock|door|lock|door|lock|door|lock|door|lock|door|lock|door|lock|door|lock|door|lock|door|lock|door|lock|door|lock|door|lock|door|lock|door|lock|door|lock|door|lock",
        number: 9,
        place: 0,
    },
    Case {
        text: "door|lock|door|lock|door|lock|door|lock|door|lock|door|lock|door|lock|door|lock|door|lock|door|lock|door|lock|door|lock|door|lock|door|lock|door|lock|door|lock|door|lock|door|lock|door|lock|door|lock|door|lock|door|lock|door|lock|door|lock|door|lock|door|lock|door|lock|door|lock|door|lock|door|lock|door|lock|door|lock ^",
        number: 2,
        place: 320,
    },
];

fn told(res: Result<Reading, Refusal>) -> (u8, usize) {
    match res {
        Ok(reading) => (0, reading.parts as usize),
        Err(refusal) => (refusal.number(), refusal.place()),
    }
}

fn is_zero(part: Part) -> bool {
    matches!(part, Part::True)
}

// The number and place of what a text comes to.
fn outcome(text: &[u8]) -> (u8, usize) {
    let names = [
        Name {
            bytes: *b"door\0\0\0\0",
        },
        Name {
            bytes: *b"lock\0\0\0\0",
        },
    ];
    let mut parts = [Part::False; 64];
    let signals = Signals {
        inputs: 1,
        outputs: 1,
    };
    told(read_rule(text, &names, signals, &mut parts))
}

#[test]
fn texts(rt: HostRuntime) {
    for case in &CASES {
        assert_eq!(rt;
            outcome(case.text.as_bytes()),
            (case.number, case.place),
            "{}",
            case.text
        );
    }
}

#[test]
fn limits(rt: HostRuntime) {
    let blanks = [b' '; 1025];
    assert_eq!(rt; outcome(&blanks), (1, 0));
    assert_eq!(rt; outcome(&blanks[..1024]), (3, 1024));
    let none = Signals {
        inputs: 0,
        outputs: 0,
    };
    let mut few = [Part::False; 63];
    assert_eq!(rt; told(read_rule(b"true", &[], none, &mut few)), (13, 0));
    assert!(rt; !is_zero(few[0]));
    let mut parts = [Part::False; 64];
    assert_eq!(rt; told(read_rule(b"true &", &[], none, &mut parts)), (3, 6));
    assert!(rt; is_zero(parts[63]));
}
