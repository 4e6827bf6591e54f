// Reading a signals text and the text of a rule together.
ghost use Rattle.reader.specs.Both.{Both};

use crate::read::{Reading, clear_parts, read_rule};
use crate::table::MOST_PARTS;
use rules::part::Part;
use terms::refusal::Refusal;
use words::name::Name;
use words::signals::{Signals, clear as clear_names, read_signals};

// There are at most so many signals.
const MOST_SIGNALS: usize = 8;

// Which text a refusal is about; a store that is too short is refused before either is read.
// Kept: no text is a case with a name, as what is said of refusals has three cases.
#[derive(Clone, Copy, PartialEq, Eq, Debug)]
pub enum Text {
    Neither,
    Signals,
    Rule,
}

// A refusal, and the text that has its place.
#[derive(Drop)]
pub struct Misread {
    pub text: Text,
    pub refusal: Refusal,
}

// What two texts say: how many signals there are, and the rule.
#[derive(Clone, Copy)]
pub struct Texts {
    pub signals: Signals,
    pub rule: Reading,
}

// Reads the names of the signals, and then the rule over them. Both stores are zero behind a refusal, but as they were
// where one of them is too short.
pub fn read(
    named: &[u8],
    ruled: &[u8],
    names: &mut [Name],
    parts: &mut [Part],
) -> Result<Texts, Misread>
    ensures { Both names.old parts.old named.now ruled.now result names.new parts.new }
{
    if names.len() < MOST_SIGNALS || parts.len() < MOST_PARTS {
        return Err(Misread {
            text: Text::Neither,
            refusal: Refusal::StoreTooShort,
        });
    }
    clear_parts(parts);
    let signals = read_signals(named, names).map_err(|refusal| Misread {
        text: Text::Signals,
        refusal,
    })?;
    // Kept: the names are cleared behind a refusal.
    match read_rule(ruled, names, signals, parts) {
        Ok(rule) => Ok(Texts { signals, rule }),
        Err(refusal) => {
            clear_names(names);
            Err(Misread {
                text: Text::Rule,
                refusal,
            })
        }
    }
}
