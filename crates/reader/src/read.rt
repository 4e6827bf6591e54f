// Reading the text of a rule into a lent store of parts.
ghost use Rattle.std.specs.Prelude.{◌≡◌, ◌-◌, ◌<◌, ◌≤◌, [], ◌++◌, length, take, replicate, count_by, Err as Err_of};
ghost use Rattle.terms.specs.declared.refusal.Refusal.TheVariants.{StoreTooShort as store_too_short};
ghost use Rattle.rules.specs.declared.part.Part.TheVariants.{True as true_part};
ghost use Rattle.rules.specs.Rule.{Rule};
ghost use Rattle.rules.specs.Parts.{is_duty};
ghost use Rattle.reader.specs.Names.{known};
ghost use Rattle.reader.specs.Entries.{Enters};
ghost use Rattle.reader.specs.Texts.{ReadRule, Sized, TextComes};

use crate::descent::Source;
use crate::table::{MOST_PARTS, Table};
use rules::part::Part;
use terms::refusal::Refusal;
use words::name::Name;
use words::signals::Signals;

// A text has at most so many bytes, and a rule so many duties.
const MOST_BYTES: usize = 1024;

const MOST_DUTIES: usize = 32;

// A rule that was read: how many parts and duties it has, and the number of its own part.
#[derive(Clone, Copy, PartialEq, Eq, Debug)]
pub struct Reading {
    pub parts: u8,
    pub duties: u8,
    pub root: u8,
}

// How many parts are duties.
fn count_duties(parts: &[Part]) -> usize
    ensures { result ≡ count_by is_duty parts.now }
{
    parts.iter().filter(|part| part.is_duty()).count()
}

// Makes each entry from `from` on the zero entry.
fn clear(parts: &mut [Part], from: usize)
    requires { from ≤ length parts.old }
    ensures { parts.new ≡ take from parts.old ++ replicate (length parts.old - from) true_part }
{
    parts[from..].fill(Part::True);
}

// Makes each entry the zero entry.
// Kept: names are cleared likewise by a call of their own; both are one `fill`.
pub fn clear_parts(parts: &mut [Part])
    ensures { parts.new ≡ replicate (length parts.old) true_part }
{
    parts.fill(Part::True);
}

// The numbers of a rule whose parts were entered, unless it is too large.
fn measured(table: &Table, root: Option<u8>) -> Result<Reading, Refusal>
    ensures { (f : Rule) → Enters [] f table.now root → Sized table.now f result }
{
    let root = root.ok_or(Refusal::RuleTooLarge)?;
    let parts = table.parts();
    let duties = count_duties(parts);
    if duties > MOST_DUTIES {
        return Err(Refusal::RuleTooLarge);
    }
    Ok(Reading {
        parts: parts.len() as u8,
        duties: duties as u8,
        root,
    })
}

// The rule that a text says, with its parts in a table that has none before.
fn read_text(source: &Source<'_>, table: &mut Table) -> Result<Reading, Refusal>
    requires { table.old ≡ [] }
    ensures { TextComes source.now table.new result }
{
    if source.text.len() > MOST_BYTES {
        return Err(Refusal::TextTooLong);
    }
    let root = source.whole(table)?;
    measured(table, root)
}

// Reads the text of a rule. The first names are the inputs, the others the outputs. The parts of the rule stand in the
// first entries of the store, in the order of their completion; the others are zero, and all are where the text is refused.
pub fn read_rule(
    text: &[u8],
    names: &[Name],
    signals: Signals,
    parts: &mut [Part],
) -> Result<Reading, Refusal>
    ensures short { length parts.old < 64 → result ≡ Err_of store_too_short }
    ensures same { length parts.old < 64 → parts.new ≡ parts.old }
    ensures reads { 64 ≤ length parts.old → ReadRule (known names.now signals.inputs signals.outputs) text.now parts.new result }
{
    if parts.len() < MOST_PARTS {
        return Err(Refusal::StoreTooShort);
    }
    let source = Source {
        text,
        names,
        signals,
    };
    let mut table = Table::new();

    // Kept: the store is cleared behind a refusal, and behind the parts of a rule.
    match read_text(&source, &mut table) {
        Ok(reading) => {
            let read = table.parts();
            parts[..read.len()].copy_from_slice(read);
            clear(parts, reading.parts as usize);
            Ok(reading)
        }
        Err(refusal) => {
            clear(parts, 0);
            Err(refusal)
        }
    }
}
