// Compiling the rule that two texts say.
ghost use Rattle.std.specs.Prelude.{◌≡◌, ℕ, ◌<◌, ◌≤◌, length, slice_index_or};
ghost use Rattle.rules.specs.Parts.{part, Falls, duty_number};
ghost use Rattle.compile.specs.Positions.{unused as unused_position};
ghost use Rattle.compile.specs.Compiling.{Builds, Compiles, Only};

use crate::compiled::Compiled;
use crate::explore::explore;
use crate::outline::Outline;
use crate::position::Position;
use reader::read::clear_parts;
use reader::texts::{Misread, Text, read};
use rules::part::Part;
use terms::refusal::Refusal;
use words::name::Name;
use words::signals::{Signals, clear as clear_names};

// The entries that the stores must have.
const NAMES: usize = 8;

const PARTS: usize = 64;

const POSITIONS: usize = 255;

// A refusal that has no place in a text.
fn unplaced(refusal: Refusal) -> Misread
    ensures { result ≡ record { text = Text.Neither; refusal = refusal } }
{
    Misread {
        text: Text::Neither,
        refusal,
    }
}

// Fills the zero store with the positions of the rule that part `root` stands for, and says how many there are.
fn build(
    parts: &[Part],
    root: usize,
    signals: Signals,
    positions: &mut [Position],
) -> Result<u8, Refusal>
    requires parts { (length parts.now ≤ 64) × ((((k : ℕ) → Falls k (part parts.now k))) × ((duty_number parts.now (length parts.now) ≤ 32) × (root < length parts.now))) }
    requires signals { (signals.inputs ≤ 4) × (signals.outputs ≤ 4) }
    requires store { (255 ≤ length positions.old) × (((k : ℕ) → slice_index_or positions.old k unused_position ≡ unused_position)) }
    ensures { Builds signals.inputs signals.outputs parts.now root positions.new result }
{
    explore(
        Outline::of(parts),
        root,
        signals,
        &mut positions[..POSITIONS],
    )
}

// Compiles the rule that the two texts say. Served, the stores hold the names, the parts and the positions, and
// `Compiled::game` with the store of positions is the rule's game. Refused, all three stores are zero, but as they were
// where one of them is too short.
pub fn compile(
    named: &[u8],
    ruled: &[u8],
    names: &mut [Name],
    parts: &mut [Part],
    positions: &mut [Position],
) -> Result<Compiled, Misread>
    ensures outcome { Compiles names.old parts.old positions.old named.now ruled.now result names.new parts.new positions.new }
    ensures only { Only names.old parts.old positions.old named.now ruled.now result names.new parts.new positions.new }
{
    if names.len() < NAMES || parts.len() < PARTS || positions.len() < POSITIONS {
        return Err(unplaced(Refusal::StoreTooShort));
    }
    positions.fill(Position::unused());
    let texts = read(named, ruled, names, parts)?;
    let signals = texts.signals;
    let count = texts.rule.parts as usize;
    // Kept: the three stores are cleared behind a refusal.
    match build(
        &parts[..count],
        texts.rule.root as usize,
        signals,
        positions,
    ) {
        Ok(found) => Ok(Compiled {
            inputs: signals.inputs,
            outputs: signals.outputs,
            positions: found,
        }),
        Err(refusal) => {
            clear_names(names);
            clear_parts(parts);
            positions.fill(Position::unused());
            Err(unplaced(refusal))
        }
    }
}
