// A diagram's fields: where they stand, and whether they are right.
ghost use Rattle.std.specs.Prelude.{◌≡◌, ℕ, ◌+◌, ◌*◌, ◌^◌, ◌<◌, ◌≤◌, true, false, MatchResult};
ghost use Rattle.arena.specs.Diagram.{shape_of, head_at, record_at, Record, HeaderRight, RecordRight, Fielded, Refused};
ghost use Rattle.terms.specs.Bytes.{byte, word};
ghost use Rattle.game.specs.Reading.{RightBelow, RefusesFirst};

use crate::range::count_of;
use terms::bytes::{byte_at, word_at};
use terms::refusal::Refusal;
use terms::shape::Shape;

// Where the head of position p stands.
// Kept: a book's records stand likewise, by another width, but each layout says its own places.
pub(crate) fn head_at(p: u8) -> usize
    ensures { (result ≡ head_at p) × (result < 2 ^ 20) }
{
    8 + 2 * (p as usize).saturating_sub(1)
}

// Where record r stands.
pub(crate) fn record_at(shape: Shape, r: u16) -> usize
    ensures { (result ≡ record_at shape r) × (result < 2 ^ 20) }
{
    8 + 2 * shape.size as usize + 8 * (r as usize).saturating_sub(1)
}

// Refuses the field at a place if it is not right.
fn check(right: bool, place: usize) -> Result<(), Refusal>
    ensures { MatchResult result (λ _. right ≡ true) (λ e. (right ≡ false) × (e ≡ Refusal.DiagramField place)) }
{
    if right {
        Ok(())
    } else {
        Err(Refusal::DiagramField(place))
    }
}

// The numbers in the header, where its fields are right.
fn read_header(bytes: &[u8]) -> Result<Shape, Refusal>
    ensures { MatchResult result (λ h. (h ≡ shape_of bytes.now) × ((k : ℕ) → HeaderRight bytes.now k)) (RefusesFirst (λ j. HeaderRight bytes.now j → ⊥)) }
{
    let shape = Shape {
        inputs: byte_at(bytes, 0),
        outputs: byte_at(bytes, 1),
        size: byte_at(bytes, 2),
        start: byte_at(bytes, 3),
        records: word_at(bytes, 4),
    };
    check(shape.inputs <= 4, 0)?;
    check(shape.outputs <= 4, 1)?;
    check(shape.size >= 1, 2)?;
    check((1..=shape.size).contains(&shape.start), 3)?;
    check(shape.records <= 4000, 4)?;
    check(word_at(bytes, 6) == 0, 6)?;
    Ok(shape)
}

// Refuses the first field of record r that is not right, its index left out.
fn check_record(shape: Shape, bytes: &[u8], r: u16) -> Result<(), Refusal>
    requires { (Record shape r) × ((shape.inputs ≤ 4) × ((shape.outputs ≤ 4) × (RightBelow shape bytes.now (record_at shape r)))) }
    ensures { MatchResult result (λ _. RightBelow shape bytes.now (record_at shape (r + 1))) (RefusesFirst (λ j. RecordRight shape bytes.now j → ⊥)) }
{
    let at = record_at(shape, r);
    check(byte_at(bytes, at) < count_of(shape.inputs), at)?;
    check(byte_at(bytes, at + 1) < count_of(shape.outputs), at + 1)?;
    check((1..=shape.size).contains(&byte_at(bytes, at + 2)), at + 2)?;
    check(byte_at(bytes, at + 3) == 0, at + 3)?;
    check(word_at(bytes, at + 6) == 0, at + 6)?;
    Ok(())
}

// The numbers in the header, where all fields but the indices are right and the length is.
pub(crate) fn check_fields(bytes: &[u8]) -> Result<Shape, Refusal>
    ensures { MatchResult result (λ h. (h ≡ shape_of bytes.now) × Fielded bytes.now) (λ e. Refused bytes.now e) }
{
    check(bytes.len() >= 8, bytes.len())?;
    let shape = read_header(bytes)?;
    check(
        bytes.len() == 8 + 2 * shape.size as usize + 8 * shape.records as usize,
        bytes.len(),
    )?;
    for r in 1..=shape.records {
        check_record(shape, bytes, r)?;
    }
    Ok(shape)
}
