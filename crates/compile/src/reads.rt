// Which signals the parts of a rule read.
ghost use Rattle.std.specs.Prelude.{◌≡◌, ℕ, ◌<◌, ◌≤◌, length, fold, bit_or, slice_index_or};
ghost use Rattle.rules.specs.Parts.{part, Falls};
ghost use Rattle.compile.specs.Reads.{none, reads_from, Readings};

use crate::mask::Mask;
use rules::part::Part;

// What a part reads, from what its sides read.
// Kept: the number of the part is asked for, since its sides have smaller ones.
fn mask_from(masks: &[Mask; 64], k: usize, part: Part) -> Mask
    requires { (k < 64) × Falls k part }
    ensures { result ≡ reads_from (λ j. slice_index_or masks.now j none) part }
{
    match part {
        Part::True | Part::False | Part::Next(_) => Mask::NONE,
        Part::Literal(signal, _) => Mask::of(signal),
        Part::Release(a, b) | Part::Both(a, b) | Part::Either(a, b) => {
            masks[a as usize].join(masks[b as usize])
        }
    }
}

// What each part of a rule reads in a round, in the order of the parts.
pub(crate) fn masks_of(parts: &[Part]) -> [Mask; 64]
    requires { (length parts.now ≤ 64) × ((k : ℕ) → Falls k (part parts.now k)) }
    ensures { Readings parts.now result }
{
    let mut masks = [Mask::NONE; 64];
    for (k, part) in parts.iter().enumerate() {
        masks[k] = mask_from(&masks, k, *part);
    }
    masks
}

// The sets of a list as one.
pub(crate) fn union(sets: &[u32]) -> u32
    ensures { result ≡ fold bit_or 0 sets.now }
{
    let mut all = 0;
    for set in sets {
        all |= *set;
    }
    all
}
