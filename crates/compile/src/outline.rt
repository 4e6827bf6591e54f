// A rule's parts with the numbers of their duties and the signals that they read.
ghost use Rattle.std.specs.Prelude.{◌≡◌, ℕ, ◌<◌, ◌≤◌, length};
ghost use Rattle.rules.specs.Sets.{sets};
ghost use Rattle.rules.specs.Parts.{part, Falls, duty_number, duty_part};
ghost use Rattle.rules.specs.Progress.{part_after, list_after};
ghost use Rattle.compile.specs.Outlined.{Outlines, outlines_prop};
ghost use Rattle.compile.specs.Reads.{Covers, Readings, readings_prop};

use crate::list::DutyList;
use crate::mask::Mask;
use crate::reads::{masks_of, union};
use rules::part::Part;

// The parts of a rule, the duty number of each, the part of each duty, and which signals each part reads.
// Kept: the parts are the caller's, so their numbers stand beside them; the owners lead back, from duties to parts. Where
// there is no such duty the owner is the number of all parts: options in an array of a struct that borrows cannot be read
// by index yet.
#[derive(Clone, Copy)]
pub(crate) struct Outline<'p> {
    pub(crate) parts: &'p [Part],
    pub(crate) numbers: [u8; 64],
    pub(crate) owners: [u8; 32],
    pub(crate) masks: [Mask; 64],
    ghost outlines: { Outlines parts.now numbers owners } by { outlines_prop parts.now numbers owners },
    ghost reads: { Readings parts.now masks } by { readings_prop parts.now masks },
}

impl<'p> Outline<'p> {
    // Numbers the duties of a rule's parts in the order of the parts.
    pub(crate) fn of(parts: &'p [Part]) -> Outline<'p>
        requires { (length parts.now ≤ 64) × ((((k : ℕ) → Falls k (part parts.now k))) × (duty_number parts.now (length parts.now) ≤ 32)) }
        ensures { result.parts.now ≡ parts.now }
    {
        let mut numbers = [0; 64];
        let mut owners = [parts.len() as u8; 32];
        let mut next = 0;
        // Kept: the duties are counted among the parts, which no one iterator numbers.
        for (k, part) in parts.iter().enumerate() {
            numbers[k] = next;
            if part.is_duty() {
                owners[next as usize] = k as u8;
                next += 1;
            }
        }
        Outline {
            parts,
            numbers,
            owners,
            masks: masks_of(parts),
        }
    }

    // What duty `d` reads in a round; where there is none, nothing.
    fn duty_mask(&self, d: usize) -> Mask
        requires { d < 32 }
        ensures { Covers result (λ r. part_after self.now.parts.now r (duty_part self.now.parts.now d)) }
    {
        let k = self.owners[d] as usize;
        if k < self.parts.len() {
            self.masks[k]
        } else {
            Mask::NONE
        }
    }

    // What the duties of a list read in a round.
    pub(crate) fn list_mask(&self, list: &DutyList) -> Mask
        ensures { Covers result (λ r. list_after self.now.parts.now r (sets list.now)) }
    {
        let duties = union(list.as_slice());
        let mut mask = Mask::NONE;
        for d in 0..32 {
            if duties >> d & 1 == 1 {
                mask = mask.join(self.duty_mask(d));
            }
        }
        mask
    }
}
