// A game drawn as chains of records, in bytes that the caller lends.
ghost use Rattle.std.specs.Prelude.{◌≡◌, ◌≤◌, true, is_ok, MatchResult};
ghost use Rattle.arena.specs.Arena.{Arena, Sound};
ghost use Rattle.arena.specs.Diagram.{shape_of, drawable, drawn, sought, head_at, Fielded, WellFormed, Refused, Draws};
ghost use Rattle.arena.proofs.DiagramLaws.{drawn_sound};

use crate::fields::{check_fields, head_at};
use crate::game::Game;
use crate::range::Extent;
use terms::bytes::byte_at;
use terms::refusal::Refusal;
use terms::shape::Shape;

// A diagram whose length and whose fields are right, but for the indices.
#[derive(Drop)]
pub struct Diagram<'a> {
    pub(crate) bytes: &'a [u8],
    pub(crate) shape: Shape,
    ghost few_records: { shape.records ≤ 4000 },
    ghost can_be_drawn: { drawable shape ≡ true },
    ghost headed: { shape ≡ shape_of bytes.now },
    ghost fielded: { Fielded bytes.now },
}

impl<'a> Diagram<'a> {
    // The game that the bytes draw, or the first thing that is wrong with them.
    pub fn read(bytes: &'a [u8]) -> Result<Diagram<'a>, Refusal>
        ensures outcome { MatchResult result (λ d. WellFormed bytes.now × Draws bytes.now (⟦<Diagram<'static> as Game>⟧.meaning d)) (λ e. Refused bytes.now e) }
        ensures only { (a : Arena) → Sound a → Draws bytes.now a → MatchResult result (λ d. a ≡ ⟦<Diagram<'static> as Game>⟧.meaning d) (λ e. Refused bytes.now e) }
        ensures served { WellFormed bytes.now → is_ok result ≡ true }
        ensures refused { (e : Refusal) → Refused bytes.now e → MatchResult result (λ _. ⊥) (λ f. f ≡ e) }
    {
        let shape = check_fields(bytes)?;
        let diagram = Diagram { bytes, shape };
        diagram.check_chains()?;
        diagram.check_moves()?;
        Ok(diagram)
    }

    // The destination of the record for x and y in the chain of p.
    // Kept: the place of the next index stands in the record; an iterator over a chain would be a type, an impl and its
    // laws more, for two walks.
    fn destination(&self, p: u8, x: u8, y: u8) -> u8
        ensures { result ≡ sought self.now.shape self.now.bytes.now self.now.shape.records (head_at p) x y }
    {
        let mut at = head_at(p);
        for _ in 0..self.shape.records {
            let Some(record) = self.record_named(at) else {
                return 0;
            };
            if byte_at(self.bytes, record) == x && byte_at(self.bytes, record + 1) == y {
                return byte_at(self.bytes, record + 2);
            }
            at = record + 4;
        }
        0
    }
}

impl Game for Diagram<'_> {
    ghost meaning = { λ d. drawn d.shape d.bytes.now };

    ghost sound = { λ d. drawn_sound d.shape d.bytes.now };

    fn size(&self) -> u8 {
        self.shape.size
    }

    fn inputs(&self) -> u8 {
        self.shape.inputs
    }

    fn outputs(&self) -> u8 {
        self.shape.outputs
    }

    fn start(&self) -> u8 {
        self.shape.start
    }

    #[tactic(auto, unfolding(arena::specs::Arena::beyond, arena::specs::Diagram::drawable))]
    fn step(&self, p: u8, x: u8, y: u8) -> u8 {
        let extent = Extent {
            size: self.size(),
            inputs: self.inputs(),
            outputs: self.outputs(),
        };
        if extent.is_outside(p, x, y) {
            return 0;
        }
        self.destination(p, x, y)
    }
}
