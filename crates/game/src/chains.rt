// A diagram's chains: every record is in one, and none repeats a move.
ghost use Rattle.std.specs.Prelude.{◌≡◌, ℕ, ◌^◌, ◌<◌, ◌≤◌, List, MatchOption, MatchResult};
ghost use Rattle.arena.specs.Diagram.{record_at, Record, Chain, Distinct, Linked, Unrepeated, WellFormed, Refused};
ghost use Rattle.terms.specs.Bytes.{word};
ghost use Rattle.game.specs.Reading.{Marks, ChainWhole, ChainBroken, ChainsWhole, ChainRepeats};

use crate::diagram::Diagram;
use crate::fields::{head_at, record_at};
use terms::bytes::{byte_at, word_at};
use terms::refusal::Refusal;

impl Diagram<'_> {
    // Follows the chain of p and marks its records. An index is wrong where it names no record, or one that is marked
    // already.
    // Kept: an iterator would give records, and what is refused is the place of an index; the marks are what ends the loop.
    fn mark_chain(&self, p: u8, marks: &mut [bool; 4001]) -> Result<(), Refusal>
        ensures { (qs : List ℕ) → Distinct qs → Marks self.now.shape marks.old qs → MatchResult result (λ _. ChainWhole self.now.shape self.now.bytes.now p qs marks.new) (λ e. (k : ℕ) × (e ≡ Refusal.DiagramChain k) × ChainBroken self.now.shape self.now.bytes.now p qs k) }
    {
        let mut at = head_at(p);
        loop {
            let r = word_at(self.bytes, at);
            if r == 0 {
                return Ok(());
            }
            if r > self.shape.records || marks[r as usize] {
                return Err(Refusal::DiagramChain(at));
            }
            marks[r as usize] = true;
            at = record_at(self.shape, r) + 4;
        }
    }

    // Follows every chain, by position: the marks of the records that they reach.
    fn reached(&self) -> Result<[bool; 4001], Refusal>
        ensures { MatchResult result (ChainsWhole self.now.shape self.now.bytes.now self.now.shape.size) (λ e. Refused self.now.bytes.now e) }
    {
        let mut marks = [false; 4001];
        for p in 1..=self.shape.size {
            self.mark_chain(p, &mut marks)?;
        }
        Ok(marks)
    }

    // Refuses a record that is in no chain, or in two.
    // Kept: with `find` over the records what it found stays an open goal, and the loop refuses where it stands.
    pub(crate) fn check_chains(&self) -> Result<(), Refusal>
        ensures { MatchResult result (λ _. (rs : List ℕ) × Linked self.now.bytes.now rs) (λ e. Refused self.now.bytes.now e) }
    {
        let marks = self.reached()?;
        for r in 1..=self.shape.records {
            if !marks[r as usize] {
                return Err(Refusal::DiagramChain(record_at(self.shape, r)));
            }
        }
        Ok(())
    }

    // Where the record stands that the index at a place names, if it names one.
    pub(crate) fn record_named(&self, at: usize) -> Option<usize>
        ensures { MatchOption result (Record self.now.shape (word self.now.bytes.now at) → ⊥) (λ j. (Record self.now.shape (word self.now.bytes.now at)) × ((j ≡ record_at self.now.shape (word self.now.bytes.now at)) × (j < 2 ^ 20))) }
    {
        let r = word_at(self.bytes, at);
        if r == 0 || r > self.shape.records {
            return None;
        }
        Some(record_at(self.shape, r))
    }

    // Refuses a record of the chain of p that repeats a move. Each move is marked as it is met, in a row of 16 for each input.
    // Kept: the place of the next index stands in the record; an iterator over a chain would be a type, an impl and its
    // laws more, for two walks.
    fn check_moves_of(&self, p: u8) -> Result<(), Refusal>
        requires { (rs : List ℕ) × Chain self.now.shape self.now.bytes.now p rs }
        ensures { MatchResult result (λ _. (rs : List ℕ) → Chain self.now.shape self.now.bytes.now p rs → Unrepeated self.now.shape self.now.bytes.now rs) (λ e. (r : ℕ) × (e ≡ Refusal.DiagramRepeat (record_at self.now.shape r)) × ChainRepeats self.now.shape self.now.bytes.now p r) }
    {
        let mut marks = [false; 256];
        let mut at = head_at(p);
        while let Some(record) = self.record_named(at) {
            let input = byte_at(self.bytes, record) as usize;
            let output = byte_at(self.bytes, record + 1) as usize;
            let number = 16 * input + output;
            if marks[number] {
                return Err(Refusal::DiagramRepeat(record));
            }
            marks[number] = true;
            at = record + 4;
        }
        Ok(())
    }

    // Refuses a record that repeats a move of its chain.
    pub(crate) fn check_moves(&self) -> Result<(), Refusal>
        requires { (rs : List ℕ) × Linked self.now.bytes.now rs }
        ensures { MatchResult result (λ _. WellFormed self.now.bytes.now) (λ e. Refused self.now.bytes.now e) }
    {
        for p in 1..=self.shape.size {
            self.check_moves_of(p)?;
        }
        Ok(())
    }
}
