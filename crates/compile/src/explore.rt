// Exploring: positions in turn, inputs ascending, outputs ascending.
ghost use Rattle.std.specs.Prelude.{◌≡◌, ℕ, ◌*◌, ◌^◌, ◌<◌, ◌≤◌, max, length, slice_index_or, MatchOption};
ghost use Rattle.rules.specs.Sets.{sets};
ghost use Rattle.rules.specs.Progress.{list_after};
ghost use Rattle.compile.specs.Positions.{unused as unused_position};
ghost use Rattle.compile.specs.Progressing.{rule};
ghost use Rattle.compile.specs.Reads.{Covers};
ghost use Rattle.compile.specs.Charting.{Stored, Enters, Goes, Charting, Leaves};
ghost use Rattle.compile.specs.Explored.{Explores};
ghost use Rattle.compile.specs.Compiling.{Builds};

use crate::joins::Joins;
use crate::list::DutyList;
use crate::mask::Mask;
use crate::outline::Outline;
use crate::position::Position;
use crate::progress::Progress;
use crate::turn::{Turn, count_of};
use register::Register;
use terms::refusal::Refusal;
use words::signals::Signals;

// The number of the position with this list, from 1 on, and 0 for the empty list. A list that no position has becomes
// that of a new one; none where the store is full.
// Kept: 0 for the empty list, which is lost, is the number that the moves have for it.
fn enter_list(found: &mut Register<'_, Position>, list: DutyList) -> Option<u8>
    requires { Stored found.old.used found.old.store.now }
    ensures enters { Enters found.old.used list found.old.store.now found.new.store.now result }
    ensures used { MatchOption result (found.new.used ≡ found.old.used) (λ n. found.new.used ≡ max found.old.used n) }
    ensures lender { found.new.store.ghost_name ≡ found.old.store.ghost_name }
{
    if list.is_empty() {
        return Some(0);
    }
    let k = found.enter(Position::of(list))?;
    Some(k as u8 + 1)
}

// A rule that is explored: how its lists go on, and how many signals it has.
// Kept: what is found goes beside it, since a store that lies two fields deep is not known again where it was lent.
#[derive(Drop)]
struct Explorer<'p> {
    progress: Progress<'p>,
    signals: Signals,
    ghost few_inputs: { signals.inputs ≤ 4 },
    ghost few_outputs: { signals.outputs ≤ 4 },
}

impl Explorer<'_> {
    // Round t from the position at p, worked out: the move says the number of the position that it leads to, which is
    // then found.
    fn explore_anew(
        &mut self,
        joins: &mut Joins,
        found: &mut Register<'_, Position>,
        p: usize,
        t: usize,
    ) -> Result<(), Refusal>
        requires round { t < 256 }
        requires stored { (Stored found.old.used found.old.store.now) × (p < found.old.used) }
        ensures goes { Goes self.old.signals.outputs (rule self.old.progress) found.old.used p t found.old.store.now found.new.used found.new.store.now result }
        ensures rule { (rule self.new.progress ≡ rule self.old.progress) × (self.new.signals ≡ self.old.signals) }
        ensures lender { found.new.store.ghost_name ≡ found.old.store.ghost_name }
    {
        let list = found.store[p].list;
        let turn = Turn::at(t, self.signals.outputs);
        let next = self
            .progress
            .list_after(joins, turn, &list)
            .ok_or(Refusal::TooWide(p + 1))?;
        let n = enter_list(found, next).ok_or(Refusal::TooManyPositions)?;
        found.store[p].moves[t] = n;
        Ok(())
    }

    // Round t from the position at p, whose list reads the signals of `mask`: the move of an earlier round that is alike in
    // these is its move too.
    fn explore_round(
        &mut self,
        joins: &mut Joins,
        found: &mut Register<'_, Position>,
        mask: Mask,
        p: usize,
        t: usize,
    ) -> Result<(), Refusal>
        requires round { t < 2 ^ self.old.signals.inputs * 2 ^ self.old.signals.outputs }
        requires charting { (Charting (2 ^ self.old.signals.inputs * 2 ^ self.old.signals.outputs) self.old.signals.outputs (rule self.old.progress) found.old.used p t found.old.store.now) × (p < found.old.used) }
        requires covers { Covers mask (λ r. list_after (rule self.old.progress) r (sets (slice_index_or found.old.store.now p unused_position).list)) }
        ensures goes { Goes self.old.signals.outputs (rule self.old.progress) found.old.used p t found.old.store.now found.new.used found.new.store.now result }
        ensures rule { (rule self.new.progress ≡ rule self.old.progress) × (self.new.signals ≡ self.old.signals) }
        ensures lender { found.new.store.ghost_name ≡ found.old.store.ghost_name }
    {
        let outputs = self.signals.outputs;
        let alike = mask.shown(Turn::at(t, outputs)).number(outputs);
        if t <= alike {
            return self.explore_anew(joins, found, p, t);
        }
        found.store[p].moves[t] = found.store[p].moves[alike];
        Ok(())
    }

    // Every round from the position at p.
    fn explore_position(
        &mut self,
        joins: &mut Joins,
        found: &mut Register<'_, Position>,
        p: usize,
    ) -> Result<(), Refusal>
        requires { (Charting (2 ^ self.old.signals.inputs * 2 ^ self.old.signals.outputs) self.old.signals.outputs (rule self.old.progress) found.old.used p 0 found.old.store.now) × (p < found.old.used) }
        ensures leaves { Leaves self.old.signals.inputs self.old.signals.outputs (rule self.old.progress) found.old.used p found.old.store.now found.new.used found.new.store.now result }
        ensures rule { (rule self.new.progress ≡ rule self.old.progress) × (self.new.signals ≡ self.old.signals) }
        ensures lender { found.new.store.ghost_name ≡ found.old.store.ghost_name }
    {
        let mask = self.progress.outline.list_mask(&found.store[p].list);
        for t in 0..count_of(self.signals.inputs) * count_of(self.signals.outputs) {
            self.explore_round(joins, found, mask, p, t)?;
        }
        Ok(())
    }

    // Every position, from the first on: how many there are.
    fn explore_all(
        &mut self,
        joins: &mut Joins,
        found: &mut Register<'_, Position>,
    ) -> Result<u8, Refusal>
        requires first { Charting (2 ^ self.old.signals.inputs * 2 ^ self.old.signals.outputs) self.old.signals.outputs (rule self.old.progress) 1 0 0 found.old.store.now }
        requires used { found.old.used ≡ 1 }
        ensures explores { Explores self.old.signals.inputs self.old.signals.outputs (rule self.old.progress) (slice_index_or found.old.store.now 0 unused_position).list found.new.store.now result }
        ensures lender { found.new.store.ghost_name ≡ found.old.store.ghost_name }
    {
        let mut p = 0;
        // Kept: the work grows while it is done, so a `for` has no end to count to; this is the plainest worklist.
        while p < found.used {
            self.explore_position(joins, found, p)?;
            p += 1;
        }
        Ok(found.used as u8)
    }
}

// Fills the zero store with the positions that are reached from the list of part `root`, and says how many there are.
pub(crate) fn explore(
    outline: Outline<'_>,
    root: usize,
    signals: Signals,
    positions: &mut [Position],
) -> Result<u8, Refusal>
    requires root { root < length outline.parts.now }
    requires signals { (signals.inputs ≤ 4) × (signals.outputs ≤ 4) }
    requires store { (length positions.old ≡ 255) × (((k : ℕ) → slice_index_or positions.old k unused_position ≡ unused_position)) }
    ensures { Builds signals.inputs signals.outputs outline.entry.parts.now root positions.new result }
{
    let mut progress = Progress::of(outline);
    let mut joins = Joins::new();
    let first = progress
        .list_of(&mut joins, root)
        .ok_or(Refusal::TooWide(0))?;
    if first.is_empty() {
        return Err(Refusal::StartLost);
    }
    positions[0] = Position::of(first);
    let mut found = Register {
        store: positions,
        used: 1,
    };
    let mut explorer = Explorer { progress, signals };
    explorer.explore_all(&mut joins, &mut found)
}
