// The list of a part, and lists after a round.
ghost use Rattle.std.specs.Prelude.{◌≡◌, ◌<◌, true, false, length, slice_index_or, MatchOption, if◌then◌else◌, ◌==◌};
ghost use Rattle.rules.specs.Rule.{bit, agrees};
ghost use Rattle.rules.specs.Sets.{too_wide, sets, join_or, join_and};
ghost use Rattle.rules.specs.Progress.{of_true, of_false, own as own_list, list_of, part_after, set_after, list_after};
ghost use Rattle.rules.specs.Parts.{duty_part};
ghost use Rattle.compile.specs.Listed.{Gives};
ghost use Rattle.compile.specs.Known.{Remembers, remembers_prop, join_duty};
ghost use Rattle.compile.specs.Played.{played};

use crate::join::either;
use crate::joins::Joins;
use crate::list::DutyList;
use crate::memo::Memo;
use crate::outline::Outline;
use crate::turn::Turn;
use rules::part::{Part, Signal};

// Whether signal `k` is on in a round's number.
fn is_on(number: u8, k: u8) -> bool
    ensures { result ≡ (bit number k == 1) }
{
    k < 8 && number >> k & 1 == 1
}

fn is_agreed(turn: Turn, signal: Signal, want: bool) -> bool
    ensures { result ≡ agrees (played turn) signal want }
{
    let on = match signal {
        Signal::Input(k) => is_on(turn.input, k),
        Signal::Output(k) => is_on(turn.output, k),
    };
    on == want
}

// The list of `true` or of `false`.
fn constant(holds: bool) -> DutyList
    ensures { sets result ≡ (if holds then of_true else of_false) }
{
    if holds {
        DutyList::of_true()
    } else {
        DutyList::of_false()
    }
}

// What `a R b` leaves: b after the round, and a after the round or the duty itself.
fn released(joins: &mut Joins, b: &DutyList, a: &DutyList, duty: u8) -> Option<DutyList>
    requires { duty < 32 }
    ensures { Gives result (join_and (sets b.now) (join_or (sets a.now) (own_list duty))) }
{
    let held = either(a, &DutyList::own(duty))?;
    joins.both(b, &held)
}

// What is worked out of a rule, each once: the lists of its parts, and those of its parts after a round.
#[derive(Drop)]
pub(crate) struct Progress<'p> {
    pub(crate) outline: Outline<'p>,
    lists: Memo,
    pub(crate) turn: Turn,
    afters: Memo,
    ghost lists_right: { Remembers (list_of outline.parts.now) lists.known lists.lists } by { remembers_prop (list_of outline.parts.now) lists.known lists.lists },
    ghost afters_right: { Remembers (part_after outline.parts.now (played turn)) afters.known afters.lists } by { remembers_prop (part_after outline.parts.now (played turn)) afters.known afters.lists },
}

impl<'p> Progress<'p> {
    ghost use Rattle.compile.specs.Progressing.{rule, round, Stays};

    // Nothing is worked out of the rule yet.
    // Kept: each call below says that rule and round stay, since they lie behind the same `&mut self` as what is noted.
    pub(crate) fn of(outline: Outline<'p>) -> Progress<'p>
        ensures { rule result ≡ outline.entry.parts.now }
    {
        Progress {
            outline,
            lists: Memo::new(),
            turn: Turn {
                input: 0,
                output: 0,
            },
            afters: Memo::new(),
        }
    }

    // The list of part `k`, made once.
    // Kept: five calls ask that k is a part; a type for numbers of parts would be taken apart at each use.
    // Kept: `part_after` is its twin, but one function of both would borrow a memory and all of `self` at once.
    #[cycle(expanded_list_of)]
    pub(crate) fn list_of(&mut self, joins: &mut Joins, k: usize) -> Option<DutyList>
        requires { k < length (rule self.old) }
        ensures value { Gives result (list_of (rule self.old) k) }
        ensures stays { Stays self.old self.new }
    {
        if !self.lists.is_known(k) {
            let list = self.expanded(joins, k);
            self.lists.note(k, &list);
        }
        *self.lists.list(k)
    }

    // The list of part `k`, from those of its sides.
    // Kept: the arms of both and either differ in the join alone, and a call through a closure in a recursion gets no proof.
    #[cycle(expanded_list_of)]
    fn expanded(&mut self, joins: &mut Joins, k: usize) -> Option<DutyList>
        requires { k < length (rule self.old) }
        ensures value { Gives result (list_of (rule self.old) k) }
        ensures stays { Stays self.old self.new }
    {
        match self.outline.parts[k] {
            Part::True => Some(DutyList::of_true()),
            Part::False => Some(DutyList::of_false()),
            Part::Literal(_, _) | Part::Next(_) | Part::Release(_, _) => {
                Some(DutyList::own(self.outline.numbers[k]))
            }
            Part::Both(a, b) => {
                let x = self.list_of(joins, a as usize)?;
                let y = self.list_of(joins, b as usize)?;
                joins.both(&x, &y)
            }
            Part::Either(a, b) => {
                let x = self.list_of(joins, a as usize)?;
                let y = self.list_of(joins, b as usize)?;
                either(&x, &y)
            }
        }
    }

    // Part `k` after the round, made once.
    #[cycle(part_after_progressed)]
    fn part_after(&mut self, joins: &mut Joins, k: usize) -> Option<DutyList>
        requires { k < length (rule self.old) }
        ensures value { Gives result (part_after (rule self.old) (round self.old) k) }
        ensures stays { Stays self.old self.new }
    {
        self.find_after(joins, k);
        *self.afters.list(k)
    }

    // Works out part `k` after the round, where that is not known.
    #[cycle(part_after_progressed)]
    fn find_after(&mut self, joins: &mut Joins, k: usize)
        requires { k < length (rule self.old) }
        ensures known { slice_index_or self.new.afters.known k false ≡ true }
        ensures stays { Stays self.old self.new }
    {
        if !self.afters.is_known(k) {
            let list = self.progressed(joins, k);
            self.afters.note(k, &list);
        }
    }

    // Part `k` after the round, from its sides.
    #[cycle(part_after_progressed)]
    fn progressed(&mut self, joins: &mut Joins, k: usize) -> Option<DutyList>
        requires { k < length (rule self.old) }
        ensures value { Gives result (part_after (rule self.old) (round self.old) k) }
        ensures stays { Stays self.old self.new }
    {
        match self.outline.parts[k] {
            Part::True => Some(DutyList::of_true()),
            Part::False => Some(DutyList::of_false()),
            Part::Literal(signal, want) => { Some(constant(is_agreed(self.turn, signal, want))) }
            Part::Next(f) => self.list_of(joins, f as usize),
            Part::Release(a, b) => {
                let y = self.part_after(joins, b as usize)?;
                let x = self.part_after(joins, a as usize)?;
                let duty = self.outline.numbers[k];
                released(joins, &y, &x, duty)
            }
            Part::Both(a, b) => {
                let x = self.part_after(joins, a as usize)?;
                let y = self.part_after(joins, b as usize)?;
                joins.both(&x, &y)
            }
            Part::Either(a, b) => {
                let x = self.part_after(joins, a as usize)?;
                let y = self.part_after(joins, b as usize)?;
                either(&x, &y)
            }
        }
    }

    // Joins duty `d` after the round to `all`; where there is none, `true`.
    fn add_duty(&mut self, joins: &mut Joins, all: &mut DutyList, d: u32) -> Option<()>
        requires { d < 32 }
        ensures value { MatchOption result (join_duty (rule self.old) (round self.old) (sets all.old) d ≡ too_wide) (λ _. join_duty (rule self.old) (round self.old) (sets all.old) d ≡ sets all.new) }
        ensures stays { Stays self.old self.new }
    {
        let k = self.outline.owners[d as usize] as usize;
        if k >= self.outline.parts.len() {
            return joins.add(all, &DutyList::of_true());
        }
        self.find_after(joins, k);
        match self.afters.list(k) {
            None => None,
            Some(one) => joins.add(all, one),
        }
    }

    // All duties of a set after the round, from the lowest up.
    fn set_after(&mut self, joins: &mut Joins, set: u32) -> Option<DutyList>
        ensures value { Gives result (set_after (rule self.old) (round self.old) set) }
        ensures stays { Stays self.old self.new }
    {
        let mut rest = set;
        let mut all = DutyList::of_true();
        // Kept: a set's next duty is found by its trailing zeros, which is the order that the definitions have.
        while rest != 0 {
            self.add_duty(joins, &mut all, rest.trailing_zeros())?;
            rest &= rest - 1;
        }
        Some(all)
    }

    // Goes on to another round. Parts that read nothing in which the two differ are known still.
    fn turn_to(&mut self, turn: Turn)
        ensures { (rule self.new ≡ rule self.old) × (self.new.turn ≡ turn) }
    {
        for k in 0..64 {
            if !self.outline.masks[k].hides(self.turn, turn) {
                self.afters.forget(k);
            }
        }
        self.turn = turn;
    }

    // A list after the round: the sets after it, in order.
    fn list_joined(&mut self, joins: &mut Joins, list: &DutyList) -> Option<DutyList>
        ensures value { Gives result (list_after (rule self.old) (round self.old) (sets list.now)) }
        ensures stays { rule self.new ≡ rule self.old }
    {
        let mut any = DutyList::of_false();
        for set in list.as_slice() {
            let one = self.set_after(joins, *set)?;
            any = either(&any, &one)?;
        }
        Some(any)
    }

    // A list after a round.
    pub(crate) fn list_after(
        &mut self,
        joins: &mut Joins,
        turn: Turn,
        list: &DutyList,
    ) -> Option<DutyList>
        ensures value { Gives result (list_after (rule self.old) (played turn) (sets list.now)) }
        ensures stays { rule self.new ≡ rule self.old }
    {
        self.turn_to(turn);
        self.list_joined(joins, list)
    }
}
