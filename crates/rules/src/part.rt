// The numbered parts of a rule.
ghost use Rattle.std.specs.Prelude.{◌≡◌};
ghost use Rattle.std.proofs.Common.{subst, ◌∙◌};
ghost use Rattle.rules.specs.Parts.{is_duty};
ghost use Rattle.rules.specs.Table.{same_part};
ghost use Rattle.rules.specs.Same.{same_self, same_true};
ghost use Rattle.std.proofs.Math.Bool;

use register::Same;

// A signal, by its number among the inputs or the outputs.
#[derive(Clone, Copy, PartialEq, Eq, Debug)]
pub enum Signal {
    Input(u8),
    Output(u8),
}

// A part of a rule. Sides are the numbers of earlier parts; a literal says whether its signal is to be on.
#[derive(Clone, Copy, PartialEq, Eq, Debug)]
pub enum Part {
    True,
    False,
    Literal(Signal, bool),
    Next(u8),
    Release(u8, u8),
    Both(u8, u8),
    Either(u8, u8),
}

impl Part {
    // A literal, an X part or an R part.
    pub fn is_duty(&self) -> bool
        ensures { result ≡ is_duty self.now }
    {
        matches!(
            self,
            Part::Literal(_, _) | Part::Next(_) | Part::Release(_, _)
        )
    }
}

impl Same for Part {
    ghost same = { same_part };

    ghost reflexive = { λ x. same_self x };

    ghost symmetric = { λ x y h. subst (λ z. same_part z x ≡ Bool.true) (same_true x y h) (same_self x) };

    ghost transitive = { λ x y z h k. subst (λ w. same_part x w ≡ Bool.true) (same_true x y h ∙ same_true y z k) (same_self x) };

    #[tactic(auto, using(crate::proofs::EqualLaws::derived_same))]
    fn same_as(&self, other: &Part) -> bool {
        self == other
    }
}
