// What rules say, the lists of duty sets that tell when one is lost, and the games that they make.
#![tactic(auto)]

ghost use Rattle.rules.specs.Claims.{RulesStand};

pub mod part;

// The theorems on rules and lists.
pub fn rules_stand()
    ensures { RulesStand }
{}
