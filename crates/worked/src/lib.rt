// Ten worked examples, which are solved for real.
#![tactic(auto)]

pub mod example;
pub mod solved;
