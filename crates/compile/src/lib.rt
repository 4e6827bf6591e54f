// Compiling a rule: from two texts to a game whose positions are lists of duty sets.
#![tactic(auto)]

pub mod compile;
pub mod compiled;
mod explore;
mod join;
mod joins;
pub mod list;
mod mask;
mod memo;
mod outline;
pub mod position;
mod progress;
mod reads;
mod turn;
