// Games: the trait, and the games that are drawn or made of others.
#![tactic(auto)]

mod chains;
pub mod diagram;
mod fields;
pub mod game;
pub mod pair;
pub mod range;
pub mod table;
