// Solving a game into its play book, accepting a book, and what a book tells.
#![tactic(auto)]

pub mod accept;
mod best;
mod layout;
mod solution;
pub mod solve;
mod sweep;
pub mod told;
mod write;
