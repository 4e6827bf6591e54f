// Runs by a book.
#![tactic(auto)]

pub mod play;
pub mod questions;
pub mod replay;
pub mod run;
pub mod stage;
