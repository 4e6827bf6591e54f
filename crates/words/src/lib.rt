// The words of a text, and the signals text.
#![tactic(auto)]

pub mod name;
pub mod reader;
pub mod signals;
pub mod word;
