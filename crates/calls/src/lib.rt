// The calls of the library: numbers and bytes in, numbers and bytes out. A game is told by its source, the two texts of a
// rule or a diagram, at each call.
#![tactic(auto)]

pub mod code;
pub mod diagram;
pub mod outcome;
mod over;
mod row;
pub mod rule;
