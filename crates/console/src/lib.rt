// The commands of the program, over the files and streams of a runtime.
#![tactic(auto)]

mod args;
pub mod command;
mod edges;
mod explain;
mod fault;
mod graph;
mod headline;
mod listing;
mod moves;
mod names;
mod parts;
pub mod phrases;
mod play;
mod rounds;
mod source;
pub mod table;
mod talk;
mod texts;
