// The program once more, for the gate: from the texts of a rule to its book.
#![tactic(auto)]

use console::command::main_of;
use std::process::ExitCode;

// Kept: a program has one run in the gate, so that the same main stands in four.
fn main(rt: HostRuntime) -> ExitCode {
    main_of(&rt)
}
