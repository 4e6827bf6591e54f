// The program once more, for the gate: several command lines, one after another.
#![tactic(auto)]

use console::command::main_of_each;
use std::process::ExitCode;

fn main(rt: HostRuntime) -> ExitCode {
    main_of_each(&rt)
}
