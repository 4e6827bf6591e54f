// The program: play books for the interlocks of brake test benches.
#![tactic(auto)]

use console::command::main_of;
use std::process::ExitCode;

fn main(rt: HostRuntime) -> ExitCode {
    main_of(&rt)
}
