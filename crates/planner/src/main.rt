// The planner: commands `cost`, `floors` and `run`.
#![tactic(auto)]

use std::process::ExitCode;

fn main(rt: HostRuntime) -> ExitCode {
    commands::run(&rt)
}
