// The planner, with a stored run of `run`.
#![tactic(auto)]

use std::process::ExitCode;

fn main(rt: HostRuntime) -> ExitCode {
    commands::run(&rt)
}
