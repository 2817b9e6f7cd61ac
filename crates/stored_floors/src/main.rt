// The planner, run on `floors` and held to a stored page.
#![tactic(auto)]

use std::process::ExitCode;

fn main(rt: HostRuntime) -> ExitCode {
    commands::run(&rt)
}
