//! `ddup`: a desktop duplication service, told by a script.
#![tactic(auto)]

use std::process::ExitCode;

fn main(rt: HostRuntime) -> ExitCode {
    dd_prog::run(&rt)
}
