//! The program without a command line: it runs the source on standard input, and the status is 0.
#![tactic(auto)]

use c25_tasks::run_on;
use std::process::ExitCode;

fn main(rt: HostRuntime) -> ExitCode {
    run_on(&rt).status()
}
