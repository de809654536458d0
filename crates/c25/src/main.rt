//! The tool chain as one program. The command line says what it does: `c25 --help` lists its subcommands.
#![tactic(auto)]

use c25_tasks::run_on;
use std::process::ExitCode;

fn main(rt: HostRuntime) -> ExitCode {
    run_on(&rt).status()
}
