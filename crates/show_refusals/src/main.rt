//! Full sinks, failing readers and refusing disks, each at every place where that may happen: what a call
//! then does is compared with what it must do. Printed are the differences, and the number of cases.
//!
//! Then the program is called with this program's own command line, whose task has a fault: nothing more is
//! printed, and the status is 1. Where a case cannot be run, the status is 2.
#![tactic(auto)]

mod call;
mod disks;
mod memory_reader;
mod programs;
mod readers;
mod sinks;
mod world;

use anyhow::Result;
use c25_tasks::run_on;
use std::process::ExitCode;

/// Runs all cases.
fn run_all(rt: &HostRuntime) -> Result<()> {
    sinks::run_all(rt)?;
    readers::run_all(rt)?;
    disks::run_all(rt)?;
    Ok(())
}

fn main(rt: HostRuntime) -> ExitCode {
    if let Err(error) = run_all(&rt) {
        let _ = rt.eprintln(error);
        return ExitCode::from(2);
    }
    run_on(&rt).status()
}
