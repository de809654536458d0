//! The program with a command line for a build. It then prints the files that the build wrote: the status is 0.
#![tactic(auto)]

use c25_tasks::run_on;
use std::process::ExitCode;
use std::{fs, io};

/// The files of the build that `args` asks for.
const WRITTEN: [&str; 5] = [
    "count.p0.hex",
    "count.p1.hex",
    "count.map",
    "count.1.lst",
    "count.2.lst",
];

/// Prints each file that the build wrote, under its name.
fn show(rt: &HostRuntime) -> io::Result<()> {
    for name in WRITTEN {
        let text = fs::read_to_string(rt, name)?;
        print!(rt; "== {name}\n{text}")?;
    }
    Ok(())
}

fn main(rt: HostRuntime) -> ExitCode {
    let ended = run_on(&rt);
    match show(&rt) {
        Ok(()) => ended.status(),
        Err(_) => ExitCode::FAILURE,
    }
}
