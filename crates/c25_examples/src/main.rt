//! Runs examples: for each folder on the command line the commands of its file `session`, as a shell does in
//! that folder, and for each file of packed cases all its cases. Of a session it prints what a terminal
//! shows; of packed cases the differences from what they say, and their number.
//!
//! Then the program is called with this program's own command line, which is no task: nothing more is
//! printed, and the status is 2. Where an example cannot be run, the status is 1.
#![tactic(auto)]

mod case;
mod command;
mod files;
mod library;
mod packed;
mod session;
mod values;

use anyhow::Result;
use c25_tasks::run_on;
use packed::run_cases;
use session::run_session;
use std::env;
use std::process::ExitCode;

/// Runs the session of a folder, in that folder.
fn run_folder(rt: &HostRuntime, folder: &str) -> Result<()> {
    let top = env::current_dir(rt)?;
    env::set_current_dir(rt, folder)?;
    run_session(rt)?;
    env::set_current_dir(rt, top.as_path())?;
    Ok(())
}

/// Runs an example: a file of packed cases, or a folder.
fn run_example(rt: &HostRuntime, name: &str) -> Result<()> {
    println!(rt; "== {name}")?;
    if name.ends_with(".cases") {
        run_cases(rt, name)
    } else {
        run_folder(rt, name)
    }
}

/// Runs all examples that the command line names.
fn run_examples(rt: &HostRuntime) -> Result<()> {
    for name in env::args(rt)?.skip(1) {
        run_example(rt, &name)?;
    }
    Ok(())
}

fn main(rt: HostRuntime) -> Result<ExitCode> {
    run_examples(&rt)?;
    Ok(run_on(&rt).status())
}
