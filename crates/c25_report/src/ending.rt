//! How the program ends: its status, and what it reports on standard error.

ghost use Rattle.std.specs.Prelude.{◌≡◌, [], OnOk, string_bytes};
ghost use Rattle.std.specs.Process.{exit_status};
ghost use Rattle.c25_report.specs.Ending.{IsReported, IsTold, IsToldOfWords, status_of, words_status};

use crate::printing::print_line;
use c25_meaning_common::no_memory::NoMemory;
use c25_options::fault::{WordsFault, is_want_of_memory};
use std::alloc::Global;
use std::io;
use std::io::Write;
use std::process::ExitCode;

/// The line for out of memory. It is a constant, so that printing it needs no memory.
const NO_MEMORY: &str = "memory: 9 NoMemory";

/// The line for a standard output that cannot be written.
const UNPRINTED: &str = "stdout: 7 CannotWrite";

/// The line for a command line that is not UTF-8.
const NO_TEXT: &str = "c25: a word is not UTF-8";

/// The line for a debugger without commands, or with commands of both kinds.
const NO_COMMANDS: &str = "c25: debug takes --script FILE or --interactive";

/// How the program ends, with its status.
#[derive(Drop)]
pub enum Ending {
    /// All that was asked for is done (0).
    Done,
    /// The run left the code; it is printed (3).
    Left,
    /// Of sources that are moved something is left to do; it is printed (4).
    Unfinished,
    /// A sink refused a word of the run; it is printed (1).
    Sunk,
    /// A fault, with the line that reports it (1).
    Faulty(String),
    /// Out of memory (1).
    NoMemory(NoMemory),
    /// Standard output cannot be written (1).
    Unprinted,
    /// The command line is no task, or asks for help or the version (2), or memory ran out when it was read
    /// (1).
    NoTask(WordsFault),
    /// An argument of the command line is not UTF-8 (2).
    NoText,
    /// A debugger has neither a script nor commands of standard input, or both (2).
    NoCommands,
    /// An argument of an option is none that the option takes, with the line that reports it (2).
    Misused(String),
}

/// What the program reports on standard error: its ending, and a note after that.
#[derive(Drop)]
pub struct Report {
    pub ending: Ending,
    /// Whole lines of explanation or registers; empty where none were asked for.
    pub note: String,
}

/// The report of a program, and whether it was written.
#[derive(Drop)]
pub struct Ended {
    pub report: Report,
    /// Whether the report was written to standard error, or why not.
    pub told: io::Result<()>,
}

impl Report {
    /// The report of an ending without a note. It needs no memory.
    pub fn without_note(alloc: Global, ending: Ending) -> Report
        ensures ending { result.ending ≡ ending }
        ensures note { string_bytes result.note ≡ [] }
    {
        let note = String::new(alloc);
        Report { ending, note }
    }
}

/// The status of a command line that is no task.
#[tactic(auto, using(crate::proofs::Refused::other_kind, crate::proofs::Refused::want_of_memory))]
fn words_status(fault: &WordsFault) -> ExitCode
    ensures { exit_status result ≡ words_status fault.now }
{
    if is_want_of_memory(fault) {
        return ExitCode::FAILURE;
    }
    ExitCode::from(2)
}

impl Ended {
    /// The program's status.
    pub fn status(&self) -> ExitCode
        ensures { exit_status result ≡ status_of self.now.report.ending }
    {
        match &self.report.ending {
            Ending::Done => ExitCode::SUCCESS,
            Ending::Left => ExitCode::from(3),
            Ending::Unfinished => ExitCode::from(4),
            Ending::Sunk | Ending::Faulty(_) | Ending::NoMemory(_) | Ending::Unprinted => {
                ExitCode::FAILURE
            }
            Ending::NoTask(fault) => words_status(fault),
            Ending::NoText | Ending::NoCommands | Ending::Misused(_) => ExitCode::from(2),
        }
    }
}

/// Prints why a command line is no task: `clap`'s text, unless memory ran out.
fn tell_words<E: Write>(fault: &WordsFault, err: &mut E) -> io::Result<()>
    ensures { OnOk result (IsToldOfWords fault.now (E.contents err.old) (E.contents err.new)) }
{
    if is_want_of_memory(fault) {
        return print_line(NO_MEMORY, err);
    }
    write!(err, "{fault}")
}

/// Prints the line of an ending, where it has one.
fn tell<E: Write>(ending: &Ending, err: &mut E) -> io::Result<()>
    ensures { OnOk result (IsTold ending.now (E.contents err.old) (E.contents err.new)) }
{
    match ending {
        Ending::Done | Ending::Left | Ending::Unfinished | Ending::Sunk => Ok(()),
        Ending::Faulty(line) | Ending::Misused(line) => print_line(line.as_str(), err),
        Ending::NoMemory(_) => print_line(NO_MEMORY, err),
        Ending::Unprinted => print_line(UNPRINTED, err),
        Ending::NoTask(fault) => tell_words(fault, err),
        Ending::NoText => print_line(NO_TEXT, err),
        Ending::NoCommands => print_line(NO_COMMANDS, err),
    }
}

/// Prints the line of an ending, and the note after it.
fn tell_report<E: Write>(report: &Report, err: &mut E) -> io::Result<()>
    ensures { OnOk result (IsReported report.now (E.contents err.old) (E.contents err.new)) }
{
    tell(&report.ending, err)?;
    err.write_all(report.note.as_bytes())
}

/// Prints a report on standard error: a fault's line, or why the command line is no task, and the note after
/// it. Where standard error cannot be written, `told` of the result says so.
pub fn finish<E: Write>(report: Report, err: &mut E) -> Ended
    ensures report { result.report ≡ report }
    ensures told { OnOk result.told (IsReported report (E.contents err.old) (E.contents err.new)) }
{
    let told = tell_report(&report, err);
    Ended { report, told }
}
