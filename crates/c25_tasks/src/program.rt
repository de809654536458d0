//! The program: the command line, the task, and the report.

ghost use Rattle.std.specs.Prelude.{◌≡◌, ◌≤◌, IfErr, IfOk, OnOk, length, map, string_bytes};
ghost use Rattle.c25_options.specs.Arranged.{IsArranged};
ghost use Rattle.c25_report.specs.Ending.{IsReported};
ghost use Rattle.c25_report.specs.declared.ending.Ending.TheVariants as ending;
ghost use Rattle.c25_tasks.specs.Program.{AreRead, DoesWords, HasNoWords, IsProgram, IsTip, effect_of};

use crate::definitions::do_asked_task;
use c25_disk::disk::Disk;
use c25_meaning_common::failure::Failure;
use c25_meaning_common::no_memory::NoMemory;
use c25_options::arranged::arranged;
use c25_options::fault::WordsFault;
use c25_options::read::read_words;
use c25_options::task::Task;
use c25_options::tips::tip_on;
use c25_report::ending::{Ended, Ending, Report, finish};
use std::alloc::{AllocError, Global};
use std::io::{ErrorKind, Read, Write};
use std::rt::Env;
use std::{env, io};

/// Reads a command line, the program's name first, whose words in the order in which they are read were
/// `arranged`.
fn task_of_words<'a>(
    alloc: Global,
    words: &'a [String],
    arranged: &'a Result<Option<Vec<String>>, NoMemory>,
) -> Result<Task<'a>, WordsFault>
    requires order { IfOk arranged.now (IsArranged (map string_bytes words.now)) }
    requires short { IfErr arranged.now (λ _. 2 ≤ length words.now) }
    ensures { AreRead (map string_bytes words.entry.now) result }
{
    match arranged {
        Ok(None) => read_words(alloc, words),
        Ok(Some(arranged)) => read_words(alloc, arranged),
        Err(error) => Err(Failure::NoMemory(*error)),
    }
}

/// The report that a command line asks for no task, with the tip on its words.
fn report_without_task(alloc: Global, fault: WordsFault, words: &[String]) -> Report
    ensures ending { result.ending ≡ ending.NoTask fault }
    ensures tip { IsTip (map string_bytes words.now) fault (string_bytes result.note) }
{
    let note = match String::from_str(alloc, tip_on(&fault, words)) {
        Ok(tip) => tip,
        Err(_) => String::new(alloc),
    };
    let ending = Ending::NoTask(fault);
    Report { ending, note }
}

/// Runs the task of a command line, or reports that it asks for none, and answers the report.
fn report_of_words<D: Disk, R: Read, O: Write>(
    alloc: Global,
    words: &[String],
    disk: &mut D,
    input: &mut R,
    out: &mut O,
) -> Report
    ensures { DoesWords (D.bytes_of disk.old) (D.opens disk.old) (R.remaining input.old) (map string_bytes words.now) (effect_of result (O.contents out.old, O.contents out.new) (D.written disk.old, D.written disk.new)) }
{
    let arranged = arranged(alloc, words);
    match task_of_words(alloc, words, &arranged) {
        Ok(task) => do_asked_task(alloc, &task, disk, input, out),
        Err(fault) => report_without_task(alloc, fault, words),
    }
}

/// Standard input, standard output and standard error.
#[derive(Drop)]
pub struct Streams<R, O, E> {
    pub input: R,
    pub out: O,
    pub err: E,
}

/// Runs the task of a command line, of which the first argument is the program's name, and prints its report
/// to standard error.
pub fn run_words<D: Disk, R: Read, O: Write, E: Write>(
    alloc: Global,
    words: &[String],
    disk: &mut D,
    streams: &mut Streams<R, O, E>,
) -> Ended
    ensures done { DoesWords (D.bytes_of disk.old) (D.opens disk.old) (R.remaining streams.old.input) (map string_bytes words.now) (effect_of result.report (O.contents streams.old.out, O.contents streams.new.out) (D.written disk.old, D.written disk.new)) }
    ensures told { OnOk result.told (IsReported result.report (E.contents streams.old.err) (E.contents streams.new.err)) }
{
    let report = report_of_words(alloc, words, disk, &mut streams.input, &mut streams.out);
    finish(report, &mut streams.err)
}

/// The command line, with the program's name first.
pub(crate) fn words_of<V: Env>(alloc: Global, env: &V) -> io::Result<Vec<String>> {
    let mut words = Vec::new(alloc);
    for word in env::args(&(env, alloc))? {
        words.push(word)?;
    }
    Ok(words)
}

/// The ending where the command line cannot be had: an argument is not UTF-8, or memory ran out.
fn ending_without_words(error: &io::Error) -> Ending
    ensures { HasNoWords result }
{
    if error.kind() == ErrorKind::OutOfMemory {
        return Ending::NoMemory(NoMemory::from(AllocError));
    }
    Ending::NoText
}

/// Runs the task of the command line in `env`, and answers its report.
fn report_of_program<V: Env, D: Disk, R: Read, O: Write>(
    alloc: Global,
    env: &V,
    disk: &mut D,
    input: &mut R,
    out: &mut O,
) -> Report
    ensures { IsProgram (D.bytes_of disk.old) (D.opens disk.old) (R.remaining input.old) (effect_of result (O.contents out.old, O.contents out.new) (D.written disk.old, D.written disk.new)) }
{
    match words_of(alloc, env) {
        Ok(words) => report_of_words(alloc, &words, disk, input, out),
        Err(error) => Report::without_note(alloc, ending_without_words(&error)),
    }
}

/// The program: `run_words` over the command line in `env`. Where an argument is not UTF-8 the status is 2,
/// and where memory runs out for the command line it is 1; nothing is done then.
pub fn run_program<V: Env, D: Disk, R: Read, O: Write, E: Write>(
    alloc: Global,
    env: &V,
    disk: &mut D,
    streams: &mut Streams<R, O, E>,
) -> Ended
    ensures done { IsProgram (D.bytes_of disk.old) (D.opens disk.old) (R.remaining streams.old.input) (effect_of result.report (O.contents streams.old.out, O.contents streams.new.out) (D.written disk.old, D.written disk.new)) }
    ensures told { OnOk result.told (IsReported result.report (E.contents streams.old.err) (E.contents streams.new.err)) }
{
    let report = report_of_program(alloc, env, disk, &mut streams.input, &mut streams.out);
    finish(report, &mut streams.err)
}
