//! The tasks of the program.

ghost use Rattle.c25_tasks.specs.Program.{DoesTask, effect_of};

use crate::assembly::assemble;
use crate::build_to_disk::build;
use crate::checking::check;
use crate::counting::run;
use crate::debugging::debug;
use crate::explaining::explain;
use crate::image_runs::{debug_image, run_image};
use crate::images::dis;
use crate::linking::link;
use crate::standard_input::run_standard_input;
use c25_disk::disk::Disk;
use c25_moving::move_sources;
use c25_options::task::Task;
use c25_report::ending::Report;
use std::alloc::Global;
use std::io::{Read, Write};

/// Runs a task whose definitions define symbols: reads its files, prints or writes its results, and answers the
/// report.
#[tactic(auto, using(crate::proofs::Quiet::stays, crate::proofs::Quiet::keeps))]
pub(crate) fn do_task<D: Disk, R: Read, O: Write>(
    alloc: Global,
    task: &Task<'_>,
    disk: &mut D,
    input: &mut R,
    out: &mut O,
) -> Report
    ensures { DoesTask (D.bytes_of disk.old) (D.opens disk.old) (R.remaining input.old) task.now (effect_of result (O.contents out.old, O.contents out.new) (D.written disk.old, D.written disk.new)) }
{
    match task {
        Task::RunStandardInput => run_standard_input(alloc, disk, input, out),
        Task::Assemble(task) => assemble(alloc, task, disk),
        Task::Link(task) => link(alloc, task, disk),
        Task::Build(task) => build(alloc, task, disk, out),
        Task::Run(task) => run(alloc, task, disk, out),
        Task::RunImage(task) => run_image(alloc, task, disk, out),
        Task::Debug(task) => debug(alloc, task, disk, input, out),
        Task::DebugImage(task) => debug_image(alloc, task, disk, input, out),
        Task::Explain { fault } => Report::without_note(alloc, explain(alloc, *fault, out)),
        Task::Disassemble(task) => dis(alloc, task, disk, out),
        Task::Check(task) => check(alloc, task, disk),
        Task::Move(task) => Report::without_note(alloc, move_sources(alloc, task, disk, out)),
    }
}
