//! The task `link`.

ghost use Rattle.std.specs.Prelude.{string_bytes};
ghost use Rattle.c25_options.specs.Task.{texts_of};
ghost use Rattle.c25_tasks.specs.Linking.{DoesLink, LinksFrom, WritesLinked};

use crate::report::{notes_under, report_of_fault};
use crate::texts::Program;
use crate::writing::write_program;
use c25_chain::built::Built;
use c25_chain::fault::Fault;
use c25_chain::link_modules;
use c25_disk::disk::Disk;
use c25_inputs::files::read_named;
use c25_inputs::objects::{modules_of, read_objects};
use c25_inputs::sources::without_definitions;
use c25_options::task::LinkTask;
use c25_report::ending::Report;
use c25_source_notes::notes::SourceNotes;
use std::alloc::Global;

/// Reads the command file and then the objects, and links them, without listings. A fault of the objects'
/// bytes comes before one of the command file's lines.
#[tactic(auto, using(crate::proofs::Joined::linked_from))]
fn linked<D: Disk>(alloc: Global, disk: &D, command: &str, objects: &[&str]) -> Result<Built, Fault>
    ensures { LinksFrom (D.bytes_of disk.now) command.now (texts_of objects.now) result }
{
    let command = read_named(alloc, disk, command)?;
    let objects = read_objects(alloc, disk, objects)?;
    let modules = modules_of(alloc, objects.as_slice())?;
    let linked = link_modules(alloc, modules.as_slice(), command.as_str())?;
    let listings = Vec::new(alloc);
    Ok(Built { linked, listings })
}

/// Writes the files of a linked program, or reports why there is none.
fn write_linked<D: Disk>(
    alloc: Global,
    base: &str,
    answer: Result<Built, Fault>,
    notes: SourceNotes<'_>,
    disk: &mut D,
) -> Report
    ensures { WritesLinked (D.bytes_of disk.old) notes.entry base.now answer result.ending (string_bytes result.note) (D.written disk.old, D.written disk.new) }
{
    match answer {
        Ok(built) => {
            let program = Program {
                built,
                symbols: None,
            };
            write_program(alloc, base, program, notes, disk)
        }
        Err(fault) => report_of_fault(alloc, disk, fault, notes),
    }
}

/// Links the objects of a task, and writes the files of their program.
pub(crate) fn link<D: Disk>(alloc: Global, task: &LinkTask<'_>, disk: &mut D) -> Report
    ensures { DoesLink (D.bytes_of disk.old) task.now result.ending (string_bytes result.note) (D.written disk.old, D.written disk.new) }
{
    let answer = linked(alloc, disk, task.command, &task.objects);
    let sources = without_definitions(&[]);
    let notes = notes_under(task.faults, Some(task.command), sources, &task.objects);
    write_linked(alloc, task.base, answer, notes, disk)
}
