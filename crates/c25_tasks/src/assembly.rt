//! The task `asm`.

ghost use Rattle.std.specs.Option.{option_map};
ghost use Rattle.std.specs.Prelude.{◌≡◌, ◌∷◌, [], IfOk, None, Some, string_bytes};
ghost use Rattle.c25_asm.specs.View.{assembled_of};
ghost use Rattle.c25_chain.specs.Refusal.{refusal_of};
ghost use Rattle.c25_meaning_common.specs.Results.{MeetsBy};
ghost use Rattle.c25_meaning_objects.specs.Records.{spelling};
ghost use Rattle.c25_options.specs.Task.{text_of, texts_of};
ghost use Rattle.c25_tasks.specs.Assembly.{AsmOrReport, AsmOutputs, Assembles, DoesAssemble, asm_files, asm_written, output_files};
ghost use Rattle.c25_tasks.specs.Reading.{definitions_in, read_by};
ghost use Rattle.c25_inputs.specs.Files.{missing_name};

use crate::report::{answer_or_report, notes_under};
use crate::writing::write_files;
use c25_chain::fault::{ChainFault, Fault};
use c25_chain::sources::Listing;
use c25_chain::{assemble_module, assemble_source};
use c25_disk::Output;
use c25_disk::disk::Disk;
use c25_disk::work::Work;
use c25_fronts::folders::InFolders;
use c25_inputs::files::missing_name;
use c25_inputs::sources::{Sources, name_assembled, sources_of};
use c25_inputs::work::work_over;
use c25_macro::files::Files;
use c25_meaning_common::no_memory::NoMemory;
use c25_module::Module;
use c25_options::task::AssembleTask;
use c25_records::write_module;
use c25_report::ending::Report;
use c25_source_notes::notes::SourceNotes;
use std::alloc::Global;
use std::slice;

/// The output file of a module without a listing: its object.
fn object_of<'a>(
    alloc: Global,
    assembled: &Module,
    object: &'a str,
) -> Result<Vec<Output<'a>>, NoMemory>
    ensures { IfOk result (λ outputs. output_files outputs ≡ (object.entry.now, spelling assembled.now) ∷ []) }
{
    let bytes = write_module(alloc, assembled)?;
    let mut outputs = Vec::new(alloc);
    outputs.push(Output {
        name: object,
        bytes,
    })?;
    Ok(outputs)
}

/// The output files of a module with its listing: its object, and the listing.
fn listed_of<'a>(
    alloc: Global,
    listing: &Listing<'_>,
    object: &'a str,
    list: &'a str,
) -> Result<Vec<Output<'a>>, NoMemory>
    ensures { IfOk result (λ outputs. output_files outputs ≡ asm_files object.entry.now (Some list.entry.now) (assembled_of listing.now)) }
{
    let mut outputs = object_of(alloc, &listing.module, object)?;
    let text = listing.text(alloc)?;
    let bytes = text.into_bytes();
    outputs.push(Output { name: list, bytes })?;
    Ok(outputs)
}

/// The output file of a source where no listing is asked for.
fn object_of_source<'a>(
    alloc: Global,
    files: &Files,
    source: &str,
    object: &'a str,
) -> Result<Vec<Output<'a>>, Fault>
    ensures { MeetsBy refusal_of output_files (asm_written object.entry.now None files.now source.now) result }
{
    let assembled = assemble_module(alloc, files, source)?;
    match object_of(alloc, &assembled, object) {
        Ok(outputs) => Ok(outputs),
        Err(error) => Err(error.into()),
    }
}

/// The output files of a source where a listing is asked for.
fn listed_of_source<'a>(
    alloc: Global,
    files: &Files,
    source: &str,
    object: &'a str,
    list: &'a str,
) -> Result<Vec<Output<'a>>, Fault>
    ensures { MeetsBy refusal_of output_files (asm_written object.entry.now (Some list.entry.now) files.now source.now) result }
{
    let listing = assemble_source(alloc, files, source)?;
    match listed_of(alloc, &listing, object, list) {
        Ok(outputs) => Ok(outputs),
        Err(error) => Err(error.into()),
    }
}

/// A task over files: a source to assemble, and the names of its output files.
#[derive(Clone, Copy)]
pub(crate) struct Assembly<'s, 'a> {
    pub(crate) source: &'s str,
    pub(crate) object: &'a str,
    /// The name of the listing, where one is asked for.
    pub(crate) list: Option<&'a str>,
}

impl<'a> Work for Assembly<'_, 'a> {
    ghost use Rattle.c25_meaning_common.specs.Results.{MeetsBy};
    ghost use Rattle.c25_chain.specs.Refusal.{refusal_of};
    ghost use Rattle.c25_options.specs.Task.{text_of, texts_of};
    ghost use Rattle.c25_tasks.specs.Assembly.{asm_written, output_files};
    ghost use Rattle.c25_inputs.specs.Files.{missing_name};

    /// The output files.
    type Answer = Vec<Output<'a>>;

    type Fault = ChainFault<String>;

    ghost comes_to = { λ work files result. MeetsBy refusal_of output_files (asm_written work.object.now (text_of work.list) files work.source.now) result };

    ghost missing_of = { missing_name };

    fn answer(&self, alloc: Global, files: &Files) -> Result<Vec<Output<'a>>, Fault> {
        match self.list {
            None => object_of_source(alloc, files, self.source, self.object),
            Some(list) => listed_of_source(alloc, files, self.source, self.object, list),
        }
    }

    fn missing(fault: &ChainFault<String>) -> Option<&str>
        ensures { option_map (λ name. name.now) result ≡ missing_name fault.now }
    {
        missing_name(fault)
    }
}

/// The output files of `asm`: the object of a source in front of which symbols may be defined, and its listing where
/// one is asked for. The source and the files that it copies are read from the disk; nothing is written yet.
pub(crate) fn asm_outputs<'a, D: Disk>(
    alloc: Global,
    disk: &D,
    assembly: Assembly<'_, 'a>,
    definitions: &[&str],
) -> Result<Vec<Output<'a>>, Fault>
    ensures { AsmOutputs (D.bytes_of disk.now) (texts_of definitions.now) assembly.entry.source.now assembly.entry.object.now (text_of assembly.entry.list) result }
{
    let Assembly {
        source,
        object,
        list,
    } = assembly;
    let names = [source];
    let nowhere: &[&str] = &[];
    let sources = Sources {
        names: &names,
        definitions: &*definitions,
        folders: nowhere,
    };
    let files = sources_of(alloc, disk, sources)?;
    let name = name_assembled(alloc, source, definitions)?;
    let work = Assembly {
        source: name.as_str(),
        object,
        list,
    };
    work_over(alloc, disk, files, &work)
}

/// The output files of a task, or the report of why there are none.
fn outputs_or_report<'a, D: Disk>(
    alloc: Global,
    disk: &D,
    task: &'a AssembleTask<'a>,
    notes: SourceNotes<'_>,
) -> Result<Vec<Output<'a>>, Report>
    ensures { AsmOrReport (read_by (task.now.source.now ∷ []) [] task.now.reading (D.opens disk.now) (D.bytes_of disk.now)) notes.entry (definitions_in task.now.reading) task.now.source.now task.now.object.now (text_of task.now.listing) result }
{
    let assembly = Assembly {
        source: task.source,
        object: task.object,
        list: task.listing,
    };
    let sources = [task.source];
    let disk = InFolders {
        disk,
        folders: &task.reading.folders,
        sources: &sources,
        beside: &[],
    };
    let answer = asm_outputs(alloc, &disk, assembly, &task.reading.definitions);
    answer_or_report(alloc, &disk, answer, notes)
}

/// Assembles the source of a task, and writes its object, and its listing where one is asked for, with these notes of a
/// fault.
fn assemble_with<D: Disk>(
    alloc: Global,
    task: &AssembleTask<'_>,
    notes: SourceNotes<'_>,
    disk: &mut D,
) -> Report
    ensures { Assembles (read_by (task.now.source.now ∷ []) [] task.now.reading (D.opens disk.old) (D.bytes_of disk.old)) notes.entry (definitions_in task.now.reading) task.now.source.now task.now.object.now (text_of task.now.listing) result.ending (string_bytes result.note) (D.written disk.old, D.written disk.new) }
{
    match outputs_or_report(alloc, disk, task, notes) {
        Ok(outputs) => write_files(alloc, outputs.as_slice(), notes, disk),
        Err(report) => report,
    }
}

/// Does what a task asks for: assembles its source, and writes its object, and its listing where one is asked for.
pub(crate) fn assemble<D: Disk>(alloc: Global, task: &AssembleTask<'_>, disk: &mut D) -> Report
    ensures { DoesAssemble (D.bytes_of disk.old) (D.opens disk.old) task.now result.ending (string_bytes result.note) (D.written disk.old, D.written disk.new) }
{
    let sources = Sources {
        names: slice::from_ref(&task.source),
        definitions: &task.reading.definitions,
        folders: &task.reading.folders,
    };
    let notes = notes_under(task.faults, None, sources, &[]);
    assemble_with(alloc, task, notes, disk)
}
