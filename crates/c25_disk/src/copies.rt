//! Tasks that stop at a copied file that has not been read, and begin again once it is.

ghost use Rattle.std.specs.Prelude.{◌≡◌, OnOk, false, is_some};
ghost use Rattle.c25_meaning_expansion.specs.Files.{text_named};
ghost use Rattle.c25_disk.specs.Copies.{AddsCopy, EndsAhead, EndsOver, HasCopied, IsEnd, IsFileFault};

use crate::ahead::read_ahead;
use crate::attempts::{Turn, attempt};
use crate::disk::Disk;
use crate::fault::{FileFault, fault_of_file};
use crate::sources::add_source;
use crate::work::{CopyFault, Work};
use c25_files::files::Files;
use c25_meaning_common::failure::Failure;
use c25_meaning_common::no_memory::NoMemory;
use c25_meaning_common::placed::Placed;
use std::alloc::Global;

/// How many files may be copied.
const COPIES: usize = 256;

/// A file's fault as the fault of a task over files.
fn file_fault<F>(failure: Failure<Placed<String, FileFault>>) -> Failure<CopyFault<F>>
    ensures { IsFileFault failure result }
{
    match failure {
        Failure::NoMemory(error) => Failure::NoMemory(error),
        Failure::Fault(fault) => Failure::Fault(CopyFault::File(fault)),
    }
}

/// Reads a file that the task asks for, and adds it.
fn add_copy<D: Disk, F: Drop>(
    alloc: Global,
    disk: &D,
    files: &mut Files,
    name: &str,
) -> Result<(), Failure<CopyFault<F>>>
    requires { is_some (text_named files.old name.now) ≡ false }
    ensures { AddsCopy (D.bytes_of disk.now) files.old files.new name.now result }
{
    match add_source(alloc, disk, files, name) {
        Ok(()) => Ok(()),
        Err(failure) => Err(file_fault(failure)),
    }
}

/// Runs the task when no further file may be copied: where it asks for one more, that one is `CannotRead`
/// (8).
fn last_attempt<W: Work>(
    alloc: Global,
    files: &Files,
    work: &W,
) -> Result<W::Answer, Failure<CopyFault<W::Fault>>>
    ensures { IsEnd (W.comes_to work.now files.now) W.missing_of files.now result }
{
    match attempt(alloc, files, work)? {
        Turn::Answered(answer) => Ok(answer),
        Turn::Lacks(name) => {
            let failure = fault_of_file(alloc, name.as_str(), FileFault::CannotRead);
            Err(file_fault(failure))
        }
    }
}

/// Runs the task, adding one file each time that it asks for one, and begins it again each time.
#[tactic(auto, using(crate::proofs::Copied::copied_none, crate::proofs::Copied::copied_more, crate::proofs::Copied::copied_most))]
fn with_asked<D: Disk, W: Work>(
    alloc: Global,
    disk: &D,
    files: &mut Files,
    work: &W,
) -> Result<W::Answer, Failure<CopyFault<W::Fault>>>
    ensures { EndsOver (D.bytes_of disk.now) files.old (W.comes_to work.now) W.missing_of result }
{
    for _ in 0..COPIES {
        match attempt(alloc, files, work)? {
            Turn::Answered(answer) => return Ok(answer),
            Turn::Lacks(name) => add_copy(alloc, disk, files, name.as_str())?,
        }
    }
    last_attempt(alloc, files, work)
}

/// Runs the task, adding the file that it asks for and the files that texts name plainly, so that it seldom
/// begins again. There is no answer where the task asks for one file more than may be copied.
#[tactic(auto, using(crate::proofs::Copied::copied_given, crate::proofs::Copied::copied_room))]
fn with_named<D: Disk, W: Work>(
    alloc: Global,
    disk: &D,
    files: &mut Files,
    work: &W,
) -> Result<Option<W::Answer>, Failure<CopyFault<W::Fault>>>
    ensures ended { EndsAhead (D.bytes_of disk.now) files.old (W.comes_to work.now) W.missing_of result }
    ensures kept { OnOk result (HasCopied (D.bytes_of disk.now) files.old 256 files.new) }
{
    let most = files.len().saturating_add(COPIES);
    let mut first = 0;
    for _ in 0..=COPIES {
        match attempt(alloc, files, work)? {
            Turn::Answered(answer) => return Ok(Some(answer)),
            Turn::Lacks(name) => {
                if files.len() >= most {
                    return Ok(None);
                }
                add_copy(alloc, disk, files, name.as_str())?;
                first = match read_ahead(alloc, disk, files, first, most) {
                    Ok(next) => next,
                    Err(error) => return Err(Failure::NoMemory(NoMemory::from(error))),
                };
            }
        }
    }
    Ok(None)
}

/// Runs the task with files read ahead. Where it then asks for one file more than may be copied, runs it anew
/// over the given files and only those that it asks for.
fn with_either<D: Disk, W: Work>(
    alloc: Global,
    disk: &D,
    files: &mut Files,
    work: &W,
) -> Result<W::Answer, Failure<CopyFault<W::Fault>>>
    ensures { EndsOver (D.bytes_of disk.now) files.old (W.comes_to work.now) W.missing_of result }
{
    let count = files.len();
    match with_named(alloc, disk, files, work) {
        Ok(Some(answer)) => Ok(answer),
        Ok(None) => {
            files.truncate(count);
            with_asked(alloc, disk, files, work)
        }
        Err(failure) => Err(failure),
    }
}

/// Runs a task over the given files. When the task needs a copied file that has not been read, it stops and
/// names the file; that file is read, with those that lines of the texts plainly copy, and the task runs
/// again from the start. At most 256 files are copied. Where the task then asks for one more, it runs anew
/// with only the files that it asks for. `CopyFault::File` is `CannotRead` (8), of a file that the task asks
/// for and that cannot be read, or of the 257th of them; `CopyFault::Work` is the task's own fault.
pub fn with_copies<D: Disk, W: Work>(
    alloc: Global,
    disk: &D,
    given: Files,
    work: &W,
) -> Result<W::Answer, Failure<CopyFault<W::Fault>>>
    ensures { EndsOver (D.bytes_of disk.now) given (W.comes_to work.now) W.missing_of result }
{
    let mut files = given;
    with_either(alloc, disk, &mut files, work)
}
