//! The hints of an image, read from a file.

ghost use Rattle.std.specs.Prelude.{◌≡◌, IfErr, IfOk, map, string_bytes};
ghost use Rattle.c25_disk.specs.Held.{IsAllOf};
ghost use Rattle.c25_image_source.specs.Faults.{IsUnread};
ghost use Rattle.c25_image_source.specs.Hints.{AreHints, ReadsHints, ReadsNamedHints};
ghost use Rattle.c25_options.specs.Task.{text_of};

use crate::fault::ImageFault;
use crate::words::fault_of_file;
use c25_disk::disk::Disk;
use c25_disk::read_file;
use c25_layout::hint::Hint;
use c25_layout::read_hints;
use c25_meaning_common::failure::Failure;
use std::alloc::Global;

/// Hints, or why there are none.
type Hints = Result<Vec<Hint<String>>, Failure<ImageFault<String>>>;

/// The text of a file. A file that cannot be read is 8.
fn text_on<D: Disk>(
    alloc: Global,
    disk: &D,
    name: &str,
) -> Result<String, Failure<ImageFault<String>>>
    ensures text { IfOk result (λ text. IsAllOf (D.bytes_of disk.now name.now) (string_bytes text)) }
    ensures fault { IfErr result (IsUnread name.now) }
{
    match read_file(alloc, disk, name) {
        Ok(text) => Ok(text),
        Err(failure) => Err(fault_of_file(failure)),
    }
}

/// The hints of a text. A line that is no hint is 92.
fn hints_in(alloc: Global, text: &str) -> Hints
    ensures { AreHints text.now result }
{
    match read_hints(alloc, text) {
        Ok(hints) => Ok(hints),
        Err(Failure::NoMemory(error)) => Err(Failure::NoMemory(error)),
        Err(Failure::Fault(fault)) => Err(Failure::Fault(ImageFault::Hint { line: fault.place })),
    }
}

/// The hints of a file. A file that cannot be read is 8, a line that is no hint is 92.
fn hints_named<D: Disk>(alloc: Global, disk: &D, name: &str) -> Hints
    ensures { ReadsNamedHints (D.bytes_of disk.now) name.now result }
{
    let text = text_on(alloc, disk, name)?;
    hints_in(alloc, &text)
}

/// The hints of a file, if one is named; else none.
pub(crate) fn hints_of<D: Disk>(alloc: Global, disk: &D, name: Option<&str>) -> Hints
    ensures { ReadsHints (D.bytes_of disk.now) (text_of name.entry) result }
{
    match name {
        None => Ok(Vec::new(alloc)),
        Some(name) => hints_named(alloc, disk, name),
    }
}
