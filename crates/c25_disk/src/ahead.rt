//! Reading ahead: copied files that a text names plainly are read before the work asks for them.

ghost use Rattle.std.specs.Prelude.{◌≤◌, ◌<◌, ◌+◌, length};
ghost use Rattle.c25_meaning_expansion.specs.Files.{Files};
ghost use Rattle.c25_disk.specs.Copies.{HasCopied};

use crate::disk::Disk;
use crate::sources::{add_file, is_among};
use c25_files::files::Files;
use std::alloc::{AllocError, Global};

/// The name that a line plainly copies: the text up to the next quote in a line that begins, after white
/// space, with `.copy` or `.include` in lower case and a quote. Other lines may copy files too: what a line
/// copies the task itself finds.
fn name_copied(line: &str) -> Option<&str> {
    let line = line.trim_start();
    let operand = line
        .strip_prefix(".copy")
        .or(line.strip_prefix(".include"))?;
    let string = operand.trim_start().strip_prefix("\"")?;
    match string.split_once("\"") {
        Some((name, _)) => Some(name),
        None => None,
    }
}

/// At most `most` of the names that a text copies and that have not been read yet, in order.
fn names_copied(
    alloc: Global,
    files: &Files,
    text: &str,
    most: usize,
) -> Result<Vec<String>, AllocError> {
    let mut names = Vec::new(alloc);
    for line in text.lines() {
        if names.len() >= most {
            break;
        }
        match name_copied(line) {
            Some(name) => {
                if !is_among(files, name) {
                    names.push(String::from_str(alloc, name)?)?;
                }
            }
            None => {}
        }
    }
    Ok(names)
}

/// Whether `files` has the file of this name, or the file can be read and is added.
#[tactic(auto, using(crate::proofs::Copied::copied_same))]
fn joins<D: Disk>(disk: &D, files: &mut Files, name: &str) -> bool
    ensures { (given : Files) → HasCopied (D.bytes_of disk.now) given 256 files.old → length files.old < length given + 256
        → HasCopied (D.bytes_of disk.now) given 256 files.new }
{
    if is_among(files, name) {
        return true;
    }
    match add_file(disk, files, name) {
        Ok(()) => true,
        Err(_) => false,
    }
}

/// Reads the named files in order, until one cannot be read or `files` has `most` texts.
fn read_all<D: Disk>(disk: &D, files: &mut Files, names: &[String], most: usize)
    ensures { (given : Files) → most ≤ length given + 256 → HasCopied (D.bytes_of disk.now) given 256 files.old
        → HasCopied (D.bytes_of disk.now) given 256 files.new }
{
    for name in names {
        if files.len() >= most {
            return;
        }
        if !joins(disk, files, name.as_str()) {
            return;
        }
    }
}

/// Reads the files that one text of `files` names plainly, as long as they can be read and `files` has fewer
/// than `most` texts.
fn read_named<D: Disk>(
    alloc: Global,
    disk: &D,
    files: &mut Files,
    number: usize,
    most: usize,
) -> Result<(), AllocError>
    ensures { (given : Files) → most ≤ length given + 256 → HasCopied (D.bytes_of disk.now) given 256 files.old
        → HasCopied (D.bytes_of disk.now) given 256 files.new }
{
    let names = match files.text(files.name(number)) {
        Some(text) => names_copied(alloc, files, text, most)?,
        None => return Ok(()),
    };
    read_all(disk, files, names.as_slice(), most);
    Ok(())
}

/// Reads the files that the texts from number `first` on name plainly, and the files that those name, until
/// `files` has `most` texts. Where a file cannot be read, the rest of those that its text names is passed
/// over. Answers the number of the first text that is still to be looked at; an error is that memory ran out.
pub(crate) fn read_ahead<D: Disk>(
    alloc: Global,
    disk: &D,
    files: &mut Files,
    first: usize,
    most: usize,
) -> Result<usize, AllocError>
    ensures { (given : Files) → most ≤ length given + 256 → HasCopied (D.bytes_of disk.now) given 256 files.old
        → HasCopied (D.bytes_of disk.now) given 256 files.new }
{
    let mut next = first;
    for number in first..most {
        if number >= files.len() {
            break;
        }
        read_named(alloc, disk, files, number, most)?;
        next = number + 1;
    }
    Ok(next)
}
