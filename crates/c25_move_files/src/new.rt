//! New files.

ghost use Rattle.std.specs.Prelude.{◌≡◌, ◌++◌, IfOk, OnOk, map, string_bytes};
ghost use Rattle.c25_disk.specs.Written.{contents_of};
ghost use Rattle.c25_move_files.specs.Files.{contents, moved_of, new_of};
ghost use Rattle.c25_move_files.specs.Names.{last_part};

use crate::moved::MovedFile;
use crate::names::last_part;
use c25_disk::Output;
use c25_meaning_common::no_memory::NoMemory;
use c25_move::new_text;
use std::alloc::Global;

/// A new file: its name, the last part of the old file's name, by which others copy it, and its text.
#[derive(Drop)]
pub struct NewFile {
    pub name: String,
    pub part: String,
    pub text: String,
}

/// The new file of an old one.
fn new_file(alloc: Global, moved: &MovedFile<'_>) -> Result<NewFile, NoMemory>
    ensures file { IfOk result (λ f. new_of f ≡ contents (moved_of moved.now)) }
    ensures part { IfOk result (λ f. string_bytes f.part ≡ last_part moved.now.old.now) }
{
    Ok(NewFile {
        name: String::from_str(alloc, moved.new.as_str())?,
        part: String::from_str(alloc, last_part(moved.old))?,
        text: new_text(alloc, moved.lines.as_slice())?,
    })
}

/// Adds the new files of old ones.
fn push_new(
    alloc: Global,
    files: &mut Vec<NewFile>,
    moved: &[MovedFile<'_>],
) -> Result<(), NoMemory>
    ensures { OnOk result (map new_of files.new.items ≡ map new_of files.old.items ++ map (λ m. contents (moved_of m)) moved.now) }
{
    for file in moved {
        files.push(new_file(alloc, file)?)?;
    }
    Ok(())
}

/// The new files of old ones.
pub fn new_files(alloc: Global, moved: &[MovedFile<'_>]) -> Result<Vec<NewFile>, NoMemory>
    ensures { IfOk result (λ fs. map new_of fs.items ≡ map contents (map moved_of moved.now)) }
{
    let mut files = Vec::new(alloc);
    push_new(alloc, &mut files, moved)?;
    Ok(files)
}

/// A new file as one that is written.
fn output_of<'a>(alloc: Global, file: &'a NewFile) -> Result<Output<'a>, NoMemory>
    ensures { IfOk result (λ o. contents_of o ≡ new_of file.entry.now) }
{
    let bytes = Vec::from_slice(alloc, file.text.as_bytes())?;
    let name = file.name.as_str();
    Ok(Output { name, bytes })
}

/// New files as files that are written.
pub fn outputs_of<'a>(alloc: Global, files: &'a [NewFile]) -> Result<Vec<Output<'a>>, NoMemory>
    ensures { IfOk result (λ os. map contents_of os.items ≡ map new_of files.entry.now) }
{
    let mut outputs = Vec::new(alloc);
    for file in files {
        outputs.push(output_of(alloc, file)?)?;
    }
    Ok(outputs)
}
