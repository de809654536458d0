//! All old files of a task, moved.

ghost use Rattle.std.specs.Prelude.{IfOk, map};
ghost use Rattle.std.specs.List.{AllZip};
ghost use Rattle.c25_move_files.specs.Files.{AreMovedAll, IsMovedTo, moved_of, old_of};

use crate::command::{NewCommand, OldCommand, command_of};
use crate::gathered::Gathered;
use crate::moved::{Manner, MovedFile, move_files};
use c25_files::files::{FileTwice, Files};
use c25_meaning_common::failure::Failure;
use c25_meaning_common::no_memory::NoMemory;
use c25_move_lines::Progress;
use c25_outline::macros::macros_in_files;
use std::alloc::Global;

/// Old files, moved, and the command file for their sections.
#[derive(Drop)]
pub struct MovedFiles<'a> {
    pub files: Vec<MovedFile<'a>>,
    pub command: NewCommand<'a>,
}

/// The old command file, if there is one.
fn old_command(gathered: &Gathered) -> Option<OldCommand<'_>> {
    match &gathered.command {
        Some(file) => Some(OldCommand {
            name: file.name.as_str(),
            text: file.text.as_str(),
        }),
        None => None,
    }
}

/// The texts of old files by their names.
fn old_texts(alloc: Global, gathered: &Gathered) -> Result<Files, NoMemory> {
    let mut texts = Files::new(alloc);
    for file in &gathered.files {
        match texts.add(file.name.as_str(), file.text.as_str()) {
            Ok(()) => {}
            Err(Failure::Fault(FileTwice)) => {}
            Err(Failure::NoMemory(error)) => return Err(error),
        }
    }
    Ok(texts)
}

/// Old files, moved where these macros are defined.
fn moved_under<'a>(
    alloc: Global,
    gathered: &'a Gathered,
    folder: &str,
    macros: &[&str],
) -> Result<MovedFiles<'a>, NoMemory>
    ensures { IfOk result (λ m. AllZip (IsMovedTo gathered.entry.now.style (map (λ n. n.now) macros.now) folder.now) (map old_of gathered.entry.now.files.items) (map moved_of m.files.items)) }
{
    let manner = Manner {
        style: gathered.style,
        long_order: gathered.long_order,
        macros,
        folder,
    };
    let mut progress = Progress::new(alloc);
    let files = move_files(alloc, &manner, gathered.files.as_slice(), &mut progress)?;
    let command = command_of(alloc, old_command(gathered), progress.addresses.as_slice())?;
    Ok(MovedFiles { files, command })
}

/// Old files, moved into a folder.
pub fn moved<'a>(
    alloc: Global,
    gathered: &'a Gathered,
    folder: &str,
) -> Result<MovedFiles<'a>, NoMemory>
    ensures { IfOk result (λ m. AreMovedAll gathered.entry.now folder.now (map moved_of m.files.items)) }
{
    let texts = old_texts(alloc, gathered)?;
    let macros = macros_in_files(alloc, &texts)?;
    let moved = moved_under(alloc, gathered, folder, macros.as_slice())?;
    Ok(moved)
}
