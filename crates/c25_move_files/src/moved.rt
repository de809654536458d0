//! Old files, moved.

ghost use Rattle.std.specs.Prelude.{IfOk, map};
ghost use Rattle.std.specs.List.{AllZip};
ghost use Rattle.c25_move_files.specs.Files.{IsMovedTo, moved_of, old_of};

use crate::names::new_name;
use crate::old::OldFile;
use c25_meaning_common::no_memory::NoMemory;
use c25_move::{MovedLine, OldSource, move_source};
use c25_move_lines::{LongOrder, Progress, Style};
use std::alloc::Global;

/// An old file that is moved: its name and that of the new file, and its lines with what becomes of them.
#[derive(Drop)]
pub struct MovedFile<'a> {
    pub old: &'a str,
    pub new: String,
    pub lines: Vec<MovedLine<'a>>,
}

/// How old files are written, the macros that they define, and the folder into which they are moved.
#[derive(Clone, Copy)]
pub(crate) struct Manner<'a> {
    pub style: Style,
    pub long_order: Option<LongOrder>,
    pub macros: &'a [&'a str],
    pub folder: &'a str,
}

/// An old file, moved.
#[tactic(auto, using(crate::proofs::Each::moved_to))]
fn move_file<'a>(
    alloc: Global,
    manner: &Manner<'_>,
    file: &'a OldFile,
    progress: &mut Progress,
) -> Result<MovedFile<'a>, NoMemory>
    ensures { IfOk result (λ m. IsMovedTo manner.now.style (map (λ n. n.now) manner.now.macros.now) manner.now.folder.now (old_of file.entry.now) (moved_of m)) }
{
    let source = OldSource {
        style: manner.style,
        long_order: manner.long_order,
        macros: manner.macros,
        text: file.text.as_str(),
    };
    let new = new_name(alloc, manner.folder, file.name.as_str())?;
    progress.begin_source();
    let lines = move_source(alloc, &source, progress)?;
    Ok(MovedFile {
        old: file.name.as_str(),
        new,
        lines,
    })
}

/// Old files, moved, in their order.
#[tactic(auto, using(crate::proofs::Each::moved_more, crate::proofs::Each::moved_all))]
pub(crate) fn move_files<'a>(
    alloc: Global,
    manner: &Manner<'_>,
    files: &'a [OldFile],
    progress: &mut Progress,
) -> Result<Vec<MovedFile<'a>>, NoMemory>
    ensures { IfOk result (λ ms. AllZip (IsMovedTo manner.now.style (map (λ n. n.now) manner.now.macros.now) manner.now.folder.now) (map old_of files.entry.now) (map moved_of ms.items)) }
{
    let mut moved = Vec::new(alloc);
    for file in files {
        moved.push(move_file(alloc, manner, file, progress)?)?;
    }
    Ok(moved)
}
