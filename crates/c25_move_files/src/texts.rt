//! The texts of new files, of which a program is built.

ghost use Rattle.std.specs.Prelude.{◌≡◌, IfOk, OnOk, map, string_bytes};
ghost use Rattle.std.specs.List.{fold};
ghost use Rattle.c25_move_files.specs.Files.{copy_of, files_of, new_of, with_file};

use crate::new::NewFile;
use c25_files::files::{FileTwice, Files};
use c25_meaning_common::failure::Failure;
use c25_meaning_common::no_memory::NoMemory;
use std::alloc::Global;

/// Adds a text under a name, unless there is one under it.
fn add(texts: &mut Files, name: &str, text: &str) -> Result<(), NoMemory>
    ensures { OnOk result (texts.new ≡ with_file texts.old (name.now, text.now)) }
{
    match texts.add(name, text) {
        Ok(()) => Ok(()),
        Err(Failure::NoMemory(error)) => Err(error),
        Err(Failure::Fault(FileTwice)) => Ok(()),
    }
}

/// Adds new files under their names.
fn add_named(texts: &mut Files, files: &[NewFile]) -> Result<(), NoMemory>
    ensures { OnOk result (texts.new ≡ fold with_file texts.old (map new_of files.now)) }
{
    for file in files {
        add(texts, file.name.as_str(), file.text.as_str())?;
    }
    Ok(())
}

/// Adds new files under the names by which others copy them.
fn add_copies(texts: &mut Files, files: &[NewFile]) -> Result<(), NoMemory>
    ensures { OnOk result (texts.new ≡ fold with_file texts.old (map copy_of files.now)) }
{
    for file in files {
        add(texts, file.part.as_str(), file.text.as_str())?;
    }
    Ok(())
}

/// The texts of new files under their names, and under the names by which others copy them.
pub fn texts_of(alloc: Global, files: &[NewFile]) -> Result<Files, NoMemory>
    ensures { IfOk result (λ texts. texts ≡ files_of files.now) }
{
    let mut texts = Files::new(alloc);
    add_named(&mut texts, files)?;
    add_copies(&mut texts, files)?;
    Ok(texts)
}

/// The names of new files.
pub fn names_of(alloc: Global, files: &[NewFile]) -> Result<Vec<String>, NoMemory>
    ensures { IfOk result (λ names. map string_bytes names.items ≡ map (λ f. string_bytes f.name) files.now) }
{
    let mut names = Vec::new(alloc);
    for file in files {
        names.push(String::from_str(alloc, file.name.as_str())?)?;
    }
    Ok(names)
}
