//! The old files that are moved: the sources, and the files that they copy.

ghost use Rattle.std.specs.Prelude.{◌≡◌, IfErr, IfOk, IfSome, OnOk, map};
ghost use Rattle.std.specs.List.{All};
ghost use Rattle.std.specs.Option.{option_map};
ghost use Rattle.c25_move_files.specs.Files.{AreGathered, IsRead, old_of};
ghost use Rattle.c25_move_files.specs.Refusals as meaning;

use crate::copies::copies_in;
use crate::names::{last_part, name_beside};
use crate::old::{OldDisk, OldFile, read_named, read_old};
use crate::refusals::{Refusal, file_refused, short};
use c25_disk::disk::Disk;
use c25_disk::fault::FileFault;
use c25_meaning_common::no_memory::NoMemory;
use c25_move_lines::Style;
use std::alloc::Global;

/// How many copied files are moved at most.
const MOST_COPIED: usize = 256;

/// Whether one of these files has this last part of its name.
pub(crate) fn has_part(files: &[OldFile], part: &str) -> bool
    ensures { result ≡ meaning.has_part (meaning.names_of files.now) part.now }
{
    for file in files {
        let is_same = last_part(file.name.as_str()) == part;
        if is_same {
            return true;
        }
    }
    false
}

/// Reads a source after others. Refused where its new file would have the name of another one's (37), and where it cannot
/// be read (8).
fn source_after<D: Disk>(
    alloc: Global,
    old: &OldDisk<'_, D>,
    before: &[OldFile],
    name: &str,
) -> Result<OldFile, Refusal>
    ensures name { IfOk result (λ f. (old_of f).name ≡ name.now) }
    ensures read { IfOk result (λ f. IsRead (D.bytes_of old.now.disk.now) old.now.code_page (old_of f)) }
    ensures refused { IfErr result (meaning.IsFaulty (λ line. line ≡ meaning.file_line name.now (meaning.source_fault (meaning.names_of before.now) name.now))) }
{
    if has_part(before, last_part(name)) {
        Err(file_refused(alloc, name, FileFault::FileTwice))
    } else {
        read_named(alloc, old, name)
    }
}

/// Reads the sources, in order. Refused with the fault of the first that has one.
#[tactic(auto, using(crate::proofs::Each::named_more, crate::proofs::Each::named_all, crate::proofs::Each::read_more, crate::proofs::Each::read_none))]
pub(crate) fn sources<D: Disk>(
    alloc: Global,
    old: &OldDisk<'_, D>,
    names: &[&str],
) -> Result<Vec<OldFile>, Refusal>
    ensures names { IfOk result (λ fs. map (λ f. (old_of f).name) fs.items ≡ map (λ n. n.now) names.now) }
    ensures read { IfOk result (λ fs. All (λ f. IsRead (D.bytes_of old.now.disk.now) old.now.code_page (old_of f)) fs.items) }
    ensures refused { IfErr result (meaning.IsFaulty (meaning.IsUnread (D.bytes_of old.now.disk.now) old.now.code_page (map (λ n. n.now) names.now))) }
{
    let mut files: Vec<OldFile> = Vec::new(alloc);
    for name in names {
        let file = source_after(alloc, old, files.as_slice(), name)?;
        if let Err(error) = files.push(file) {
            return Err(short(NoMemory::from(error)));
        }
    }
    Ok(files)
}

/// A file that is copied: its name as a line has it, and that of the file in the folder of the line's file.
#[derive(Drop)]
struct Wanted {
    name: String,
    beside: String,
}

/// The files that an old file copies.
fn wanted_by(alloc: Global, style: Style, file: &OldFile) -> Result<Vec<Wanted>, NoMemory> {
    let mut wanted = Vec::new(alloc);
    let copies = copies_in(alloc, style, file.text.as_str())?;
    for copy in copies.iter() {
        if !copy.is_elsewhere() {
            let name = String::from_str(alloc, copy.name)?;
            let beside = name_beside(alloc, file.name.as_str(), copy.name)?;
            wanted.push(Wanted { name, beside })?;
        }
    }
    Ok(wanted)
}

/// Reads a file that is copied, if it is there.
fn read_wanted<D: Disk>(
    alloc: Global,
    old: &OldDisk<'_, D>,
    wanted: &Wanted,
) -> Result<Option<OldFile>, NoMemory>
    ensures { IfOk result (λ f. IfSome f (λ f. IsRead (D.bytes_of old.now.disk.now) old.now.code_page (old_of f))) }
{
    match read_old(alloc, old, wanted.name.as_str()) {
        Ok(None) => read_old(alloc, old, wanted.beside.as_str()),
        other => other,
    }
}

/// Reads a file that is copied and adds it, if it is there and is not among the sources or the copied files.
#[tactic(auto, using(crate::proofs::Each::read_more))]
fn add_wanted<D: Disk>(
    alloc: Global,
    old: &OldDisk<'_, D>,
    sources: &[OldFile],
    copied: &mut Vec<OldFile>,
    wanted: &Wanted,
) -> Result<(), NoMemory>
    ensures { All (λ f. IsRead (D.bytes_of old.now.disk.now) old.now.code_page (old_of f)) copied.old.items → OnOk result (All (λ f. IsRead (D.bytes_of old.now.disk.now) old.now.code_page (old_of f)) copied.new.items) }
{
    let name = wanted.name.as_str();
    if has_part(sources, name) || has_part(copied.as_slice(), name) {
        return Ok(());
    }
    if let Some(file) = read_wanted(alloc, old, wanted)? {
        copied.push(file)?;
    }
    Ok(())
}

/// Reads files that are copied and adds them.
fn add_all<D: Disk>(
    alloc: Global,
    old: &OldDisk<'_, D>,
    sources: &[OldFile],
    copied: &mut Vec<OldFile>,
    wanted: &[Wanted],
) -> Result<(), NoMemory>
    ensures { All (λ f. IsRead (D.bytes_of old.now.disk.now) old.now.code_page (old_of f)) copied.old.items → OnOk result (All (λ f. IsRead (D.bytes_of old.now.disk.now) old.now.code_page (old_of f)) copied.new.items) }
{
    for one in wanted {
        add_wanted(alloc, old, sources, copied, one)?;
    }
    Ok(())
}

/// Reads the files that sources copy.
#[tactic(auto, using(crate::proofs::Each::read_none))]
fn copied_by_sources<D: Disk>(
    alloc: Global,
    old: &OldDisk<'_, D>,
    style: Style,
    sources: &[OldFile],
) -> Result<Vec<OldFile>, NoMemory>
    ensures { IfOk result (λ fs. All (λ f. IsRead (D.bytes_of old.now.disk.now) old.now.code_page (old_of f)) fs.items) }
{
    let mut copied = Vec::new(alloc);
    for source in sources {
        let wanted = wanted_by(alloc, style, source)?;
        add_all(alloc, old, sources, &mut copied, wanted.as_slice())?;
    }
    Ok(copied)
}

/// Reads the files that sources copy and those that these copy, where they are there: under their names, or in the folder
/// of the file that copies them.
fn all_copied<D: Disk>(
    alloc: Global,
    old: &OldDisk<'_, D>,
    style: Style,
    sources: &[OldFile],
) -> Result<Vec<OldFile>, NoMemory>
    ensures { IfOk result (λ fs. All (λ f. IsRead (D.bytes_of old.now.disk.now) old.now.code_page (old_of f)) fs.items) }
{
    let mut copied = copied_by_sources(alloc, old, style, sources)?;
    for number in 0..MOST_COPIED {
        if number >= copied.len() {
            break;
        }
        let wanted = wanted_by(alloc, style, &copied[number])?;
        add_all(alloc, old, sources, &mut copied, wanted.as_slice())?;
    }
    Ok(copied)
}

/// The sources, and after them the files that they copy.
pub(crate) fn with_copied<D: Disk>(
    alloc: Global,
    old: &OldDisk<'_, D>,
    style: Style,
    sources: Vec<OldFile>,
) -> Result<Vec<OldFile>, NoMemory>
    ensures { IfOk result (λ fs. AreGathered (D.bytes_of old.now.disk.now) old.now.code_page sources.items fs.items) }
{
    let mut files = sources;
    let mut copied = all_copied(alloc, old, style, files.as_slice())?;
    files.append(&mut copied)?;
    Ok(files)
}

/// Reads the old command file, where one is named. Refused (8) where it cannot be read.
pub(crate) fn command_named<D: Disk>(
    alloc: Global,
    old: &OldDisk<'_, D>,
    name: Option<&str>,
) -> Result<Option<OldFile>, Refusal>
    ensures refused { IfErr result (meaning.IsFaulty (meaning.IsCommandUnread (option_map (λ n. n.now) name.entry))) }
{
    match name {
        Some(name) => match read_named(alloc, old, name) {
            Ok(file) => Ok(Some(file)),
            Err(refusal) => Err(refusal),
        },
        None => Ok(None),
    }
}
