//! The output files of a built program.

ghost use Rattle.std.specs.Prelude.{◌≡◌, ◌++◌, ◌∷◌, [], ℕ, List, IfOk, map};
ghost use Rattle.c25_disk.specs.Written.{contents_of};
ghost use Rattle.c25_report.specs.ProgramFiles.{AreNames, files_of};
ghost use Rattle.c25_rom.specs.View as rom;
ghost use Rattle.c25_tasks.specs.Building.{and_file, texts_in};

use c25_chain::built::Built;
use c25_chain::linked::Linked;
use c25_chain::page::Page;
use c25_disk::Output;
use c25_meaning_common::no_memory::NoMemory;
use c25_report::texts::{ProgramFileNames, ProgramFileTexts, program_outputs};
use c25_rom::files::RomFile;
use std::alloc::Global;

/// The texts of a program's files: both hex texts, the map, and the listings.
pub(crate) fn texts_of(built: Built) -> ProgramFileTexts
    ensures { result ≡ texts_in built }
{
    let Built { linked, listings } = built;
    let Linked {
        image: _,
        page0,
        page1,
        map,
    } = linked;
    let Page { text: page0, .. } = page0;
    let Page { text: page1, .. } = page1;
    ProgramFileTexts {
        page0,
        page1,
        map,
        listings,
    }
}

/// Output files with one more after them.
fn with_file<'a>(files: Vec<Output<'a>>, file: Output<'a>) -> Result<Vec<Output<'a>>, NoMemory>
    ensures { IfOk result (λ outputs. map contents_of outputs.items ≡ map contents_of files.entry.items ++ contents_of file.entry ∷ []) }
{
    let mut outputs = files;
    outputs.push(file)?;
    Ok(outputs)
}

/// The output file of a file of EPROMs.
fn rom_output<'a>(alloc: Global, file: &'a RomFile) -> Result<Output<'a>, NoMemory>
    ensures { IfOk result (λ output. contents_of output ≡ rom.contents_of file.entry.now) }
{
    let bytes = Vec::from_slice(alloc, file.bytes.as_slice())?;
    let name = file.name.as_str();
    Ok(Output { name, bytes })
}

/// Output files with those of EPROMs after them.
fn with_roms<'a>(
    alloc: Global,
    files: Vec<Output<'a>>,
    roms: &'a [RomFile],
) -> Result<Vec<Output<'a>>, NoMemory>
    ensures { IfOk result (λ outputs. map contents_of outputs.items ≡ map contents_of files.entry.items ++ map rom.contents_of roms.entry.now) }
{
    let mut outputs = files;
    for file in roms {
        outputs.push(rom_output(alloc, file)?)?;
    }
    Ok(outputs)
}

/// A built program, and the file of its symbols, if there is one.
#[derive(Drop)]
pub(crate) struct Program<'a> {
    pub(crate) built: Built,
    pub(crate) symbols: Option<Output<'a>>,
}

/// The files of a program that are to be written.
#[derive(Drop)]
pub(crate) struct ProgramFiles<'a> {
    /// What the names of the files of `texts` begin with.
    pub(crate) base: &'a str,
    pub(crate) texts: ProgramFileTexts,
    /// The file of the symbols, if there is one.
    pub(crate) symbols: Option<Output<'a>>,
    /// The files of the EPROMs, where these are asked for.
    pub(crate) roms: &'a [RomFile],
}

/// The output files of a program under these names, and after them the file of its symbols, if there is one.
fn outputs_with_symbols<'a>(
    alloc: Global,
    names: &'a ProgramFileNames,
    texts: ProgramFileTexts,
    symbols: Option<Output<'a>>,
) -> Result<Vec<Output<'a>>, NoMemory>
    ensures { (base : List ℕ) → AreNames base texts.listings.len names.entry.now
        → IfOk result (λ outputs. map contents_of outputs.items ≡ and_file (files_of base texts) symbols.entry) }
{
    let outputs = program_outputs(alloc, names, texts)?;
    match symbols {
        Some(file) => with_file(outputs, file),
        None => Ok(outputs),
    }
}

/// The output files of a program under these names, and after them the file of its symbols, if there is one, and those
/// of its EPROMs.
pub(crate) fn outputs_of<'a>(
    alloc: Global,
    names: &'a ProgramFileNames,
    files: ProgramFiles<'a>,
) -> Result<Vec<Output<'a>>, NoMemory>
    ensures { (base : List ℕ) → AreNames base files.entry.texts.listings.len names.entry.now
        → IfOk result (λ outputs. map contents_of outputs.items ≡ and_file (files_of base files.entry.texts) files.entry.symbols ++ map rom.contents_of files.entry.roms.now) }
{
    let ProgramFiles {
        texts,
        symbols,
        roms,
        ..
    } = files;
    let outputs = outputs_with_symbols(alloc, names, texts, symbols)?;
    with_roms(alloc, outputs, roms)
}
