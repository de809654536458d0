//! All faults of sources, for `--all`: the lines after that of the first one.

ghost use Rattle.std.specs.Prelude.{◌≡◌, ◌⊎◌, ◌++◌, [], IfOk, OnOk, codes, map, string_bytes, take};
ghost use Rattle.c25_chain.specs.FaultText.{refusal_text};
ghost use Rattle.c25_chain.specs.Refusal.{refusal_of};
ghost use Rattle.c25_meaning_assembly.specs.AllFaults as meaning;
ghost use Rattle.c25_meaning_common.specs.Faults.{placed_text};
ghost use Rattle.c25_meaning_language.specs.Faults.{numbered_name};
ghost use Rattle.c25_options.specs.Task.{texts_of};
ghost use Rattle.c25_phases.specs.View.{fault_of};
ghost use Rattle.c25_explain.specs.AllFaults.{Follows, ShowsOthers, fault_line, fault_lines, more_line, source_lines, sources_lines, wanted_by};
ghost use Rattle.std.specs.Option.{option_map};

use c25_asm::all_faults;
use c25_asm::fault::AsmFault;
use c25_chain::fault::ChainFault;
use c25_chain::write_refusal;
use c25_disk::disk::Disk;
use c25_disk::work::Work;
use c25_disk::{read_sources, with_copies};
use c25_macro::files::Files;
use c25_meaning_common::failure::Failure;
use c25_meaning_common::no_memory::NoMemory;
use c25_meaning_language::statement::FaultKind;
use std::alloc::Global;

/// The most faults of a source that are shown.
const MOST: usize = 100;

/// A task over files: the lines of all faults of these sources.
#[derive(Clone, Copy)]
struct AllFaults<'a> {
    sources: &'a [&'a str],
}

/// A source copies the file of this name, which has not been read.
#[derive(Drop)]
struct MissingFile {
    name: String,
}

/// The line of a fault in a line of a file.
fn placed_line(alloc: Global, file: &str, line: usize, fault: FaultKind) -> Result<String, NoMemory>
    ensures { IfOk result (λ text. string_bytes text ≡ placed_text file.now line (numbered_name fault) ++ codes "\n") }
{
    let number = fault.number();
    let name = fault.name();
    Ok(format!(in alloc; "{file}:{line}: {number} {name}\n")?)
}

/// The line of a fault of a source.
fn line_of(alloc: Global, fault: &AsmFault<'_>) -> Result<String, NoMemory>
    ensures { IfOk result (λ text. string_bytes text ≡ fault_line (fault_of fault.now)) }
{
    match fault {
        AsmFault::Line(placed) => {
            placed_line(alloc, placed.place.file, placed.place.line, placed.fault)
        }
        AsmFault::NoFile { file, line, .. } => placed_line(alloc, file, *line, FaultKind::NoFile),
    }
}

/// Appends the lines of faults.
fn push_lines(alloc: Global, text: &mut String, faults: &[AsmFault<'_>]) -> Result<(), NoMemory>
    ensures { OnOk result (string_bytes text.new ≡ string_bytes text.old ++ fault_lines (map fault_of faults.now)) }
{
    for fault in faults {
        let line = line_of(alloc, fault)?;
        text.push_str(line.as_str())?;
    }
    Ok(())
}

/// Appends the line that stands for the faults of a source that are not shown.
fn push_more(alloc: Global, text: &mut String, name: &str) -> Result<(), NoMemory>
    ensures { OnOk result (string_bytes text.new ≡ string_bytes text.old ++ more_line name.now) }
{
    let line = format!(in alloc; "{name}: more faults are not shown\n")?;
    text.push_str(line.as_str())?;
    Ok(())
}

/// Appends the lines of faults, of which one more than are shown were looked for.
fn push_faults(
    alloc: Global,
    text: &mut String,
    name: &str,
    faults: &[AsmFault<'_>],
) -> Result<(), NoMemory>
    ensures { OnOk result (string_bytes text.new ≡ string_bytes text.old ++ source_lines name.now (map fault_of faults.now)) }
{
    if faults.len() > MOST {
        let (shown, _) = faults.split_at(MOST);
        push_lines(alloc, text, shown)?;
        push_more(alloc, text, name)
    } else {
        push_lines(alloc, text, faults)
    }
}

/// The name of the first file that is copied and has not been read, where a fault is that it is not there.
fn unread_among(alloc: Global, faults: &[AsmFault<'_>]) -> Result<(), Failure<MissingFile>> {
    for fault in faults {
        if let AsmFault::NoFile { name, .. } = fault {
            let name = String::from_str(alloc, name.as_str())?;
            return Err(Failure::Fault(MissingFile { name }));
        }
    }
    Ok(())
}

/// Appends the lines of all faults of a source.
fn push_source(
    alloc: Global,
    text: &mut String,
    files: &Files,
    source: &str,
) -> Result<(), Failure<MissingFile>>
    ensures { OnOk result (string_bytes text.new ≡ string_bytes text.old ++ source_lines source.now (meaning.all_faults files.now source.now)) }
{
    let faults = all_faults(alloc, files, source, MOST + 1)?;
    unread_among(alloc, faults.as_slice())?;
    push_faults(alloc, text, source, faults.as_slice())?;
    Ok(())
}

/// The lines of all faults of sources.
fn lines_of(alloc: Global, files: &Files, sources: &[&str]) -> Result<String, Failure<MissingFile>>
    ensures { IfOk result (λ text. string_bytes text ≡ sources_lines files.now (texts_of sources.now)) }
{
    let mut text = String::new(alloc);
    for source in sources {
        push_source(alloc, &mut text, files, source)?;
    }
    Ok(text)
}

impl Work for AllFaults<'_> {
    ghost use Rattle.std.specs.Prelude.{◌≡◌, IfOk, string_bytes};
    ghost use Rattle.c25_options.specs.Task.{texts_of};
    ghost use Rattle.c25_explain.specs.AllFaults.{sources_lines, wanted_by};

    type Answer = String;

    type Fault = MissingFile;

    ghost comes_to = { λ work files result. IfOk result (λ text. string_bytes text ≡ sources_lines files (texts_of work.sources.now)) };

    ghost missing_of = { wanted_by };

    fn answer(&self, alloc: Global, files: &Files) -> Result<String, Failure<MissingFile>> {
        lines_of(alloc, files, self.sources)
    }

    fn missing(fault: &MissingFile) -> Option<&str>
        ensures { option_map (λ name. name.now) result ≡ wanted_by fault.now }
    {
        Some(fault.name.as_str())
    }
}

/// What follows the line of a fault in a text, if that line comes first; empty where it does not, or memory
/// runs out.
pub(crate) fn after_line(alloc: Global, text: &str, refusal: &ChainFault<String>) -> String
    ensures { Follows (refusal_of refusal.now) text.now (string_bytes result) ⊎ (string_bytes result ≡ []) }
{
    let Ok(line) = write_refusal(alloc, refusal) else {
        return String::new(alloc);
    };
    let Some(rest) = text.strip_prefix(line.as_str()) else {
        return String::new(alloc);
    };
    let Some(rest) = rest.strip_prefix("\n") else {
        return String::new(alloc);
    };
    match String::from_str(alloc, rest) {
        Ok(rest) => rest,
        Err(_) => String::new(alloc),
    }
}

/// The lines of all faults of sources but for that of the first one, which is this fault. The sources are
/// read again. The text is empty where they or a file that they copy cannot be read, where this fault is not
/// the first of theirs, or memory runs out.
pub(crate) fn others_text<D: Disk>(
    alloc: Global,
    disk: &D,
    sources: &[&str],
    refusal: &ChainFault<String>,
) -> String
    ensures { ShowsOthers (D.bytes_of disk.now) (texts_of sources.now) (refusal_of refusal.now) (string_bytes result) }
{
    let Ok(files) = read_sources(alloc, disk, sources) else {
        return String::new(alloc);
    };
    match with_copies(alloc, disk, files, &AllFaults { sources }) {
        Ok(text) => after_line(alloc, text.as_str(), refusal),
        Err(_) => String::new(alloc),
    }
}
