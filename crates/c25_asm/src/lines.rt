//! The first phase of expanded lines, and their entries in the listing.

ghost use Rattle.std.specs.Prelude.{◌≡◌, ◌++◌, ◌∷◌, [], IfOk, IsTrue, OnOk};
ghost use Rattle.c25_listing.specs.View.{entries_of, entry_of};
ghost use Rattle.c25_macro.specs.Expander.{shown};
ghost use Rattle.c25_meaning_assembly.specs.ModuleOfSource as source;
ghost use Rattle.c25_asm.specs.Listed.{Passes};
ghost use Rattle.c25_asm.specs.View.{passed_of};

use crate::lines_so_far::LinesSoFar;
use c25_listing::listing::Entry;
use c25_macro::answer::ExpLine;
use c25_meaning_common::failure::Failure;
use c25_meaning_common::no_memory::NoMemory;
use c25_meaning_common::placed::FileLine;
use c25_phases::fault::AsmFault;
use c25_phases::{Progress, at_origin, read_and_pass};
use std::alloc::Global;

/// The state before the first line.
pub(crate) fn no_lines<'a>(alloc: Global) -> Result<LinesSoFar<'a>, NoMemory>
    ensures { IfOk result (λ p. passed_of p ≡ source.no_lines) }
{
    Ok(LinesSoFar {
        progress: Box::new(alloc, Progress::new(alloc)?)?,
        entries: Vec::new(alloc),
    })
}

/// Adds the entry of a line, where a listing is wanted.
fn add_entry<'a>(
    entries: &mut Vec<Entry<'a>>,
    entry: Entry<'a>,
    listed: bool,
) -> Result<(), NoMemory>
    ensures { OnOk result (IsTrue listed → entries_of entries.new.items ≡ entries_of entries.old.items ++ entry_of entry.entry ∷ []) }
{
    if !listed {
        return Ok(());
    }
    entries.push(entry)?;
    Ok(())
}

/// Passes one line more, and adds its entry where a listing is wanted.
#[tactic(auto, unfolding(c25_meaning_assembly::specs::ModuleOfSource::pass_line))]
pub(crate) fn pass_line<'a>(
    passed: LinesSoFar<'a>,
    line: ExpLine<'a>,
    listed: bool,
) -> Result<LinesSoFar<'a>, Failure<AsmFault<'a>>>
    ensures { Passes listed (source.pass_line (shown line.entry) (passed_of passed.entry)) result }
{
    let LinesSoFar { progress, entries } = passed;
    let mut entries = entries;
    let ExpLine { file, line, text } = line;
    let origin = FileLine { file, line };
    let section = progress.current;
    let offset = progress.size_at(section);
    match read_and_pass(progress, origin, text.as_str()) {
        Ok(progress) => {
            let count = progress.size_at(section).saturating_sub(offset);
            let entry = Entry {
                line,
                text,
                section,
                offset,
                count,
            };
            add_entry(&mut entries, entry, listed)?;
            Ok(LinesSoFar { progress, entries })
        }
        Err(failure) => Err(at_origin(origin, failure)),
    }
}
