//! The warnings of a source.

ghost use Rattle.std.specs.Prelude.{◌≡◌, IfOk, OnOk, map, slice_get};
ghost use Rattle.c25_line_warnings.specs.View.{lines_of};
ghost use Rattle.c25_phases.specs.View.{progress_of};
ghost use Rattle.c25_place.specs.View.{places_view};
ghost use Rattle.c25_uses.specs.Uses as uses;
ghost use Rattle.c25_warnings.specs.Data as words;
ghost use Rattle.c25_warnings.specs.Sources.{of_found};
ghost use Rattle.c25_warnings.specs.View.{known_view, warnings_view};
ghost use Rattle.c25_warnings.specs.Warnings as meaning;

use crate::data::any_moves;
use crate::lines::{SourceLines, source_lines};
use crate::linking::Linked;
use crate::reports::Reports;
use crate::rules::{Known, add_lines};
use crate::warning::Warning;
use c25_files::files::Files;
use c25_line_warnings::memories::Memories;
use c25_line_warnings::source_line::SourceLine;
use c25_meaning_common::no_memory::NoMemory;
use c25_module::Module;
use c25_phases::Progress;
use c25_place::Place;
use c25_uses::used_names::UsedNames;
use c25_uses::uses::used_names;
use std::alloc::Global;

/// What the lines of a source use.
#[derive(Drop)]
struct Used<'u> {
    /// The names that the lines of all files use.
    names: UsedNames<'u>,
    /// Whether an instruction of the source writes the word after the one that it names.
    moves: bool,
}

/// What these lines of a source use.
fn used_of<'b>(
    alloc: Global,
    files: &'b Files,
    lines: &'b [SourceLine<'_>],
) -> Result<Used<'b>, NoMemory>
    ensures names { IfOk result (λ u. u.names ≡ uses.used_names files.now (lines_of lines.now)) }
    ensures moves { IfOk result (λ u. u.moves ≡ words.any_moves (lines_of lines.now)) }
{
    let moves = any_moves(lines);
    let names = used_names(alloc, files, lines)?;
    Ok(Used { names, moves })
}

/// What is known of a source that is assembled to this module.
fn known_of<'b, 'r, 'u>(
    name: &'b str,
    made: &'b Module,
    progress: &'b Progress<'_>,
    places: &'b [Place<'b>],
    used: &'r Used<'u>,
) -> Known<'b, 'r, 'u>
    ensures { known_view result ≡ meaning.known_with name.now made.now (meaning.memories_in made.now (progress_of progress.now).names (places_view places.now)) used.now.names used.now.moves }
{
    let parts = made.parts();
    let memories = Memories {
        symbols: progress.symbols(),
        sections: parts.sections.as_slice(),
        places,
    };
    Known {
        name,
        parts,
        memories,
        used: &used.names,
        moves: used.moves,
    }
}

/// Adds the warnings of the source of a name, which is assembled to this module, in the order of its lines after
/// expansion.
#[tactic(auto, unfolding(crate::specs::Warnings::warnings_of))]
fn add_source<'a>(
    reports: &mut Reports<'a>,
    files: &'a Files,
    name: &'a str,
    made: &'a Module,
    places: &'a [Place<'a>],
) -> Result<(), NoMemory>
    ensures { OnOk result (reports.new ≡ meaning.each_once reports.old (meaning.warnings_of files.now name.now made.now (places_view places.now))) }
{
    let alloc = reports.alloc();
    let Some(SourceLines { progress, lines }) = source_lines(alloc, files, name)? else {
        return Ok(());
    };
    let used = used_of(alloc, files, lines.as_slice())?;
    let known = known_of(name, made, &progress, places, &used);
    add_lines(alloc, reports, known, lines.as_slice())
}

/// Adds the warnings of the source of a name, whose module has this number, if there is such a module.
fn add_numbered<'a>(
    reports: &mut Reports<'a>,
    files: &'a Files,
    name: &'a str,
    linked: Linked<'a>,
    number: usize,
) -> Result<(), NoMemory>
    ensures { OnOk result (reports.new ≡ meaning.each_once reports.old (of_found files.now name.now (places_view linked.entry.places.now) (slice_get linked.entry.modules.now number))) }
{
    match linked.modules.get(number) {
        Some(made) => add_source(reports, files, name, made, linked.places),
        None => Ok(()),
    }
}

/// Adds the warnings of sources, whose modules are linked, one source after another.
fn add_sources<'a>(
    reports: &mut Reports<'a>,
    files: &'a Files,
    names: &[&'a str],
    linked: Linked<'a>,
) -> Result<(), NoMemory>
    ensures { OnOk result (reports.new ≡ meaning.each_once reports.old (meaning.of_sources files.now (map (λ n. n.now) names.now) linked.entry.modules.now (places_view linked.entry.places.now))) }
{
    for number in 0..names.len() {
        add_numbered(reports, files, names[number], linked, number)?;
    }
    Ok(())
}

/// The warnings of sources, whose modules are linked, one source after another. A line has at most one of a kind.
pub(crate) fn warnings_of_sources<'a>(
    alloc: Global,
    files: &'a Files,
    names: &[&'a str],
    linked: Linked<'a>,
) -> Result<Vec<Warning<'a>>, NoMemory>
    ensures { IfOk result (λ list. warnings_view list.items ≡ meaning.warnings_of_sources files.now (map (λ n. n.now) names.now) linked.entry.modules.now (places_view linked.entry.places.now)) }
{
    let mut reports = Reports::new(alloc);
    add_sources(&mut reports, files, names, linked)?;
    Ok(reports.into_list())
}
