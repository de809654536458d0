//! Which warnings are shown, and how.

ghost use Rattle.std.specs.Prelude.{◌≡◌, ◌==◌, length, map, not};
ghost use Rattle.std.specs.List.{list_any};
ghost use Rattle.std.specs.Str.{bytes_eq};
ghost use Rattle.c25_check.specs.Showing.{is_elsewhere, paging_for, showing_for, shown_warnings, without_files};
ghost use Rattle.c25_inputs.specs.Files.{source_names};
ghost use Rattle.c25_options.specs.Task.{text_of, texts_of};
ghost use Rattle.c25_warnings.specs.View.{program_warnings_of, warning_of};

use c25_inputs::sources::Sources;
use c25_warnings::{ProgramWarnings, Warning};

/// What is said of data pages.
#[derive(Clone, Copy)]
pub(crate) enum Paging {
    /// Nothing.
    Nothing,
    /// What is certain.
    Certain,
    /// All, with what was supposed.
    All,
}

/// Which warnings of sources are shown, and how.
#[derive(Clone, Copy)]
pub(crate) struct Showing {
    /// Whether each warning is explained.
    pub(crate) explain: bool,
    /// What is said of data pages.
    pub(crate) paging: Paging,
    /// Whether the texts that are assembled are fronts of the sources. Their own lines have no warnings.
    pub(crate) fronted: bool,
}

/// Whether there are definitions.
fn is_fronted(definitions: &[&str]) -> bool
    ensures { result ≡ not (length (texts_of definitions.now) == 0) }
{
    !definitions.is_empty()
}

/// What is said of data pages: all where that is asked for, else what is certain where a command file is named.
pub(crate) fn paging_for(pages: bool, command: Option<&str>) -> Paging
    ensures { result ≡ paging_for pages (text_of command.entry) }
{
    if pages {
        return Paging::All;
    }
    match command {
        Some(_) => Paging::Certain,
        None => Paging::Nothing,
    }
}

/// How the warnings of sources are shown: explained or not, and without those of fronts where symbols are defined.
pub(crate) fn showing_for(explain: bool, paging: Paging, sources: Sources<'_>) -> Showing
    ensures { result ≡ showing_for explain paging (source_names sources.entry) }
{
    let fronted = is_fronted(sources.definitions);
    Showing {
        explain,
        paging,
        fronted,
    }
}

/// Whether a name is one of these.
fn is_one_of(names: &[&str], name: &str) -> bool
    ensures { result ≡ list_any (bytes_eq name.now) (map (λ one. one.now) names.now) }
{
    for one in names {
        if name == *one {
            return true;
        }
    }
    false
}

/// Whether a warning is of a line of another file than these.
fn is_elsewhere(files: &[&str], warning: &Warning<'_>) -> bool
    ensures { result ≡ is_elsewhere (map (λ file. file.now) files.now) (warning_of warning.now) }
{
    !is_one_of(files, warning.file)
}

/// The warnings without those of the lines of these files.
fn without_files<'a>(warnings: ProgramWarnings<'a>, files: &[&str]) -> ProgramWarnings<'a>
    ensures { program_warnings_of result ≡ without_files (map (λ file. file.now) files.now) (program_warnings_of warnings.entry) }
{
    let ProgramWarnings {
        mut of_lines,
        of_sections,
    } = warnings;
    of_lines.retain(|warning| is_elsewhere(files, warning));
    ProgramWarnings {
        of_lines,
        of_sections,
    }
}

/// The warnings that are shown of texts of these names: where they are fronts, not those of their own lines.
pub(crate) fn shown_warnings<'a>(
    warnings: ProgramWarnings<'a>,
    names: &[&str],
    fronted: bool,
) -> ProgramWarnings<'a>
    ensures { program_warnings_of result ≡ shown_warnings fronted (map (λ name. name.now) names.now) (program_warnings_of warnings.entry) }
{
    if fronted {
        without_files(warnings, names)
    } else {
        warnings
    }
}
