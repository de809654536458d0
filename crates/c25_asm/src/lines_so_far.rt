//! The state of an assembly between two lines.

ghost use Rattle.std.specs.Prelude.{◌≤◌};
ghost use Rattle.c25_meaning_assembly.specs.Sections.{name_count};
ghost use Rattle.c25_phases.specs.View.{progress_of};

use c25_listing::listing::Entry;
use c25_phases::Progress;

/// What the lines so far have made, and their entries in the listing where one is wanted. The state of the
/// first phase is boxed, since it is handed on from line to line.
#[derive(Drop)]
pub(crate) struct LinesSoFar<'a> {
    pub(crate) progress: Box<Progress<'a>>,
    pub(crate) entries: Vec<Entry<'a>>,
    ghost few: { name_count (progress_of progress.value).names (progress_of progress.value).declared ≤ 65535 },
}
