//! The state of the first phase. `first_phase.rt` has the methods of `Progress` for names, counts and
//! sections, `acts.rt` those for what a line does; `wrong.rt` counts the items.

ghost use Rattle.std.specs.Prelude.{◌≡◌, length};
ghost use Rattle.c25_meaning_assembly.specs.Sections.{imports};

use crate::item::PendingItem;
use crate::names::DistinctNames;
use crate::sections::Sections;
use c25_expr::symbols::Symbols;
use std::alloc::Global;

/// What the lines so far have made: the state of the first phase.
#[derive(Drop)]
pub struct Progress<'a> {
    pub(crate) alloc: Global,
    pub(crate) sections: Sections<'a>,
    /// The number of the section that the next line goes on in.
    pub current: u16,
    pub(crate) symbols: Symbols,
    /// The names of `.global` and `.ref`.
    pub(crate) declared: DistinctNames,
    /// How many of the declared names are not defined yet.
    pub(crate) missing: usize,
    /// The names of `.global`, `.ref` and `.def`.
    pub(crate) exported: DistinctNames,
    /// Whether there was a `.mmregs`.
    pub(crate) registers: bool,
    pub(crate) items: Vec<PendingItem<'a>>,
    /// The names of the files that hold instructions.
    pub(crate) files: DistinctNames,
    /// The number of the last instruction's file among `files`, so that most instructions need no look-up of
    /// their file.
    pub(crate) recent: usize,
    ghost counted: { length (imports symbols.entries declared) ≡ missing },
}
