//! The input of the second phase. The methods of its type are also in `making.rt` and `wrong.rt`.

ghost use Rattle.std.specs.Prelude.{◌≡◌};

use crate::item::PendingItem;
use crate::names::DistinctNames;
use crate::progress::Progress;
use crate::sections::Sections;
use c25_expr::symbols::Symbols;
use std::alloc::Global;
use std::mem;

/// The part of the first phase's result that the second phase reads.
#[derive(Drop)]
pub(crate) struct SecondPhase<'a> {
    pub(crate) alloc: Global,
    pub(crate) sections: Sections<'a>,
    pub(crate) symbols: Symbols,
    /// The names of `.global` and `.ref`.
    pub(crate) declared: DistinctNames,
    /// The names of `.global`, `.ref` and `.def`.
    pub(crate) exported: DistinctNames,
    pub(crate) items: Vec<PendingItem<'a>>,
}

impl<'a> SecondPhase<'a> {
    /// Takes from the first phase's result what the second phase reads.
    pub(crate) fn of(progress: Progress<'a>) -> SecondPhase<'a>
        ensures sections { result.sections ≡ progress.entry.sections }
        ensures symbols { result.symbols ≡ progress.entry.symbols }
        ensures declared { result.declared ≡ progress.entry.declared }
        ensures exported { result.exported ≡ progress.entry.exported }
        ensures items { result.items ≡ progress.entry.items }
    {
        let Progress {
            alloc,
            sections,
            symbols,
            declared,
            exported,
            items,
            files,
            ..
        } = progress;
        // The files' names are kept with the marks of the sections.
        mem::drop(files);
        SecondPhase {
            alloc,
            sections,
            symbols,
            declared,
            exported,
            items,
        }
    }

    /// The symbols alone.
    pub(crate) fn into_symbols(self) -> Symbols
        ensures { result ≡ self.entry.symbols }
    {
        let SecondPhase {
            sections,
            symbols,
            declared,
            exported,
            items,
            ..
        } = self;
        mem::drop(sections);
        mem::drop(declared);
        mem::drop(exported);
        mem::drop(items);
        symbols
    }
}
