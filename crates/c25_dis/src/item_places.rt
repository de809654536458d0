//! The places of symbols, marks and relocations in a section.

ghost use Rattle.std.specs.Prelude.{◌≡◌};
ghost use Rattle.c25_dis.specs.Sections.{counts_from};

use crate::index::Stands;
use c25_meaning_objects::object::{ModuleMark, Relocation, SymbolKind};
use c25_module::Symbol;

/// Whether values of a kind count from a section.
fn counts_from(kind: SymbolKind, section: usize) -> bool
    ensures { result ≡ counts_from section kind }
{
    match kind {
        SymbolKind::InSection(number) => usize::from(number) == section,
        SymbolKind::Loaded(number) => usize::from(number) == section,
        SymbolKind::Absolute => false,
        SymbolKind::External => false,
    }
}

impl Stands for Symbol {
    ghost use Rattle.c25_dis.specs.View.{symbol_place};

    ghost place_of = { symbol_place };

    fn place(&self, section: usize) -> Option<usize> {
        if counts_from(self.kind, section) && self.value >= 0 {
            Some(self.value as usize)
        } else {
            None
        }
    }
}

impl Stands for ModuleMark {
    ghost use Rattle.c25_dis.specs.View.{mark_place};

    ghost place_of = { mark_place };

    fn place(&self, section: usize) -> Option<usize> {
        if usize::from(self.section) == section {
            Some(usize::from(self.offset))
        } else {
            None
        }
    }
}

impl Stands for Relocation {
    ghost use Rattle.c25_dis.specs.View.{relocation_place};

    ghost place_of = { relocation_place };

    fn place(&self, section: usize) -> Option<usize> {
        if usize::from(self.section) == section {
            Some(usize::from(self.offset))
        } else {
            None
        }
    }
}
