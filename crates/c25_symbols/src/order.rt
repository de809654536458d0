//! Symbols in the order of their names.

ghost use Rattle.std.specs.Prelude.{◌≡◌, OnOk};
ghost use Rattle.c25_symbols.specs.Symbols.{in_order, is_before};
ghost use Rattle.c25_symbols.specs.View.{entries_view};

use crate::entries::SymbolEntry;
use std::alloc::AllocError;

/// Brings symbols into the order of their names; symbols of one name keep their order.
pub(crate) fn sort_by_name(entries: &mut Vec<SymbolEntry<'_>>) -> Result<(), AllocError>
    ensures { OnOk result (entries_view entries.new.items ≡ in_order is_before (entries_view entries.old.items)) }
{
    entries.sort_by(|a, b| a.name.cmp(b.name))?;
    Ok(())
}
