//! The values of symbols and of relocated fields.

ghost use Rattle.std.specs.Prelude.{◌≡◌, ◌^◌, Some, pos, negsuc, ◌≤ℤ◌, ◌+ℤ◌};
ghost use Rattle.c25_meaning_objects.specs.Module.{Contents};
ghost use Rattle.c25_meaning_linking.specs.Words.{section_base, section_run, kind_value, definition_value, name_value, base_value, relocated_value};
ghost use Rattle.c25_module.specs.View.{contents};
ghost use Rattle.c25_link.specs.Layout.{IsLaidOut, IsOwner, places_in};
ghost use Rattle.c25_link.specs.View.{definition_view};

use crate::definitions::Definition;
use crate::layout::Layout;
use crate::uses::symbol_name;
use c25_meaning_objects::object::{Relocation, RelocationBase, SymbolKind};
use c25_module::Parts;

/// The sum of a base and an addend.
fn sum(base: i64, addend: i32) -> i64
    requires low { negsuc (2 ^ 36) ≤ℤ base }
    requires high { base ≤ℤ pos (2 ^ 36) }
    ensures { result ≡ base +ℤ addend }
{
    base + i64::from(addend)
}

/// The address where a module's part of a section is loaded.
fn section_base(layout: &Layout<'_, '_>, number: usize, index: u16) -> i64
    requires { IsLaidOut layout.now }
    ensures low { pos 0 ≤ℤ result }
    ensures high { result ≤ℤ pos (2 ^ 32) }
    ensures value { (m : Contents) → IsOwner layout.now number m → result ≡ pos (section_base layout.now.modules.now (places_in layout.now) number m index) }
{
    i64::from(layout.bases.get(number, usize::from(index)).base)
}

/// The address where a module's part of a section runs.
fn section_run(layout: &Layout<'_, '_>, number: usize, index: u16) -> i64
    requires { IsLaidOut layout.now }
    ensures low { pos 0 ≤ℤ result }
    ensures high { result ≤ℤ pos (2 ^ 32) }
    ensures value { (m : Contents) → IsOwner layout.now number m → result ≡ pos (section_run layout.now.modules.now (places_in layout.now) number m index) }
{
    i64::from(layout.bases.get(number, usize::from(index)).run_base())
}

/// The value of a symbol of a module, by its kind.
fn kind_value(layout: &Layout<'_, '_>, number: usize, kind: SymbolKind, value: i32) -> i64
    requires { IsLaidOut layout.now }
    ensures low { negsuc (2 ^ 36) ≤ℤ result }
    ensures high { result ≤ℤ pos (2 ^ 36) }
    ensures value { (m : Contents) → IsOwner layout.now number m → result ≡ kind_value layout.now.modules.now (places_in layout.now) number m kind value }
{
    match kind {
        SymbolKind::Absolute => i64::from(value),
        SymbolKind::InSection(index) => sum(section_run(layout, number, index), value),
        SymbolKind::Loaded(index) => sum(section_base(layout, number, index), value),
        SymbolKind::External => 0,
    }
}

/// The value of a definition.
pub(crate) fn definition_value(layout: &Layout<'_, '_>, definition: &Definition<'_>) -> i64
    requires { IsLaidOut layout.now }
    ensures low { negsuc (2 ^ 36) ≤ℤ result }
    ensures high { result ≤ℤ pos (2 ^ 36) }
    ensures value { IsOwner layout.now definition.now.number (contents definition.now.owner.now)
        → result ≡ definition_value layout.now.modules.now (places_in layout.now) (definition_view definition.now) }
{
    let symbol = definition.symbol;
    kind_value(layout, definition.number, symbol.kind, symbol.value)
}

/// The value of a global symbol by its name, 0 where no module defines it.
pub(crate) fn name_value(layout: &Layout<'_, '_>, name: &str) -> i64
    requires { IsLaidOut layout.now }
    ensures low { negsuc (2 ^ 36) ≤ℤ result }
    ensures high { result ≤ℤ pos (2 ^ 36) }
    ensures value { result ≡ name_value layout.now.modules.now (places_in layout.now) name.now }
{
    match layout.definitions.get(name) {
        Some(definition) => definition_value(layout, &definition),
        None => 0,
    }
}

/// The address or value that a relocation adds its addend to.
fn base_value(layout: &Layout<'_, '_>, number: usize, owner: &Parts, base: RelocationBase) -> i64
    requires laid { IsLaidOut layout.now }
    requires owner { IsOwner layout.now number (contents owner.now) }
    ensures low { negsuc (2 ^ 36) ≤ℤ result }
    ensures high { result ≤ℤ pos (2 ^ 36) }
    ensures value { result ≡ base_value layout.now.modules.now (places_in layout.now) number (contents owner.now) base }
{
    match base {
        RelocationBase::Section(index) => section_run(layout, number, index),
        RelocationBase::Loaded(index) => section_base(layout, number, index),
        RelocationBase::External(index) => name_value(layout, symbol_name(owner, index)),
    }
}

/// The value that a relocation fills its field with.
pub(crate) fn relocated_value(
    layout: &Layout<'_, '_>,
    number: usize,
    owner: &Parts,
    relocation: &Relocation,
) -> i64
    requires laid { IsLaidOut layout.now }
    requires owner { IsOwner layout.now number (contents owner.now) }
    ensures { result ≡ relocated_value layout.now.modules.now (places_in layout.now) number (contents owner.now) relocation.now }
{
    sum(
        base_value(layout, number, owner, relocation.base),
        relocation.addend,
    )
}
