//! Making the module, which ends the second phase.

ghost use Rattle.std.specs.Prelude.{◌≡◌, ◌≤◌, IfOk, OnOk, length, map};
ghost use Rattle.c25_meaning_assembly.specs.Emission as emission;
ghost use Rattle.c25_meaning_common.specs.Results.{MeetsBy};
ghost use Rattle.c25_meaning_assembly.specs.Sections.{name_count};
ghost use Rattle.c25_module.specs.View.{contents, symbol_data, symbols_data};
ghost use Rattle.c25_phases.specs.Laid.{module_of};
ghost use Rattle.c25_phases.specs.View.{fault_of, item_of, progress_of};

use crate::emission::{emit_all, import_all};
use crate::fault::AsmFault;
use crate::names::DistinctNames;
use crate::operand_values::OperandValues;
use crate::progress::Progress;
use crate::second_phase::SecondPhase;
use crate::sections::Sections;
use c25_expr::symbols::Symbols;
use c25_meaning_common::failure::Failure;
use c25_meaning_common::no_memory::NoMemory;
use c25_meaning_language::value::{Base, Value};
use c25_meaning_objects::object::{Scope, SymbolKind, Version};
use c25_module::{Parts, Symbol};
use std::alloc::Global;
use std::mem;

fn kind_of(base: Base) -> SymbolKind
    ensures { result ≡ emission.kind_of base }
{
    match base {
        Base::Absolute => SymbolKind::Absolute,
        Base::Section(number) => SymbolKind::InSection(number),
        Base::Loaded(number) => SymbolKind::Loaded(number),
        Base::External(_) => SymbolKind::External,
    }
}

fn scope_of(is_global: bool) -> Scope
    ensures { result ≡ emission.scope_of is_global }
{
    if is_global {
        Scope::Global
    } else {
        Scope::Local
    }
}

/// A symbol of the module.
fn symbol_of(
    alloc: Global,
    exported: &DistinctNames,
    name: &str,
    value: Value,
) -> Result<Symbol, NoMemory>
    ensures { IfOk result (λ y. symbol_data y ≡ emission.symbol_of exported.now (name.now, value)) }
{
    let name_copy = String::from_str(alloc, name)?;
    Ok(Symbol {
        kind: kind_of(value.base),
        scope: scope_of(exported.has(name)),
        value: value.offset,
        name: name_copy,
    })
}

/// The symbols of the module.
fn symbols_of(
    alloc: Global,
    symbols: &Symbols,
    exported: &DistinctNames,
) -> Result<Vec<Symbol>, NoMemory>
    ensures { IfOk result (λ v. symbols_data v.items ≡ map (emission.symbol_of exported.now) symbols.now.entries) }
{
    let mut all = Vec::new(alloc);
    for number in 0..symbols.len() {
        if let Some((name, value)) = symbols.entry(number) {
            all.push(symbol_of(alloc, exported, name, value)?)?;
        }
    }
    Ok(all)
}

/// The module's lists, of sections with their words and of symbols.
#[tactic(auto, using(crate::proofs::Filed::module_is))]
fn module_with(
    alloc: Global,
    sections: Sections<'_>,
    symbols: &Symbols,
    exported: &DistinctNames,
) -> Result<Parts, NoMemory>
    requires { length (emission.lines_in sections).files ≤ 65535 }
    ensures { IfOk result (λ p. contents p ≡ emission.module_with sections.entry symbols.now.entries exported.now) }
{
    let marks = sections.marks()?;
    let relocations = sections.relocations()?;
    let blocks = sections.blocks()?;
    let (files, lines) = sections.lines()?.into_parts()?;
    let symbols = symbols_of(alloc, symbols, exported)?;
    let sections = sections.into_parts()?;
    Ok(Parts {
        sections,
        marks,
        symbols,
        relocations,
        version: Version::Two,
        files,
        lines,
        blocks,
    })
}

impl<'a> SecondPhase<'a> {
    /// Gives the sections the words and relocations of all items.
    fn emit(&mut self) -> Result<(), Failure<AsmFault<'a>>>
        requires { name_count self.old.symbols.entries self.old.declared ≤ 65535 }
        ensures told { MeetsBy fault_of (λ _. self.new.sections) (emission.emit_all (emission.names_with self.old.symbols.entries self.old.declared) self.old.sections (map item_of self.old.items.items)) result }
        ensures names { OnOk result (self.new.symbols.entries ≡ emission.names_with self.old.symbols.entries self.old.declared) }
        ensures exported { self.new.exported ≡ self.old.exported }
    {
        import_all(&mut self.symbols, &self.declared)?;
        let mut sheet = OperandValues::new(self.alloc);
        emit_all(
            self.alloc,
            &mut self.symbols,
            &mut self.sections,
            &mut sheet,
            self.items.as_slice(),
        )
    }

    /// The module's lists, which take over the sections' words, or the first fault of the operands.
    fn take_parts(&mut self) -> Result<Parts, Failure<AsmFault<'a>>>
        requires names { name_count self.old.symbols.entries self.old.declared ≤ 65535 }
        requires files { length (emission.lines_in self.old.sections).files ≤ 65535 }
        ensures { MeetsBy fault_of contents (module_of self.old.sections (emission.names_with self.old.symbols.entries self.old.declared) self.old.exported (map item_of self.old.items.items)) result }
    {
        self.emit()?;
        // The items are not needed any more, and take most of the memory.
        self.items = Vec::new(self.alloc);
        let sections = mem::replace(&mut self.sections, Sections::new(self.alloc));
        Ok(module_with(self.alloc, sections, &self.symbols, &self.exported)?)
    }
}

/// The lists of the module that the lines have made, or the first fault of the second phase: an operand
/// without a value, or a name of `.def` that is not defined here (22 to 25), a value out of its field's range
/// (53), an address that its field does not take (55). `NoMemory` where memory runs out.
#[tactic(auto, unfolding(c25_meaning_assembly::specs::Emission::finished))]
pub fn finish(progress: Progress<'_>) -> Result<Parts, Failure<AsmFault<'_>>>
    requires names { name_count (progress_of progress).names (progress_of progress).declared ≤ 65535 }
    requires files { length (emission.lines_in (progress_of progress).sections).files ≤ 65535 }
    ensures { MeetsBy fault_of contents (emission.finished (progress_of progress.entry)) result }
{
    let mut laid = SecondPhase::of(progress);
    let parts = laid.take_parts();
    // Only the module is kept of what the lines have made.
    mem::drop(laid);
    parts
}
