//! The second phase: words and relocations, when all names are known.

ghost use Rattle.std.specs.Prelude.{◌≡◌, ◌≤◌, ◌<◌, ◌+◌, length, replicate, OnOk, IfOk, map};
ghost use Rattle.std.specs.List.{All, list_all};
ghost use Rattle.c25_meaning_assembly.specs.Addresses as spec;
ghost use Rattle.c25_meaning_assembly.specs.OperandFields as fields;
ghost use Rattle.c25_meaning_assembly.specs.Emission as emission;
ghost use Rattle.c25_meaning_common.specs.Results.{Meets, MeetsBy};
ghost use Rattle.c25_meaning_assembly.specs.Sections.{name_count};
ghost use Rattle.c25_phases.specs.Imports.{imported};
ghost use Rattle.c25_phases.specs.Names.{bytes_of_names};
ghost use Rattle.c25_phases.specs.Refused.{IsKept};
ghost use Rattle.c25_phases.specs.View.{content_of, fault_of, item_of};

use crate::fault::AsmFault;
use crate::first_phase::place;
use crate::item::{Content, PendingItem};
use crate::names::DistinctNames;
use crate::operand_values::OperandValues;
use crate::refusal::at_origin;
use crate::sections::Sections;
use crate::targets::{ends_first, field_of, word_of};
use c25_expr::symbols::{Defined, Symbols};
use c25_isa::encode;
use c25_meaning_assembly::assembly::{Address, Target};
use c25_meaning_common::failure::Failure;
use c25_meaning_common::no_memory::NoMemory;
use c25_meaning_language::statement::FaultKind;
use c25_meaning_language::value::{Base, Value};
use c25_meaning_objects::object::Relocation;
use c25_statements::forms::insn_of;
use std::alloc::Global;

/// Appends the declared names that are not defined to the symbols, as names of other modules, each with its
/// number among all.
pub(crate) fn import_all(symbols: &mut Symbols, declared: &DistinctNames) -> Result<(), NoMemory>
    requires { name_count symbols.old.entries declared.now ≤ 65535 }
    ensures { OnOk result (symbols.new.entries ≡ emission.names_with symbols.old.entries declared.now) }
{
    for number in 0..declared.len() {
        if let Some(name) = declared.get(number) {
            import(symbols, name)?;
        }
    }
    Ok(())
}

/// Appends a declared name to the symbols, as another module's, if it is not defined.
fn import(symbols: &mut Symbols, name: &str) -> Result<(), NoMemory>
    requires { length symbols.old.entries < 65536 }
    ensures { OnOk result (symbols.new.entries ≡ imported symbols.old.entries name.now) }
{
    let value = Value {
        base: Base::External(symbols.len() as u16),
        offset: 0,
    };
    match symbols.define(name, value) {
        Ok(()) | Err(Failure::Fault(Defined)) => Ok(()),
        Err(Failure::NoMemory(error)) => Err(error),
    }
}

fn is_inside(base: Base) -> bool
    ensures { result ≡ emission.is_inside base }
{
    match base {
        Base::Absolute | Base::Section(_) | Base::Loaded(_) => true,
        Base::External(_) => false,
    }
}

fn is_here(symbols: &Symbols, name: &str) -> bool
    ensures { result ≡ emission.is_here symbols.now.entries name.now }
{
    match symbols.get(name) {
        Some(value) => is_inside(value.base),
        None => false,
    }
}

fn are_here(symbols: &Symbols, names: &[String]) -> bool
    ensures { result ≡ list_all (emission.is_here symbols.now.entries) (bytes_of_names names.now) }
{
    for name in names {
        if !is_here(symbols, name.as_str()) {
            return false;
        }
    }
    true
}

/// The relocation of an address of a line that begins at an offset of a section.
fn relocation_at(target: Target, section: u16, offset: u32, address: &Address) -> Relocation
    requires { offset + fields.word_of (fields.field_of target address.now.operand) address.now.operand < 65536 }
    ensures { result ≡ spec.relocation_at target section offset address.now }
{
    let word = word_of(field_of(target, address.operand), address.operand);
    Relocation {
        section,
        offset: (offset as usize + word) as u16,
        kind: address.kind,
        base: address.base,
        addend: address.addend,
    }
}

/// The relocations of addresses, in the order of their operands.
fn relocations_at(
    alloc: Global,
    target: Target,
    section: u16,
    offset: u32,
    addresses: &[Address],
) -> Result<Vec<Relocation>, NoMemory>
    requires { All (λ a. offset + fields.word_of (fields.field_of target a.operand) a.operand < 65536) addresses.now }
    ensures { IfOk result (λ v. v.items ≡ map (spec.relocation_at target section offset) addresses.now) }
{
    let mut relocations = Vec::new(alloc);
    for address in addresses {
        relocations.push(relocation_at(target, section, offset, address))?;
    }
    Ok(relocations)
}

/// The relocations of a line, in the order of its words.
#[tactic(auto, using(crate::proofs::Reversed::map_reverse))]
fn relocations_of(
    alloc: Global,
    target: Target,
    section: u16,
    offset: u32,
    addresses: &[Address],
) -> Result<Vec<Relocation>, NoMemory>
    requires { All (λ a. offset + fields.word_of (fields.field_of target a.operand) a.operand < 65536) addresses.now }
    ensures { IfOk result (λ v. v.items ≡ spec.relocations_of target section offset addresses.now) }
{
    let mut relocations = relocations_at(alloc, target, section, offset, addresses)?;
    if ends_first(target) {
        relocations.reverse();
        Ok(relocations)
    } else {
        Ok(relocations)
    }
}

/// Appends the words and relocations of an item's operands to the item's section.
#[tactic(auto, using(c25_meaning_language::proofs::Numbers::in_range))]
fn put_sheet(
    alloc: Global,
    sections: &mut Sections<'_>,
    item: &PendingItem<'_>,
    target: Target,
    sheet: &OperandValues,
) -> Result<(), NoMemory>
    requires fits { fields.FitsTarget target sheet.now.numbers }
    requires within { All (λ a. item.now.offset + fields.word_of (fields.field_of target a.operand) a.operand < 65536) sheet.now.addresses }
    ensures { OnOk result (sections.new ≡ emission.with_operand_values target item.now.section item.now.offset sections.old sheet.now) }
{
    let section = item.section;
    let relocations = relocations_of(alloc, target, section, item.offset, sheet.addresses())?;
    match target {
        Target::Instruction(form) => {
            let insn = insn_of(form, sheet.numbers());
            let code = encode(&insn);
            sections.extend(section, code.as_slice(), relocations.as_slice())
        }
        Target::Data(_) => { sections.extend(section, sheet.numbers(), relocations.as_slice()) }
    }
}

fn zeros(alloc: Global, count: usize) -> Result<Vec<u16>, NoMemory>
    ensures { IfOk result (λ v. v.items ≡ replicate count 0) }
{
    vec![in alloc; 0; count].map_err(NoMemory::from)
}

/// Appends an item's words and relocations to its section, or reports the first fault of its operands, or
/// `Undefined` (22) where a name of `.def` is not defined in the module.
pub(crate) fn emit(
    alloc: Global,
    symbols: &mut Symbols,
    sections: &mut Sections<'_>,
    sheet: &mut OperandValues,
    item: &PendingItem<'_>,
) -> Result<(), Failure<FaultKind>>
    ensures told { Meets (λ _. sections.new) (emission.emit symbols.old.entries item.now.section item.now.offset sections.old (content_of item.now.content)) result }
    ensures kept { IsKept sections.old result sections.new }
    ensures names { symbols.new.entries ≡ symbols.old.entries }
{
    let section = item.section;
    match &item.content {
        Content::Operands(target, operands) => {
            symbols.set_here(place(section, item.offset));
            sheet.fill(*target, symbols, operands.as_slice())?;
            put_sheet(alloc, sections, item, *target, sheet).map_err(Failure::NoMemory)
        }
        Content::Words(words) => sections
            .extend(section, words.as_slice(), &[])
            .map_err(Failure::NoMemory),
        Content::Zeros(count) => {
            let zeros = zeros(alloc, *count as usize)?;
            sections
                .extend(section, zeros.as_slice(), &[])
                .map_err(Failure::NoMemory)
        }
        Content::Exported(names) => {
            if are_here(symbols, names.as_slice()) {
                Ok(())
            } else {
                Err(Failure::Fault(FaultKind::Undefined))
            }
        }
    }
}

/// Appends the words and relocations of all items, line by line, or reports the first fault with its line.
pub(crate) fn emit_all<'a>(
    alloc: Global,
    symbols: &mut Symbols,
    sections: &mut Sections<'_>,
    sheet: &mut OperandValues,
    items: &[PendingItem<'a>],
) -> Result<(), Failure<AsmFault<'a>>>
    ensures told { MeetsBy fault_of (λ _. sections.new) (emission.emit_all symbols.old.entries sections.old (map item_of items.now)) result }
    ensures names { symbols.new.entries ≡ symbols.old.entries }
{
    for item in items {
        match emit(alloc, symbols, sections, sheet, item) {
            Ok(()) => {}
            Err(failure) => return Err(at_origin(item.origin, failure)),
        }
    }
    Ok(())
}
