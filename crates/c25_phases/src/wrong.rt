//! Finding the first item that the second phase refuses, and the faults of all.

ghost use Rattle.std.specs.Option.{option_map};
ghost use Rattle.std.specs.Prelude.{◌≡◌, ◌≤◌, IfOk, IfSome, length, map};
ghost use Rattle.c25_meaning_assembly.specs.AllFaults.{item_faults, operand_faults};
ghost use Rattle.c25_meaning_assembly.specs.Emission.{names_with, table_at};
ghost use Rattle.c25_meaning_assembly.specs.Sections.{name_count};
ghost use Rattle.c25_phases.specs.View.{fault_of, item_of, progress_of};
ghost use Rattle.c25_phases.specs.Wrong.{first_wrong, table_of, wrong_from, wrong_of};

use crate::emission::{emit, import_all};
use crate::fault::AsmFault;
use crate::first_phase::place;
use crate::item::PendingItem;
use crate::operand_values::OperandValues;
use crate::progress::Progress;
use crate::refusal::line_fault;
use crate::second_phase::SecondPhase;
use crate::sections::Sections;
use c25_expr::symbols::Symbols;
use c25_meaning_common::failure::Failure;
use c25_meaning_common::no_memory::NoMemory;
use c25_meaning_common::placed::FileLine;
use c25_meaning_language::statement::FaultKind;
use std::alloc::Global;
use std::mem;

/// An item that the second phase refuses.
#[derive(Clone, Copy)]
pub struct WrongItem<'a> {
    /// How many items there are before this one.
    pub number: usize,
    pub origin: FileLine<&'a str>,
    pub kind: FaultKind,
    /// The section of the item, and the offset where it begins.
    pub section: u16,
    pub offset: u32,
}

/// The first item that the second phase refuses, and what names and `$` stand for at its place.
#[derive(Drop)]
pub struct FirstWrong<'a> {
    pub item: WrongItem<'a>,
    pub symbols: Symbols,
}

/// The first wrong one of some items. `$` then stands for the place where that item begins.
fn wrong_among<'a>(
    alloc: Global,
    symbols: &mut Symbols,
    sections: &mut Sections<'_>,
    sheet: &mut OperandValues,
    items: &[PendingItem<'a>],
) -> Result<Option<WrongItem<'a>>, NoMemory>
    ensures first { IfOk result (λ wrong. option_map wrong_of wrong ≡ wrong_from 0 symbols.old.entries sections.old (map item_of items.now)) }
    ensures here { IfOk result (λ wrong. IfSome wrong (λ w. symbols.new ≡ table_at symbols.old.entries w.section w.offset)) }
{
    let mut number = 0;
    for item in items {
        match emit(alloc, symbols, sections, sheet, item) {
            Ok(()) => number += 1,
            Err(Failure::NoMemory(error)) => return Err(error),
            Err(Failure::Fault(kind)) => {
                symbols.set_here(place(item.section, item.offset));
                return Ok(Some(WrongItem {
                    number,
                    origin: item.origin,
                    kind,
                    section: item.section,
                    offset: item.offset,
                }));
            }
        }
    }
    Ok(None)
}

impl<'a> SecondPhase<'a> {
    /// The first item that is wrong when all names are known. `$` then stands for the place where it begins.
    fn wrong_item(&mut self) -> Result<Option<WrongItem<'a>>, NoMemory>
        requires { name_count self.old.symbols.entries self.old.declared ≤ 65535 }
        ensures first { IfOk result (λ wrong. option_map wrong_of wrong ≡ wrong_from 0 (names_with self.old.symbols.entries self.old.declared) self.old.sections (map item_of self.old.items.items)) }
        ensures here { IfOk result (λ wrong. IfSome wrong (λ w. self.new.symbols ≡ table_at (names_with self.old.symbols.entries self.old.declared) w.section w.offset)) }
    {
        import_all(&mut self.symbols, &self.declared)?;
        let mut sheet = OperandValues::new(self.alloc);
        wrong_among(
            self.alloc,
            &mut self.symbols,
            &mut self.sections,
            &mut sheet,
            self.items.as_slice(),
        )
    }
}

/// The first item of the lines that the second phase refuses, if there is one, and what names stand for at its
/// place; `NoMemory` where memory runs out.
pub fn first_wrong(progress: Progress<'_>) -> Result<Option<FirstWrong<'_>>, NoMemory>
    requires { name_count (progress_of progress).names (progress_of progress).declared ≤ 65535 }
    ensures first { IfOk result (λ found. option_map (λ w. wrong_of w.item) found ≡ first_wrong (progress_of progress.entry)) }
    ensures symbols { IfOk result (λ found. IfSome found (λ w. w.symbols ≡ table_of (progress_of progress.entry) (wrong_of w.item))) }
{
    let mut laid = SecondPhase::of(progress);
    let wrong = laid.wrong_item();
    let symbols = laid.into_symbols();
    match wrong {
        Ok(Some(item)) => Ok(Some(FirstWrong { item, symbols })),
        Ok(None) => Ok(None),
        Err(error) => Err(error),
    }
}

/// The faults of those of some items that are refused, in their order.
fn faults_among<'a>(
    alloc: Global,
    symbols: &mut Symbols,
    sections: &mut Sections<'_>,
    items: &[PendingItem<'a>],
) -> Result<Vec<AsmFault<'a>>, NoMemory>
    ensures { IfOk result (λ faults. map fault_of faults.items ≡ item_faults symbols.old.entries sections.old (map item_of items.now)) }
{
    let mut sheet = OperandValues::new(alloc);
    let mut faults = Vec::new(alloc);
    for item in items {
        match emit(alloc, symbols, sections, &mut sheet, item) {
            Ok(()) => {}
            Err(Failure::NoMemory(error)) => return Err(error),
            Err(Failure::Fault(kind)) => faults.push(line_fault(item.origin, kind))?,
        }
    }
    Ok(faults)
}

impl<'a> SecondPhase<'a> {
    /// The faults of the items that are refused when all names are known.
    fn item_faults(&mut self) -> Result<Vec<AsmFault<'a>>, NoMemory>
        requires { name_count self.old.symbols.entries self.old.declared ≤ 65535 }
        ensures { IfOk result (λ faults. map fault_of faults.items ≡ item_faults (names_with self.old.symbols.entries self.old.declared) self.old.sections (map item_of self.old.items.items)) }
    {
        import_all(&mut self.symbols, &self.declared)?;
        faults_among(
            self.alloc,
            &mut self.symbols,
            &mut self.sections,
            self.items.as_slice(),
        )
    }
}

/// The faults of all items of the lines that the second phase refuses, in the order of lines.
pub fn operand_faults(progress: Progress<'_>) -> Result<Vec<AsmFault<'_>>, NoMemory>
    requires { name_count (progress_of progress).names (progress_of progress).declared ≤ 65535 }
    ensures { IfOk result (λ faults. map fault_of faults.items ≡ operand_faults (progress_of progress.entry)) }
{
    let mut laid = SecondPhase::of(progress);
    let faults = laid.item_faults();
    // Only the answer is kept of what the lines have made.
    mem::drop(laid);
    faults
}

impl Progress<'_> {
    /// How many items the lines so far have left for the second phase.
    pub fn item_count(&self) -> usize
        ensures { result ≡ length (progress_of self.now).items }
    {
        self.items.len()
    }
}
