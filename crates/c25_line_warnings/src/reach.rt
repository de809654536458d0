//! What stands before a line, and what follows from it: instructions that may not be repeated, and
//! instructions that nothing leads to.

ghost use Rattle.std.specs.Prelude.{◌≡◌};
ghost use Rattle.c25_module.specs.View.{contents, symbol_data};
ghost use Rattle.std.specs.List.{list_any};
ghost use Rattle.c25_line_warnings.specs.Reach as meaning;
ghost use Rattle.c25_line_warnings.specs.View.{line_of};

use crate::marks::{is_branch, is_last, is_repeat, is_unrepeatable};
use crate::source_line::SourceLine;
use c25_meaning_instructions::mnemonic::Spelling;
use c25_meaning_objects::object::{Relocation, RelocationBase, SymbolKind};
use c25_module::{Parts, Symbol};

/// How many words at the start of a section may be interrupt vectors, to which no branch needs to lead.
pub const VECTORS: u32 = 32;

/// The words before a line.
#[derive(Clone, Copy)]
pub struct Before {
    section: u16,
    /// The offset after these words.
    end: u64,
    /// Whether their last instruction repeats the next one.
    repeats: bool,
    /// Whether they end with an instruction that does not run into the next one, or with data after it.
    is_last: bool,
}

/// Before the first line.
pub const NOTHING: Before = Before {
    section: 0,
    end: 0,
    repeats: false,
    is_last: false,
};

/// Whether the words of a line come directly after these.
fn is_next(before: Before, line: &SourceLine<'_>) -> bool
    ensures { result ≡ meaning.is_next before (line_of line.now) }
{
    before.section == line.section && before.end == u64::from(line.offset)
}

/// Whether the words up to the end of a line do not run into the next ones: after an instruction that ends with
/// a branch, and after data that follow one.
fn ends_run(before: Before, line: &SourceLine<'_>, spelling: Option<Spelling>) -> bool
    ensures { result ≡ meaning.last_by before (line_of line.now) spelling }
{
    match spelling {
        Some(spelling) => is_last(spelling),
        None => is_next(before, line) && before.is_last,
    }
}

/// Whether a line's instruction repeats the next one.
fn repeats_next(spelling: Option<Spelling>) -> bool
    ensures { result ≡ meaning.repeats_by spelling }
{
    match spelling {
        Some(spelling) => is_repeat(spelling),
        None => false,
    }
}

/// The words before the next line, after a line that spells an instruction, or has data, or has no words.
#[tactic(auto, unfolding(crate::specs::Reach::after))]
pub fn after(before: Before, line: &SourceLine<'_>, spelling: Option<Spelling>) -> Before
    ensures { result ≡ meaning.after before (line_of line.now) spelling }
{
    if line.count == 0 {
        return before;
    }
    Before {
        section: line.section,
        end: u64::from(line.offset) + u64::from(line.count),
        repeats: repeats_next(spelling),
        is_last: ends_run(before, line, spelling),
    }
}

/// Whether a line's instruction is repeated and may not be.
#[tactic(auto, unfolding(crate::specs::Reach::is_wrongly_repeated))]
pub fn is_wrongly_repeated(before: Before, line: &SourceLine<'_>, spelling: Spelling) -> bool
    ensures { result ≡ meaning.is_wrongly_repeated before (line_of line.now) spelling }
{
    is_next(before, line) && before.repeats && is_unrepeatable(spelling)
}

/// Whether a symbol is the address of a word of a section.
fn names_word(symbol: &Symbol, section: u16, offset: u32) -> bool
    ensures { result ≡ meaning.names_word section offset (symbol_data symbol.now) }
{
    match symbol.kind {
        SymbolKind::InSection(number) | SymbolKind::Loaded(number) => {
            number == section && i64::from(symbol.value) == i64::from(offset)
        }
        SymbolKind::Absolute | SymbolKind::External => false,
    }
}

/// Whether an operand is the address of a word of a section, as `$+4` may be.
fn leads_to_word(relocation: &Relocation, section: u16, offset: u32) -> bool
    ensures { result ≡ meaning.leads_to_word section offset relocation.now }
{
    match relocation.base {
        RelocationBase::Section(number) | RelocationBase::Loaded(number) => {
            number == section && i64::from(relocation.addend) == i64::from(offset)
        }
        RelocationBase::External(_) => false,
    }
}

/// Whether one of these symbols is the address of a word of a section.
fn any_symbol(symbols: &[Symbol], section: u16, offset: u32) -> bool
    ensures { result ≡ list_any (λ y. meaning.names_word section offset (symbol_data y)) symbols.now }
{
    symbols
        .iter()
        .any(|symbol| names_word(symbol, section, offset))
}

/// Whether one of these operands is the address of a word of a section.
fn any_operand(relocations: &[Relocation], section: u16, offset: u32) -> bool
    ensures { result ≡ list_any (meaning.leads_to_word section offset) relocations.now }
{
    relocations
        .iter()
        .any(|relocation| leads_to_word(relocation, section, offset))
}

/// Whether a symbol or an operand of the module is the address of a word of a section.
#[tactic(auto, using(crate::proofs::Lists::any_mapped), unfolding(crate::specs::Reach::is_named))]
fn is_named(parts: &Parts, section: u16, offset: u32) -> bool
    ensures { result ≡ meaning.is_named (contents parts.now) section offset }
{
    any_symbol(parts.symbols.as_slice(), section, offset)
        || any_operand(parts.relocations.as_slice(), section, offset)
}

/// Whether nothing leads to a line's instruction: the words before it do not run into it, and no symbol and no
/// operand is its address. A `B` may be one of a table of branches, and an instruction among the first 32
/// words of its section an interrupt vector.
#[tactic(auto, unfolding(crate::specs::Reach::is_not_reached))]
pub fn is_not_reached(
    parts: &Parts,
    before: Before,
    line: &SourceLine<'_>,
    spelling: Spelling,
) -> bool
    ensures { result ≡ meaning.is_not_reached (contents parts.now) before (line_of line.now) spelling }
{
    is_next(before, line)
        && before.is_last
        && !is_branch(spelling)
        && line.offset >= VECTORS
        && !is_named(parts, line.section, line.offset)
}
