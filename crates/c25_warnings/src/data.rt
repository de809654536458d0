//! Words of data that nothing in their module reaches.

ghost use Rattle.std.specs.Prelude.{◌≡◌, None, option_map, slice_get};
ghost use Rattle.std.specs.List.{list_any};
ghost use Rattle.c25_line_warnings.specs.View.{line_of, lines_of};
ghost use Rattle.c25_meaning_objects.specs.Module.{body_size};
ghost use Rattle.c25_module.specs.View.{body_data, contents, symbol_data, symbols_data};
ghost use Rattle.c25_uses.specs.View.{defined_of};
ghost use Rattle.c25_warnings.specs.Data as meaning;

use c25_expr::Symbols;
use c25_line_warnings::said::spelling_of;
use c25_line_warnings::source_line::SourceLine;
use c25_meaning_common::relocation::RelocationKind;
use c25_meaning_instructions::mnemonic::{LongMemName, MemName, Mnemonic, Spelling};
use c25_meaning_language::value::{Base, Value};
use c25_meaning_objects::object::{
    Block, ModuleMark, Relocation, RelocationBase, Scope, SymbolKind,
};
use c25_module::{Body, Parts, Symbol};
use c25_uses::uses::Defined;

/// How many words a data page has.
const PAGE: usize = 128;

/// Whether a symbol of this kind is one of a section.
fn lies_in(kind: SymbolKind, section: u16) -> bool
    ensures { result ≡ meaning.lies_in kind section }
{
    match kind {
        SymbolKind::InSection(number) | SymbolKind::Loaded(number) => number == section,
        SymbolKind::Absolute | SymbolKind::External => false,
    }
}

fn is_global(scope: Scope) -> bool
    ensures { result ≡ meaning.is_global scope }
{
    match scope {
        Scope::Global => true,
        Scope::Local => false,
    }
}

/// Whether other modules see one of these symbols that is one of a section.
fn any_seen(symbols: &[Symbol], section: u16) -> bool
    ensures { result ≡ list_any (meaning.is_seen section) (symbols_data symbols.now) }
{
    for symbol in symbols {
        if lies_in(symbol.kind, section) && is_global(symbol.scope) {
            return true;
        }
    }
    false
}

/// Whether a place comes before another one, or there is no other.
fn is_before(place: i32, next: Option<i32>) -> bool
    ensures { result ≡ meaning.is_before place next }
{
    match next {
        Some(next) => place < next,
        None => true,
    }
}

/// The nearest place after `place`, of the one so far and that of a symbol of the section.
fn nearer(section: u16, place: i32, next: Option<i32>, symbol: &Symbol) -> Option<i32>
    ensures { result ≡ meaning.nearer section place next (symbol_data symbol.now) }
{
    if lies_in(symbol.kind, section) && (place < symbol.value && is_before(symbol.value, next)) {
        Some(symbol.value)
    } else {
        next
    }
}

/// The place of the next symbol of the section after `place`.
#[tactic(auto, unfolding(crate::specs::Data::next_place))]
fn next_place(section: u16, place: i32, symbols: &[Symbol]) -> Option<i32>
    ensures { result ≡ meaning.next_place section place None (symbols_data symbols.now) }
{
    let mut next = None;
    for symbol in symbols {
        next = nearer(section, place, next, symbol);
    }
    next
}

/// Whether a section is `.bss`.
fn is_bss(parts: &Parts, section: u16) -> bool
    ensures { result ≡ meaning.is_bss (slice_get (contents parts.now).sections section) }
{
    match parts.sections.get(usize::from(section)) {
        Some(found) => found.name.as_str() == ".bss",
        None => false,
    }
}

/// Where the words at a place of a section end: in `.bss` at the next symbol. In other sections the words after them
/// count as theirs.
#[tactic(auto, unfolding(crate::specs::Data::words_end))]
fn words_end(parts: &Parts, section: u16, place: i32) -> Option<i32>
    ensures { result ≡ meaning.words_end (contents parts.now) section place }
{
    if is_bss(parts, section) {
        next_place(section, place, parts.symbols.as_slice())
    } else {
        None
    }
}

/// How many words a section has or reserves.
fn size_of(body: &Body) -> usize
    ensures { result ≡ body_size (body_data body.now) }
{
    match body {
        Body::Uninitialised(size) => *size as usize,
        Body::Initialised(words) => words.len(),
    }
}

/// Where a section ends.
fn section_end(parts: &Parts, section: u16) -> usize
    ensures { result ≡ meaning.section_end (slice_get (contents parts.now).sections section) }
{
    match parts.sections.get(usize::from(section)) {
        Some(found) => size_of(&found.body),
        None => 0,
    }
}

/// Where the words from a place of a section end: at the next symbol, or with the section.
#[tactic(auto, unfolding(crate::specs::Data::stretch_end))]
fn stretch_end(parts: &Parts, section: u16, place: i32) -> usize
    ensures { result ≡ meaning.stretch_end (contents parts.now) section place }
{
    match next_place(section, place, parts.symbols.as_slice()) {
        Some(next) => next.unsigned_abs() as usize,
        None => section_end(parts, section),
    }
}

/// Whether words from one place of a section to another one are the rest of a data page, counted from the start of the
/// section.
fn are_rest_of_page(place: usize, end: usize) -> bool
    ensures { result ≡ meaning.are_rest_of_page place end }
{
    place % PAGE != 0 && (end % PAGE == 0 && end / PAGE == place / PAGE + 1)
}

/// Whether the words from a place of a section are the rest of a data page, so that the ones after them begin a page.
#[tactic(auto, unfolding(crate::specs::Data::pads_page))]
fn pads_page(parts: &Parts, section: u16, place: i32) -> bool
    ensures { result ≡ meaning.pads_page (contents parts.now) section place }
{
    0 <= place
        && are_rest_of_page(
            place.unsigned_abs() as usize,
            stretch_end(parts, section, place),
        )
}

/// Whether an operand counts from a section.
fn counts_from(base: RelocationBase, section: u16) -> bool
    ensures { result ≡ meaning.counts_from base section }
{
    match base {
        RelocationBase::Section(number) | RelocationBase::Loaded(number) => number == section,
        RelocationBase::External(_) => false,
    }
}

/// Whether an operand is a whole address, from which other words may be reached.
fn is_address(kind: RelocationKind) -> bool
    ensures { result ≡ meaning.is_address kind }
{
    match kind {
        RelocationKind::Word16 => true,
        RelocationKind::Low7 | RelocationKind::Page9 => false,
    }
}

/// Whether an operand reaches the words from a place of a section up to their end.
fn reaches(section: u16, place: i32, end: Option<i32>, relocation: &Relocation) -> bool
    ensures { result ≡ meaning.reaches section place end relocation.now }
{
    counts_from(relocation.base, section)
        && (is_address(relocation.kind)
            || (place <= relocation.addend && is_before(relocation.addend, end)))
}

/// Whether one of these operands does.
fn any_reaches(section: u16, place: i32, end: Option<i32>, relocations: &[Relocation]) -> bool
    ensures { result ≡ list_any (meaning.reaches section place end) relocations.now }
{
    for relocation in relocations {
        if reaches(section, place, end, relocation) {
            return true;
        }
    }
    false
}

/// Whether one of these blocks, each of which lies in one data page, comes after a place of a section.
fn any_fills(section: u16, place: i32, blocks: &[Block]) -> bool
    ensures { result ≡ list_any (meaning.fills section place) blocks.now }
{
    for block in blocks {
        if block.section == section && place < i32::from(block.offset) {
            return true;
        }
    }
    false
}

/// Whether one of these instructions stands in a section.
fn any_instruction(section: u16, marks: &[ModuleMark]) -> bool
    ensures { result ≡ list_any (meaning.is_instruction_in section) marks.now }
{
    for mark in marks {
        if mark.section == section {
            return true;
        }
    }
    false
}

/// Whether the words at a place of a section serve, though nothing names them: they may be reached, or be there for
/// the place of other words.
#[tactic(auto, unfolding(crate::specs::Data::is_reached))]
fn is_reached(parts: &Parts, section: u16, place: i32) -> bool
    ensures { result ≡ meaning.is_reached (contents parts.now) section place }
{
    let end = words_end(parts, section, place);
    any_seen(parts.symbols.as_slice(), section)
        || (any_instruction(section, parts.marks.as_slice())
            || (any_fills(section, place, parts.blocks.as_slice())
                || (pads_page(parts, section, place)
                    || any_reaches(section, place, end, parts.relocations.as_slice()))))
}

/// Whether the same holds of a value; of one that is no place of a section it does.
fn may_reach(parts: &Parts, value: Value) -> bool
    ensures { result ≡ meaning.may_reach (contents parts.now) value.base value.offset }
{
    match value.base {
        Base::Section(section) => is_reached(parts, section, value.offset),
        _ => true,
    }
}

/// Whether an instruction writes the word after the one that it names.
fn writes_next(spelling: Spelling) -> bool
    ensures { result ≡ meaning.writes_next spelling }
{
    match spelling {
        Spelling::Row(Mnemonic::Mem(MemName::Dmov | MemName::Ltd)) => true,
        Spelling::Row(Mnemonic::LongMem(LongMemName::Macd)) => true,
        _ => false,
    }
}

/// The same of a line's instruction, if it has one.
fn writes_next_if(spelling: Option<Spelling>) -> bool
    ensures { result ≡ meaning.writes_next_if spelling }
{
    match spelling {
        Some(spelling) => writes_next(spelling),
        None => false,
    }
}

/// Whether one of these lines has such an instruction, which reaches a word by the name of the word before.
pub(crate) fn any_moves(lines: &[SourceLine<'_>]) -> bool
    ensures { result ≡ meaning.any_moves (lines_of lines.now) }
{
    for line in lines {
        if writes_next_if(spelling_of(line.text.as_str())) {
            return true;
        }
    }
    false
}

/// The label of a line that makes words of data.
#[tactic(auto, unfolding(crate::specs::Data::data_label))]
fn data_label<'b>(line: &SourceLine<'_>, label: Option<&'b str>) -> Option<&'b str>
    ensures { option_map (λ t. t.now) result ≡ meaning.data_label (line_of line.now) (option_map (λ t. t.now) label.entry) }
{
    if line.count == 0 || spelling_of(line.text.as_str()).is_some() {
        None
    } else {
        label
    }
}

/// This name, if it is that of words which nothing reaches.
fn unreached<'b>(parts: &Parts, symbols: &Symbols, name: &'b str) -> Option<&'b str>
    ensures { option_map (λ t. t.now) result ≡ meaning.unreached_by (contents parts.now) name.now (meaning.value_among symbols.now.entries name.now) }
{
    match symbols.get(name) {
        Some(value) => {
            if may_reach(parts, value) {
                None
            } else {
                Some(name)
            }
        }
        None => None,
    }
}

/// The name of a line's words, which are reserved or data, if nothing reaches them but by the name.
pub(crate) fn data_name<'b>(
    parts: &Parts,
    symbols: &Symbols,
    line: &SourceLine<'_>,
    defined: Defined<'b>,
) -> Option<&'b str>
    ensures { option_map (λ t. t.now) result ≡ meaning.data_name (contents parts.now) symbols.now.entries (line_of line.now) (defined_of defined.entry) }
{
    match defined.place {
        Some(place) => unreached(parts, symbols, place),
        None => match data_label(line, defined.label) {
            Some(label) => unreached(parts, symbols, label),
            None => None,
        },
    }
}
