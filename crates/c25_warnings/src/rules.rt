//! The warnings of each line of a source, by what is known of the whole source.

ghost use Rattle.std.specs.Prelude.{◌≡◌, OnOk, option_map};
ghost use Rattle.c25_expr.specs.Pieces.{operands_view};
ghost use Rattle.c25_line_warnings.specs.Reach.{nothing};
ghost use Rattle.c25_line_warnings.specs.Said.{operands_in, spelling_in};
ghost use Rattle.c25_uses.specs.Uses.{defined_in};
ghost use Rattle.c25_uses.specs.View.{defined_of};
ghost use Rattle.c25_line_warnings.specs.View.{line_of, lines_of, pair_of};
ghost use Rattle.c25_warnings.specs.View.{known_view};
ghost use Rattle.c25_warnings.specs.Warnings as meaning;

use crate::data::data_name;
use crate::reports::Reports;
use c25_expr::operands::operands_of;
use c25_line_warnings::labels::{directive_label, mnemonic_label};
use c25_line_warnings::memories::{Memories, misplaced_name};
use c25_line_warnings::reach::{
    Before, NOTHING, VECTORS, after, is_not_reached, is_wrongly_repeated,
};
use c25_line_warnings::said::{spelling_of, tokens_in};
use c25_line_warnings::shifts::register_shift;
use c25_line_warnings::source_line::SourceLine;
use c25_line_warnings::warning_kind::WarningKind;
use c25_meaning_common::no_memory::NoMemory;
use c25_meaning_instructions::mnemonic::Spelling;
use c25_module::Parts;
use c25_text::line::first_word;
use c25_text::tokens::Token;
use c25_uses::used_names::UsedNames;
use c25_uses::uses::{Defined, defined_in};
use std::alloc::Global;

/// What is known of the whole source when its lines are looked at.
#[derive(Clone, Copy)]
pub(crate) struct Known<'b, 'r, 'u> {
    /// The name of the source.
    pub(crate) name: &'b str,
    pub(crate) parts: &'b Parts,
    pub(crate) memories: Memories<'b>,
    pub(crate) used: &'r UsedNames<'u>,
    /// Whether an instruction writes the word after the one that it names.
    pub(crate) moves: bool,
}

/// Adds the warning of an operand that is an address, if there is one.
fn add_address<'a>(
    reports: &mut Reports<'a>,
    line: &SourceLine<'a>,
    warning: Option<(WarningKind, &str)>,
) -> Result<(), NoMemory>
    ensures { OnOk result (reports.new ≡ meaning.each_once reports.old (meaning.of_pair (line_of line.now) (option_map pair_of warning.entry))) }
{
    match warning {
        Some((kind, name)) => reports.add(kind, line, name),
        None => Ok(()),
    }
}

/// Adds the warnings of operands that are addresses.
#[tactic(auto, using(crate::proofs::Once::one_after_other))]
fn add_addresses<'a>(
    reports: &mut Reports<'a>,
    known: Known<'_, '_, '_>,
    line: &SourceLine<'a>,
    spelling: Spelling,
    operands: &[&[Token<'_>]],
) -> Result<(), NoMemory>
    ensures { OnOk result (reports.new ≡ meaning.each_once reports.old (meaning.of_addresses (known_view known.entry) (line_of line.now) spelling 0 (operands_view operands.now))) }
{
    for number in 0..operands.len() {
        let warning = misplaced_name(known.memories, spelling, number, operands[number]);
        add_address(reports, line, warning)?;
    }
    Ok(())
}

/// Adds a warning of a name, if there is one.
fn add_named<'a>(
    reports: &mut Reports<'a>,
    line: &SourceLine<'a>,
    kind: WarningKind,
    name: Option<&str>,
) -> Result<(), NoMemory>
    ensures { OnOk result (reports.new ≡ meaning.each_once reports.old (meaning.if_named (line_of line.now) kind (option_map (λ t. t.now) name.entry))) }
{
    match name {
        Some(name) => reports.add(kind, line, name),
        None => Ok(()),
    }
}

/// Adds the warnings of an instruction's operands.
#[tactic(auto, using(crate::proofs::Once::one_after_other), unfolding(crate::specs::Warnings::of_operands))]
fn add_operands<'a>(
    alloc: Global,
    reports: &mut Reports<'a>,
    known: Known<'_, '_, '_>,
    line: &SourceLine<'a>,
    spelling: Spelling,
) -> Result<(), NoMemory>
    ensures { OnOk result (reports.new ≡ meaning.each_once reports.old (meaning.of_operands (known_view known.entry) (line_of line.now) spelling (operands_in (line_of line.now).text))) }
{
    let tokens = tokens_in(alloc, line.text.as_str())?;
    let operands = operands_of(alloc, tokens.as_slice())?;
    let register = register_shift(spelling, operands.as_slice());
    add_named(reports, line, WarningKind::RegisterShift, register)?;
    add_addresses(reports, known, line, spelling, operands.as_slice())
}

/// Adds a warning that names the mnemonic of a line, if there is one.
#[tactic(auto, unfolding(crate::specs::Warnings::of_mnemonic))]
fn add_mnemonic<'a>(
    reports: &mut Reports<'a>,
    line: &SourceLine<'a>,
    kind: WarningKind,
    is_warned: bool,
) -> Result<(), NoMemory>
    ensures { OnOk result (reports.new ≡ meaning.each_once reports.old (meaning.of_mnemonic (line_of line.now) kind is_warned)) }
{
    if !is_warned {
        return Ok(());
    }
    let word = first_word(line.text.as_str()).unwrap_or("");
    reports.add(kind, line, word)
}

/// Adds the warnings of what comes before an instruction.
#[tactic(auto, using(crate::proofs::Once::one_after_other), unfolding(crate::specs::Warnings::of_order))]
fn add_order<'a>(
    reports: &mut Reports<'a>,
    known: Known<'_, '_, '_>,
    before: Before,
    line: &SourceLine<'a>,
    spelling: Spelling,
) -> Result<(), NoMemory>
    ensures { OnOk result (reports.new ≡ meaning.each_once reports.old (meaning.of_order (known_view known.entry) before (line_of line.now) spelling)) }
{
    let is_repeated = is_wrongly_repeated(before, line, spelling);
    let is_lost = is_not_reached(known.parts, before, line, spelling);
    add_mnemonic(reports, line, WarningKind::NotRepeatable, is_repeated)?;
    add_mnemonic(reports, line, WarningKind::NotReached, is_lost)
}

/// Adds the warnings of a line's instruction, if it has one.
#[tactic(auto, using(crate::proofs::Once::one_after_other), unfolding(crate::specs::Warnings::of_instruction))]
fn add_instruction<'a>(
    alloc: Global,
    reports: &mut Reports<'a>,
    known: Known<'_, '_, '_>,
    before: Before,
    line: &SourceLine<'a>,
) -> Result<(), NoMemory>
    ensures { OnOk result (reports.new ≡ meaning.each_once reports.old (meaning.of_spelling (known_view known.entry) before (line_of line.now) (spelling_in (line_of line.now).text))) }
{
    match spelling_of(line.text.as_str()) {
        Some(spelling) => {
            add_order(reports, known, before, line, spelling)?;
            add_operands(alloc, reports, known, line, spelling)
        }
        None => Ok(()),
    }
}

/// Adds a warning of a symbol, if it is never used.
fn add_unused<'a>(
    reports: &mut Reports<'a>,
    known: Known<'_, '_, '_>,
    line: &SourceLine<'a>,
    kind: WarningKind,
    name: Option<&str>,
) -> Result<(), NoMemory>
    ensures { OnOk result (reports.new ≡ meaning.each_once reports.old (meaning.if_unused (known_view known.entry) (line_of line.now) kind (option_map (λ t. t.now) name.entry))) }
{
    match name {
        Some(name) => {
            if known.used.has(name) {
                Ok(())
            } else {
                reports.add(kind, line, name)
            }
        }
        None => Ok(()),
    }
}

/// The label of a line with an instruction to which branches alone lead. The processor itself may begin with
/// one of the first words of a section.
#[tactic(auto, unfolding(crate::specs::Warnings::branch_label))]
fn branch_label<'b>(line: &SourceLine<'_>, label: Option<&'b str>) -> Option<&'b str>
    ensures { option_map (λ t. t.now) result ≡ meaning.branch_label (line_of line.now) (option_map (λ t. t.now) label.entry) }
{
    if line.offset < VECTORS || spelling_of(line.text.as_str()).is_none() {
        return None;
    }
    label
}

/// The name of the words of data that a line reserves or makes, which nothing reaches by another name.
fn words_name<'b>(
    known: Known<'_, '_, '_>,
    line: &SourceLine<'_>,
    defined: Defined<'b>,
) -> Option<&'b str>
    ensures { option_map (λ t. t.now) result ≡ meaning.words_name (known_view known.entry) (line_of line.now) (defined_of defined.entry) }
{
    if known.moves {
        return None;
    }
    data_name(known.parts, known.memories.symbols, line, defined)
}

/// Adds the warnings of the labels and the words of a line that nothing uses.
#[tactic(auto, using(crate::proofs::Once::one_after_other))]
fn add_places<'a>(
    reports: &mut Reports<'a>,
    known: Known<'_, '_, '_>,
    line: &SourceLine<'a>,
    defined: Defined<'_>,
) -> Result<(), NoMemory>
    ensures { OnOk result (reports.new ≡ meaning.each_once reports.old (meaning.of_places (known_view known.entry) (line_of line.now) (defined_of defined.entry))) }
{
    let label = branch_label(line, defined.label);
    add_unused(reports, known, line, WarningKind::Unused, label)?;
    let words = words_name(known, line, defined);
    add_unused(reports, known, line, WarningKind::Unused, words)
}

/// Adds the warnings of the symbols that a line defines and nothing uses.
#[tactic(auto, using(crate::proofs::Once::one_after_other))]
fn add_defined<'a>(
    alloc: Global,
    reports: &mut Reports<'a>,
    known: Known<'_, '_, '_>,
    line: &SourceLine<'a>,
) -> Result<(), NoMemory>
    ensures { OnOk result (reports.new ≡ meaning.each_once reports.old (meaning.of_defined (known_view known.entry) (line_of line.now) (defined_in (line_of line.now).text))) }
{
    match defined_in(alloc, line.text.as_str())? {
        Some(defined) => {
            add_unused(reports, known, line, WarningKind::Unused, defined.value)?;
            add_places(reports, known, line, defined)
        }
        None => Ok(()),
    }
}

/// Adds the warnings of the symbols that a line defines and nothing uses. Those of a copied file may be there for other
/// sources.
#[tactic(auto, unfolding(crate::specs::Warnings::of_definitions))]
fn add_definitions<'a>(
    alloc: Global,
    reports: &mut Reports<'a>,
    known: Known<'_, '_, '_>,
    line: &SourceLine<'a>,
) -> Result<(), NoMemory>
    ensures { OnOk result (reports.new ≡ meaning.each_once reports.old (meaning.of_definitions (known_view known.entry) (line_of line.now))) }
{
    if line.file == known.name {
        add_defined(alloc, reports, known, line)
    } else {
        Ok(())
    }
}

/// Adds the warnings of a label that was most likely meant as an instruction or, where no line uses it, as a directive.
#[tactic(auto, using(crate::proofs::Once::one_after_other), unfolding(crate::specs::Warnings::of_label))]
fn add_label<'a>(
    reports: &mut Reports<'a>,
    known: Known<'_, '_, '_>,
    line: &SourceLine<'a>,
) -> Result<(), NoMemory>
    ensures { OnOk result (reports.new ≡ meaning.each_once reports.old (meaning.of_label (known_view known.entry) (line_of line.now))) }
{
    let text = line.text.as_str();
    add_named(
        reports,
        line,
        WarningKind::MnemonicLabel,
        mnemonic_label(text),
    )?;
    add_unused(
        reports,
        known,
        line,
        WarningKind::DirectiveLabel,
        directive_label(text),
    )
}

/// Adds the warnings of a line's symbols.
#[tactic(auto, using(crate::proofs::Once::one_after_other), unfolding(crate::specs::Warnings::of_symbols))]
fn add_symbols<'a>(
    alloc: Global,
    reports: &mut Reports<'a>,
    known: Known<'_, '_, '_>,
    line: &SourceLine<'a>,
) -> Result<(), NoMemory>
    ensures { OnOk result (reports.new ≡ meaning.each_once reports.old (meaning.of_symbols (known_view known.entry) (line_of line.now))) }
{
    add_label(reports, known, line)?;
    add_definitions(alloc, reports, known, line)
}

/// Adds the warnings of a line.
#[tactic(auto, using(crate::proofs::Once::one_after_other), unfolding(crate::specs::Warnings::of_line))]
fn add_line<'a>(
    alloc: Global,
    reports: &mut Reports<'a>,
    known: Known<'_, '_, '_>,
    before: Before,
    line: &SourceLine<'a>,
) -> Result<(), NoMemory>
    ensures { OnOk result (reports.new ≡ meaning.each_once reports.old (meaning.of_line (known_view known.entry) before (line_of line.now))) }
{
    add_symbols(alloc, reports, known, line)?;
    add_instruction(alloc, reports, known, before, line)
}

/// Adds the warnings of all lines of a source.
#[tactic(auto, using(crate::proofs::Once::one_after_other))]
pub(crate) fn add_lines<'a>(
    alloc: Global,
    reports: &mut Reports<'a>,
    known: Known<'_, '_, '_>,
    lines: &[SourceLine<'a>],
) -> Result<(), NoMemory>
    ensures { OnOk result (reports.new ≡ meaning.each_once reports.old (meaning.of_lines (known_view known.entry) nothing (lines_of lines.now))) }
{
    let mut before = NOTHING;
    for line in lines {
        add_line(alloc, reports, known, before, line)?;
        before = after(before, line, spelling_of(line.text.as_str()));
    }
    Ok(())
}
