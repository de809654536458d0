//! What is known where a warning is, in words: remarks, of which nothing is claimed.

use crate::operands::PageOperand;
use crate::subject::Subject;
use crate::verdicts::{OperandFault, OperandReport, is_elsewhere, saves_status_at};
use c25_isa::{show, size_of};
use c25_map::OutputSection;
use c25_meaning_common::no_memory::NoMemory;
use c25_meaning_instructions::insn::Insn;
use c25_meaning_instructions::mnemonic::{MemName, ShortName};
use c25_pages::{Flow, PlainStatement, Refusal, Row, flow_of};
use c25_symbols::entries::SymbolEntry;
use c25_texts::appending::{push_four, push_text};
use std::alloc::Global;

/// Appends an address in four hexadecimal digits, with an `h` after them.
pub(crate) fn push_address(text: &mut String, address: u16) -> Result<(), NoMemory> {
    push_four(text, address)?;
    push_text(text, "h")
}

/// Whether a section of data memory has a word at an address.
fn has_word(section: &OutputSection, word: u32) -> bool {
    section.page == 1 && section.base <= word && word.saturating_sub(section.base) < section.size
}

/// Whether a symbol names the word at a data address, or one before it in the section that has both.
fn names_before(subject: Subject<'_>, symbol: &SymbolEntry<'_>, word: u16) -> bool {
    let word = u32::from(word);
    symbol.value <= word
        && subject.image.map().sections.iter().any(|section| section.name.as_str() == symbol.section
            && has_word(section, word))
}

/// The symbol of a section with a word that is nearest to the word, at it or before it.
fn nearest_symbol<'a>(subject: Subject<'a>, word: u16) -> Option<SymbolEntry<'a>> {
    let mut nearest: Option<SymbolEntry<'a>> = None;
    for symbol in subject.symbols {
        let least = match &nearest {
            Some(found) => found.value,
            None => 0,
        };
        if names_before(subject, symbol, word) && (nearest.is_none() || least < symbol.value) {
            nearest = Some(*symbol);
        }
    }
    nearest
}

/// Appends the name of a data word: that of a symbol, with the distance from it, or its address.
fn push_word(text: &mut String, subject: Subject<'_>, word: u16) -> Result<(), NoMemory> {
    let Some(symbol) = nearest_symbol(subject, word) else {
        return push_address(text, word);
    };
    push_text(text, symbol.name)?;
    let distance = u32::from(word).wrapping_sub(symbol.value);
    if distance != 0 {
        write!(text, "+{distance}")?;
    }
    Ok(())
}

/// Whether an instruction loads DP.
fn loads_page(insn: &Insn) -> bool {
    match insn {
        Insn::Short(ShortName::Ldpk, _, _) | Insn::Mem(MemName::Ldp | MemName::Lst, _) => true,
        _ => false,
    }
}

/// Whether the next statement in program memory may act after an instruction.
fn goes_on(insn: &Insn) -> bool {
    match flow_of(insn) {
        Flow::Goes(_) | Flow::Returns | Flow::GoesByAccumulator => false,
        _ => true,
    }
}

/// The statement that loads DP before the one at an address, on the straight way to it, if there is one.
fn page_loaded_before(subject: Subject<'_>, address: u16) -> Option<PlainStatement> {
    let mut loaded: Option<PlainStatement> = None;
    for statement in &subject.program.plain {
        if statement.address >= address {
            return loaded;
        }
        if loads_page(&statement.insn) {
            loaded = Some(*statement);
        } else if !goes_on(&statement.insn) {
            loaded = None;
        }
    }
    loaded
}

/// Appends where DP was set, if that is seen.
fn push_origin(
    text: &mut String,
    subject: Subject<'_>,
    operand: PageOperand,
    page: u16,
) -> Result<(), NoMemory> {
    let Some(statement) = page_loaded_before(subject, operand.run) else {
        return Ok(());
    };
    match statement.insn {
        Insn::Short(ShortName::Ldpk, _, number) if number.cast_unsigned() == page => {
            let (file, line) = subject.place_of(statement.address);
            write!(text, " (LDPK at {file}:{line})")?;
            Ok(())
        }
        _ => Ok(()),
    }
}

/// The page that DP is in a row where it is another one than that of an operand.
fn other_page(rows: &[Row], operand: PageOperand) -> Option<u16> {
    rows.iter()
        .find(|row| is_elsewhere(row, operand.run, operand.word / 128))?
        .known
        .page
}

/// Appends what DP is where it is another page than that of an operand.
fn push_wrong_page(
    text: &mut String,
    subject: Subject<'_>,
    operand: PageOperand,
) -> Result<(), NoMemory> {
    if saves_status_at(subject.program, operand.run) {
        return push_text(text, ", and this instruction writes to page 0");
    }
    let Some(page) = other_page(&subject.table.rows, operand) else {
        return Ok(());
    };
    write!(text, ", DP is {page}")?;
    push_origin(text, subject, operand, page)
}

/// What is known where something is wrong with a direct operand: `X is on page 6, DP is 4 (LDPK at a.asm:3)`.
pub(crate) fn operand_remark(
    alloc: Global,
    subject: Subject<'_>,
    report: OperandReport,
) -> Result<String, NoMemory> {
    let mut text = String::new(alloc);
    let page = report.operand.word / 128;
    push_word(&mut text, subject, report.operand.word)?;
    write!(&mut text, " is on page {page}")?;
    match report.fault {
        OperandFault::WrongPage => push_wrong_page(&mut text, subject, report.operand)?,
        OperandFault::PageUnsure => push_text(&mut text, ", DP is not known")?,
    }
    Ok(text)
}

/// Whether an instruction leads from a row to another row of its context at which another number of words was pushed.
fn meets_other_words(subject: Subject<'_>, row: Row, insn: Insn) -> bool {
    let statement = PlainStatement {
        address: row.address,
        insn,
    };
    subject.table.rows.iter().any(|other| {
        other.context == row.context
            && other.known.pushed != row.known.pushed
            && leads_to(&statement, other.address)
    })
}

/// Why a program is not followed on from an instruction that leaves the stack as it was.
fn unfollowed_on(subject: Subject<'_>, row: Row, insn: Insn) -> &'static str {
    if meets_other_words(subject, row, insn) {
        "leads to where another number of words was pushed"
    } else {
        "is not followed"
    }
}

/// Why a program is not followed through an instruction.
fn unfollowed(subject: Subject<'_>, row: Row, insn: Insn) -> &'static str {
    match flow_of(&insn) {
        Flow::Pushes | Flow::Calls(_) | Flow::CallsByAccumulator => {
            "may put a ninth word on the stack"
        }
        Flow::Takes if row.known.pushed == 0 => "may act where nothing was pushed or called",
        Flow::Returns if row.known.pushed != 0 => "goes to a word that was pushed",
        Flow::Returns => "may act where nothing was called",
        Flow::Takes => "is not followed",
        _ => unfollowed_on(subject, row, insn),
    }
}

/// Why a program is not followed: `RET goes to a word that was pushed`.
pub(crate) fn refusal_remark(
    alloc: Global,
    subject: Subject<'_>,
    refusal: Refusal,
) -> Result<String, NoMemory> {
    let mut text = String::new(alloc);
    match refusal {
        Refusal::Acts(row) => {
            if let Some(insn) = subject.program.statement_at(row.address) {
                push_text(&mut text, show(alloc, &insn)?.as_str())?;
                push_text(&mut text, " ")?;
                push_text(&mut text, unfollowed(subject, row, insn))?;
            }
        }
        Refusal::Repeats(_) => {
            push_text(
                &mut text,
                "a repeat here moves words of the stack, or its end is not known",
            )?;
        }
        Refusal::Interrupts(_) => {
            push_text(
                &mut text,
                "an interrupt here may put a ninth word on the stack",
            )?;
        }
        _ => push_text(&mut text, "what is known here was not found")?,
    }
    Ok(text)
}

/// The address of the statement that a refusal is about.
pub(crate) fn refused_at(refusal: Refusal) -> u16 {
    match refusal {
        Refusal::Acts(row)
        | Refusal::Repeats(row)
        | Refusal::Interrupts(row)
        | Refusal::Open(row) => row.address,
        Refusal::Unordered | Refusal::Reset => 0,
    }
}

/// Whether an instruction at an address leads to another one.
fn leads_to(statement: &PlainStatement, address: u16) -> bool {
    let next = statement
        .address
        .wrapping_add(size_of(statement.insn.mnemonic()));
    match flow_of(&statement.insn) {
        Flow::Goes(target) => target == address,
        Flow::Branches(target) | Flow::Calls(target) => target == address || next == address,
        Flow::On | Flow::CallsByAccumulator | Flow::Pushes | Flow::Takes => next == address,
        _ => false,
    }
}

/// The address of a statement that leads to an address where none stands; that address, if no such statement is seen.
pub(crate) fn way_to(subject: Subject<'_>, address: u16) -> u16 {
    if subject.program.statement_at(address).is_some() {
        return address;
    }
    match subject
        .program
        .plain
        .iter()
        .find(|statement| leads_to(statement, address))
    {
        Some(statement) => statement.address,
        None => address,
    }
}

/// Where the code may be left, or a repeat may stop.
pub(crate) fn open_remark(
    alloc: Global,
    subject: Subject<'_>,
    address: u16,
) -> Result<String, NoMemory> {
    let mut text = String::new(alloc);
    if subject.program.statement_at(address).is_some() {
        push_text(
            &mut text,
            "a repeat may be running here, or block B0 begins here",
        )?;
    } else {
        push_text(&mut text, "leads to ")?;
        push_address(&mut text, address)?;
        push_text(&mut text, ", where no instruction stands")?;
    }
    Ok(text)
}
