//! What was supposed of a program, and what was found of it on the whole, in words.

use crate::remarks::push_address;
use crate::subject::Subject;
use crate::supposed::goes_by_accumulator;
use c25_meaning_common::no_memory::NoMemory;
use c25_pages::PlainStatement;
use c25_texts::appending::push_text;
use std::alloc::Global;
use std::collections::BTreeMap;

/// The numbers of the summary.
#[derive(Clone, Copy)]
pub(crate) struct Counts {
    /// How many direct operands name a word.
    pub(crate) operands: usize,
    /// How many of them are not sure.
    pub(crate) unsure: usize,
    /// Whether no run leaves the code.
    pub(crate) closed: bool,
}

/// Which interrupt lines these bits are.
fn lines_named(lines: u16) -> &'static str {
    match lines & 7 {
        0 => "no interrupt",
        1 => "no interrupt but INT0",
        2 => "no interrupt but INT1",
        3 => "no interrupt but INT0 and INT1",
        4 => "no interrupt but INT2",
        5 => "no interrupt but INT0 and INT2",
        6 => "no interrupt but INT1 and INT2",
        _ => "all interrupts",
    }
}

/// Appends which interrupts IMR is supposed to let through. That it lets all of them through is no supposition.
fn push_lines(text: &mut String, lines: u16) -> Result<(), NoMemory> {
    if lines & 7 == 7 {
        return Ok(());
    }
    push_text(text, "supposed: IMR lets through ")?;
    push_text(text, lines_named(lines))?;
    push_text(text, "\n")
}

/// Appends the words that statements are supposed not to write.
fn push_spared(text: &mut String, subject: Subject<'_>) -> Result<(), NoMemory> {
    for spared in &subject.table.spared {
        let (file, line) = subject.place_of(spared.address);
        write!(text, "supposed: {file}:{line} does not write ")?;
        push_address(text, spared.word)?;
        push_text(text, ", where ST0 is saved\n")?;
    }
    Ok(())
}

/// Appends where BACC and CALA are supposed to go.
fn push_landings(text: &mut String, subject: Subject<'_>) -> Result<(), NoMemory> {
    let count = subject.table.landings.len();
    for statement in &subject.program.plain {
        if goes_by_accumulator(&statement.insn) {
            let (file, line) = subject.place_of(statement.address);
            write!(
                text,
                "supposed: {file}:{line} goes to one of {count} addresses that the program names\n"
            )?;
        }
    }
    Ok(())
}

/// The addresses that rows of a table are of, but for those where the processor surely is asleep.
fn reached_addresses(alloc: Global, subject: Subject<'_>) -> Result<BTreeMap<u16, bool>, NoMemory> {
    let mut reached = BTreeMap::new(alloc);
    for row in &subject.table.rows {
        if !row.known.asleep {
            reached.insert(row.address, true)?;
        }
    }
    Ok(reached)
}

/// Appends the statements that are never reached, and answers how many there are.
fn push_unreached(
    text: &mut String,
    subject: Subject<'_>,
    reached: &BTreeMap<u16, bool>,
) -> Result<usize, NoMemory> {
    let mut count: usize = 0;
    for statement in &subject.program.plain {
        if reached.get(&statement.address).is_none() {
            count = count.saturating_add(1);
            push_place(text, subject, statement)?;
        }
    }
    Ok(count)
}

/// Appends the line of a statement that is never reached.
fn push_place(
    text: &mut String,
    subject: Subject<'_>,
    statement: &PlainStatement,
) -> Result<(), NoMemory> {
    let (file, line) = subject.place_of(statement.address);
    write!(text, "never reached: {file}:{line}\n")?;
    Ok(())
}

/// How many words are on the stack at most.
fn greatest_depth(subject: Subject<'_>) -> u16 {
    let mut greatest = 0;
    for row in &subject.table.rows {
        let depth = subject
            .table
            .depth(row.context)
            .saturating_add(row.known.pushed);
        if greatest < depth {
            greatest = depth;
        }
    }
    greatest
}

/// Appends the line that sums up what was found.
fn push_summary(
    text: &mut String,
    subject: Subject<'_>,
    counts: Counts,
    unreached: usize,
) -> Result<(), NoMemory> {
    let operands = counts.operands;
    let sure = operands.saturating_sub(counts.unsure);
    write!(
        text,
        "{sure} of {operands} direct operands that name a word are sure; "
    )?;
    let statements = subject.program.plain.len();
    write!(text, "{statements} statements, {unreached} never reached; ")?;
    let depth = greatest_depth(subject);
    write!(text, "at most {depth} of 8 words of the stack; ")?;
    if counts.closed {
        push_text(text, "the code is never left\n")
    } else {
        push_text(text, "the code may be left\n")
    }
}

/// What was supposed, each supposition on a line; the statements that are never reached; and a line that sums up what was
/// found.
pub(crate) fn facts_of(
    alloc: Global,
    subject: Subject<'_>,
    counts: Counts,
) -> Result<String, NoMemory> {
    let mut text = String::new(alloc);
    push_lines(&mut text, subject.table.lines)?;
    push_spared(&mut text, subject)?;
    push_landings(&mut text, subject)?;
    let reached = reached_addresses(alloc, subject)?;
    let unreached = push_unreached(&mut text, subject, &reached)?;
    push_summary(&mut text, subject, counts, unreached)?;
    Ok(text)
}
