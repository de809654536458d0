//! Lines of a disassembly: an address, its words, and what they are.

ghost use Rattle.std.specs.Prelude.{◌≡◌, ◌++◌, OnOk, codes, string_bytes};
ghost use Rattle.c25_meaning_common.specs.Digits.{four_digits};
ghost use Rattle.c25_meaning_instructions.specs.Show.{long_text};
ghost use Rattle.c25_dis.specs.Lines.{columns, data_text, code_text, further_text, line_text};

use c25_isa::show;
use c25_meaning_common::no_memory::NoMemory;
use c25_meaning_instructions::insn::Insn;
use c25_texts::appending::{push_four, push_text, push_texts};
use c25_texts::digits::four;
use std::alloc::Global;

/// The code on a line: one word or two, and their instruction, or `None` where they are data.
#[derive(Clone, Copy)]
pub(crate) struct Code {
    pub first: u16,
    pub second: Option<u16>,
    pub insn: Option<Insn>,
}

/// Appends the low 16 bits of an address in four hexadecimal digits.
#[tactic(auto, using(crate::proofs::Columns::low_digits))]
pub(crate) fn push_address(text: &mut String, address: usize) -> Result<(), NoMemory>
    ensures { OnOk result (string_bytes text.new ≡ string_bytes text.old ++ four_digits address) }
{
    push_four(text, (address % 65_536) as u16)
}

/// Appends one word or two between blanks, in columns of one width for both.
fn push_columns(text: &mut String, first: u16, second: Option<u16>) -> Result<(), NoMemory>
    ensures { OnOk result (string_bytes text.new ≡ string_bytes text.old ++ (codes " " ++ columns first second ++ codes " ")) }
{
    match second {
        None => push_texts(text, &[" ", four(first).as_str(), "     ", " "]),
        Some(second) => push_texts(
            text,
            &[" ", four(first).as_str(), " ", four(second).as_str(), " "],
        ),
    }
}

/// Appends a word as a hexadecimal constant of the assembler, `05541h`.
fn push_constant(text: &mut String, word: u16) -> Result<(), NoMemory>
    ensures { OnOk result (string_bytes text.new ≡ string_bytes text.old ++ long_text word) }
{
    push_texts(text, &["0", four(word).as_str(), "h"])
}

/// Appends a comma and the second word of a `.word` line, if there is one.
fn push_further(text: &mut String, second: Option<u16>) -> Result<(), NoMemory>
    ensures { OnOk result (string_bytes text.new ≡ string_bytes text.old ++ further_text second) }
{
    match second {
        None => Ok(()),
        Some(second) => {
            push_text(text, ",")?;
            push_constant(text, second)
        }
    }
}

/// Appends one word or two as data, in a `.word` directive.
fn push_data(text: &mut String, first: u16, second: Option<u16>) -> Result<(), NoMemory>
    ensures { OnOk result (string_bytes text.new ≡ string_bytes text.old ++ data_text first second) }
{
    push_text(text, ".word ")?;
    push_constant(text, first)?;
    push_further(text, second)?;
    Ok(())
}

/// Appends words as their instruction, or as data where they are not one.
fn push_code(alloc: Global, text: &mut String, code: &Code) -> Result<(), NoMemory>
    ensures { OnOk result (string_bytes text.new ≡ string_bytes text.old ++ code_text code.now.first code.now.second code.now.insn) }
{
    match &code.insn {
        None => push_data(text, code.first, code.second),
        Some(insn) => {
            let shown = show(alloc, insn)?;
            push_text(text, &shown)
        }
    }
}

/// Appends a line without its end: an address, its words, and their instruction or data.
pub(crate) fn push_line(
    alloc: Global,
    text: &mut String,
    address: usize,
    code: &Code,
) -> Result<(), NoMemory>
    ensures { OnOk result (string_bytes text.new ≡ string_bytes text.old ++ line_text address code.now.first code.now.second code.now.insn) }
{
    push_address(text, address)?;
    push_columns(text, code.first, code.second)?;
    push_code(alloc, text, code)
}
