//! Operands that are shown as numbers: addresses, and expressions of the assembler over the names of a program.

ghost use Rattle.std.specs.Prelude.{◌≡◌, option_map, string_bytes};
ghost use Rattle.c25_meaning_common.specs.Results.{Meets};
ghost use Rattle.c25_prompt_lines.specs.Addresses.{program_view};
ghost use Rattle.c25_prompt_lines.specs.Expressions.{after_star, expression_value, has_sign, here_view, may_be_expression, name_address, names_file, number_of, shown_of, text_of, value_in, value_wrong};

use crate::address::{address_of, named};
use crate::command::{Shown, Wrong};
use crate::program::{Here, Program};
use c25_meaning_common::bytes::{begins_name, is_digit};
use c25_meaning_common::failure::Failure;
use c25_named_values::names::Names;
use c25_named_values::no_value::NoValue;
use c25_named_values::value::value_of;
use std::alloc::Global;

/// The names of a program in an expression: a name is that of this file, if it has it, otherwise that of the only source
/// that has it.
#[derive(Clone, Copy)]
struct ProgramNames<'a, 'b> {
    program: Program<'a>,
    file: Option<&'b str>,
}

impl Names for ProgramNames<'_, '_> {
    ghost use Rattle.std.specs.Prelude.{option_map};
    ghost use Rattle.c25_prompt_lines.specs.Addresses.{program_view};
    ghost use Rattle.c25_prompt_lines.specs.Expressions.{name_address};

    ghost address_of = { λ n. name_address (program_view n.program) (option_map (λ s. s.now) n.file) };

    fn address(&self, name: &str) -> Option<u16> {
        match named(self.program.symbols, self.file, name.as_bytes()) {
            Ok(address) => Some(address),
            Err(_) => None,
        }
    }
}

/// Why an expression is invalid.
fn value_wrong(reason: NoValue) -> Wrong
    ensures { result ≡ value_wrong reason }
{
    match reason {
        NoValue::NoExpression => Wrong::NoExpression,
        NoValue::NoName => Wrong::NoNameInside,
        NoValue::DivideByZero => Wrong::DivideByZero,
        NoValue::TooLarge => Wrong::TooLarge,
    }
}

/// The value of an expression of the assembler over the names of a program.
fn value_in(
    alloc: Global,
    program: &Program<'_>,
    here: Here<'_>,
    text: &str,
) -> Result<u16, Failure<Wrong>>
    ensures { Meets (λ n. n) (value_in (program_view program.entry.now) (here_view here.entry) text.entry.now) result }
{
    let names = ProgramNames {
        program: *program,
        file: here.file,
    };
    match value_of(alloc, &names, here.pc, text) {
        Ok(value) => Ok(value),
        Err(Failure::NoMemory(error)) => Err(Failure::NoMemory(error)),
        Err(Failure::Fault(reason)) => Err(Failure::Fault(value_wrong(reason))),
    }
}

/// The text that bytes are, if they are UTF-8.
fn text_of(bytes: &[u8]) -> Option<&str>
    ensures { option_map (λ text. text.now) result ≡ text_of bytes.now }
{
    match str::from_utf8(bytes) {
        Ok(text) => Some(text),
        Err(_) => None,
    }
}

/// The value of bytes as an expression. `NoExpression`, `NoNameInside`, `DivideByZero` or `TooLarge` where they have none.
fn expression_value(
    alloc: Global,
    program: &Program<'_>,
    here: Here<'_>,
    text: &[u8],
) -> Result<u16, Failure<Wrong>>
    ensures { Meets (λ n. n) (expression_value (program_view program.entry.now) (here_view here.entry) text.entry.now) result }
{
    match text_of(text) {
        None => Err(Failure::Fault(Wrong::NoExpression)),
        Some(text) => value_in(alloc, program, here, text),
    }
}

/// Whether a text has a character that no name and no number has.
fn has_sign(text: &[u8]) -> bool
    ensures { result ≡ has_sign text.now }
{
    text.iter().any(|b| !begins_name(*b) && !is_digit(*b))
}

/// Whether a text has a colon, as one that names a file.
fn names_file(text: &[u8]) -> bool
    ensures { result ≡ names_file text.now }
{
    text.iter().any(|b| *b == b':')
}

/// Whether an operand that is no address for this reason is read as an expression.
fn may_be_expression(wrong: Wrong, text: &[u8]) -> bool
    ensures { result ≡ may_be_expression wrong text.now }
{
    match wrong {
        Wrong::NoName => has_sign(text) && !names_file(text),
        Wrong::Count => has_sign(text) && !names_file(text),
        _ => false,
    }
}

/// The number that an operand is: its address, or else the value of the expression.
fn number_of(
    alloc: Global,
    program: &Program<'_>,
    here: Here<'_>,
    text: &[u8],
) -> Result<u16, Failure<Wrong>>
    ensures { Meets (λ n. n) (number_of (program_view program.entry.now) (here_view here.entry) text.entry.now) result }
{
    match address_of(program, here.file, text) {
        Ok(address) => Ok(address),
        Err(wrong) => {
            if may_be_expression(wrong, text) {
                expression_value(alloc, program, here, text)
            } else {
                Err(Failure::Fault(wrong))
            }
        }
    }
}

/// The text after a `*` with which a text begins.
fn after_star(text: &[u8]) -> Option<&[u8]>
    ensures { option_map (λ rest. rest.now) result ≡ after_star text.now }
{
    let (first, rest) = text.split_first()?;
    if *first == b'*' { Some(rest) } else { None }
}

/// What is to be shown as a number: an address or the value of an expression, or the word at the data address that is
/// written after a `*`.
pub(crate) fn shown_of(
    alloc: Global,
    program: &Program<'_>,
    here: Here<'_>,
    text: &[u8],
) -> Result<Shown, Failure<Wrong>>
    ensures { Meets (λ s. s) (shown_of (program_view program.entry.now) (here_view here.entry) text.entry.now) result }
{
    match after_star(text) {
        Some(rest) => match number_of(alloc, program, here, rest) {
            Ok(address) => Ok(Shown::Word(address)),
            Err(failure) => Err(failure),
        },
        None => match number_of(alloc, program, here, text) {
            Ok(number) => Ok(Shown::Number(number)),
            Err(failure) => Err(failure),
        },
    }
}
