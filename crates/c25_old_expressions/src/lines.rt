//! Whether the operands of an old line and of the line that takes its place say the same.

ghost use Rattle.std.specs.Prelude.{◌≡◌, true, false, IfOk, map, string_bytes};
ghost use Rattle.c25_old_expressions.specs.Labels.{KeepsLabel};
ghost use Rattle.c25_old_expressions.specs.OldSymbols.{operand_text};
ghost use Rattle.c25_old_expressions.specs.SameValue.{ChangesNoValue, HasNoOperands, KeepsOperands};

use crate::labels::{are_renamed, is_label, old_label, renamed};
use crate::lexemes::past;
use crate::operands::{operands_may_differ, say_the_same, symbols_of};
use crate::order::Order;
use crate::scanner::old_symbols;
use c25_meaning_common::failure::Failure;
use c25_meaning_common::no_memory::NoMemory;
use c25_text::{past_blanks, past_field, split_line};
use std::alloc::Global;

/// The text of a line from its operands on.
fn operand_text(line: &[u8]) -> &[u8]
    ensures { result.now ≡ operand_text line.now }
{
    let word = past_blanks(line, past_field(line, 0));
    past(line, past_blanks(line, past_field(line, word)))
}

/// Whether the operands of an old line, whose operators act in this order, surely say the same as those of a line of the
/// assembler: each expression has the same value there, whatever the names stand for, and each other operand the same
/// symbols. The local labels `$0` to `$9` get these names; where there are none, no local label is read. False where one of
/// the lines is not read. `NoMemory` (9) where memory runs out.
pub fn keep_operands(
    alloc: Global,
    order: Order,
    labels: &[String],
    old: &str,
    new: &str,
) -> Result<bool, NoMemory>
    ensures { IfOk result (λ b. b ≡ true → KeepsOperands order (map string_bytes labels.now) old.now new.now) }
{
    let before = match old_symbols(
        alloc,
        order,
        are_renamed(labels),
        operand_text(old.as_bytes()),
    ) {
        Ok(symbols) => symbols,
        Err(Failure::NoMemory(error)) => return Err(error),
        Err(Failure::Fault(_)) => return Ok(false),
    };
    match split_line(new) {
        Ok(line) => {
            let after = symbols_of(alloc, &line)?;
            say_the_same(alloc, order, labels, before.as_slice(), after.as_slice())
        }
        Err(_) => Ok(false),
    }
}

/// Whether an operand of an old line, whose operators act in this order, and the one at its place in a line of the
/// assembler are both expressions, and may have different values. `NoMemory` (9) where memory runs out.
pub fn may_change_values(
    alloc: Global,
    order: Order,
    old: &str,
    new: &str,
) -> Result<bool, NoMemory>
    ensures { IfOk result (λ b. b ≡ false → ChangesNoValue order old.now new.now) }
{
    let before = match old_symbols(alloc, order, false, operand_text(old.as_bytes())) {
        Ok(symbols) => symbols,
        Err(Failure::NoMemory(error)) => return Err(error),
        Err(Failure::Fault(_)) => return Ok(false),
    };
    match split_line(new) {
        Ok(line) => {
            let after = symbols_of(alloc, &line)?;
            operands_may_differ(alloc, order, before.as_slice(), after.as_slice())
        }
        Err(_) => Ok(false),
    }
}

/// Whether a line of the assembler surely has no operands. False where it is not read. `NoMemory` (9) where memory runs out.
pub fn has_no_operands(alloc: Global, line: &str) -> Result<bool, NoMemory>
    ensures { IfOk result (λ b. b ≡ true → HasNoOperands line.now) }
{
    match split_line(line) {
        Ok(line) => {
            let symbols = symbols_of(alloc, &line)?;
            Ok(symbols.is_empty())
        }
        Err(_) => Ok(false),
    }
}

/// Whether the label of a line of the assembler is the one that takes the place of an old line's, where the local labels `$0`
/// to `$9` get these names. False where the line of the assembler is not read.
pub fn keeps_label(labels: &[String], old: &str, new: &str) -> bool
    ensures { result ≡ true → KeepsLabel (map string_bytes labels.now) old.now new.now }
{
    match split_line(new) {
        Ok(line) => is_label(line.label, renamed(labels, old_label(old.as_bytes()))),
        Err(_) => false,
    }
}
