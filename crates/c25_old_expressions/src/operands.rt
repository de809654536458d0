//! Whether operands say the same.

ghost use Rattle.std.specs.Prelude.{◌≡◌, true, false, IfOk, map, string_bytes};
ghost use Rattle.c25_meaning_language.specs.Line.{Parts};
ghost use Rattle.c25_text.specs.View.{parts_of};
ghost use Rattle.c25_old_expressions.specs.Marks.{operands_of, sym_of, symbols_of};
ghost use Rattle.c25_old_expressions.specs.SameValue.{AreOfOneValue, SayTheSame};

use crate::lexemes::symbol_of;
use crate::order::Order;
use crate::scanner::is_comma;
use crate::symbol::Symbol;
use crate::values::{may_differ, says_the_same};
use c25_expr::operands::tokens_of;
use c25_meaning_common::no_memory::NoMemory;
use c25_text::Line;
use std::alloc::Global;

/// The symbols that the tokens of a line are.
pub(crate) fn symbols_of<'a>(alloc: Global, line: &Line<'a>) -> Result<Vec<Symbol<'a>>, NoMemory>
    ensures { IfOk result (λ v. map sym_of v.items ≡ symbols_of (parts_of line.now).pieces) }
{
    let tokens = tokens_of(alloc, line)?;
    let mut symbols = Vec::new(alloc);
    for token in &tokens {
        symbols.push(symbol_of(token.kind, token.text.as_bytes()))?;
    }
    Ok(symbols)
}

/// The symbols between commas.
fn operands_of<'a, 'b>(
    alloc: Global,
    symbols: &'b [Symbol<'a>],
) -> Result<Vec<&'b [Symbol<'a>]>, NoMemory>
    ensures { IfOk result (λ v. map (λ x. map sym_of x.now) v.items ≡ operands_of (map sym_of symbols.now)) }
{
    Ok(symbols.split(|symbol| is_comma(*symbol)).collect(alloc)?)
}

/// Whether each of the operands says the same as the one at its place, where local labels get these names.
fn each_says_the_same(
    alloc: Global,
    order: Order,
    labels: &[String],
    old: &[&[Symbol<'_>]],
    new: &[&[Symbol<'_>]],
) -> Result<bool, NoMemory>
    ensures { IfOk result (λ b. b ≡ true → SayTheSame order (map string_bytes labels.now) (map (λ x. map sym_of x.now) old.now) (map (λ x. map sym_of x.now) new.now)) }
{
    if old.len() != new.len() {
        return Ok(false);
    }
    for (place, operand) in old.iter().enumerate() {
        if !says_the_same(alloc, order, labels, operand, new[place])? {
            return Ok(false);
        }
    }
    Ok(true)
}

/// Whether the operands that symbols are say the same, where local labels get these names.
pub(crate) fn say_the_same(
    alloc: Global,
    order: Order,
    labels: &[String],
    old: &[Symbol<'_>],
    new: &[Symbol<'_>],
) -> Result<bool, NoMemory>
    ensures { IfOk result (λ b. b ≡ true → SayTheSame order (map string_bytes labels.now) (operands_of (map sym_of old.now)) (operands_of (map sym_of new.now))) }
{
    let old = operands_of(alloc, old)?;
    let new = operands_of(alloc, new)?;
    each_says_the_same(alloc, order, labels, old.as_slice(), new.as_slice())
}

/// Whether one of the operands may have another value than the one at its place.
fn one_may_differ(
    alloc: Global,
    order: Order,
    old: &[&[Symbol<'_>]],
    new: &[&[Symbol<'_>]],
) -> Result<bool, NoMemory>
    ensures { IfOk result (λ b. b ≡ false → AreOfOneValue order (map (λ x. map sym_of x.now) old.now) (map (λ x. map sym_of x.now) new.now)) }
{
    let count = old.len().min(new.len());
    for place in 0..count {
        if may_differ(alloc, order, old[place], new[place])? {
            return Ok(true);
        }
    }
    Ok(false)
}

/// Whether one of the operands that symbols are may have another value than the one at its place.
pub(crate) fn operands_may_differ(
    alloc: Global,
    order: Order,
    old: &[Symbol<'_>],
    new: &[Symbol<'_>],
) -> Result<bool, NoMemory>
    ensures { IfOk result (λ b. b ≡ false → AreOfOneValue order (operands_of (map sym_of old.now)) (operands_of (map sym_of new.now))) }
{
    let old = operands_of(alloc, old)?;
    let new = operands_of(alloc, new)?;
    one_may_differ(alloc, order, old.as_slice(), new.as_slice())
}
