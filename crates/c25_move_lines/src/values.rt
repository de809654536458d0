//! Whether the operands of a line say the same after their values were rewritten.

ghost use Rattle.std.specs.Prelude.{◌≡◌, [], true, false, IfOk};
ghost use Rattle.std.specs.List.{list_all};
ghost use Rattle.c25_move_lines.specs.Changes.{KeepsUnreported, lines_of};
ghost use Rattle.c25_move_lines.specs.Values.{ChangesNoLine, KeepsAllValues, KeepsEarlyValues, KeepsLine, KeepsValues, is_by_values, keep_all, keeps_operands, order_of, rewrite_none, rewrites_values};

use crate::around::Around;
use crate::change::Change;
use crate::rule::Rule;
use crate::style::Style;
use c25_meaning_common::no_memory::NoMemory;
use c25_old_expressions::lines::{keep_operands, may_change_values};
use c25_old_expressions::order::Order;
use std::alloc::Global;

/// The order in which the operators of a source in this style act.
pub(crate) fn order_of(style: Style) -> Order
    ensures { result ≡ order_of style }
{
    match style {
        Style::Early => Order::AsWritten,
        Style::Coff => Order::ByLevel,
    }
}

/// Whether a rule rewrites values.
fn rewrites_values(rule: Rule) -> bool
    ensures { result ≡ rewrites_values rule }
{
    match rule {
        Rule::LeftToRight => true,
        Rule::Hexadecimal => true,
        Rule::Characters => true,
        _ => false,
    }
}

/// Whether a rule rewrites values, or leaves the operands as they are.
pub(crate) fn keeps_operands(rule: Rule) -> bool
    ensures { result ≡ keeps_operands rule }
{
    match rule {
        Rule::Comment => true,
        Rule::Directive => true,
        _ => rewrites_values(rule),
    }
}

/// Whether no rule rewrites values.
pub(crate) fn rewrite_none(rules: &[Rule]) -> bool
    ensures { result ≡ rewrite_none rules.now }
{
    rules.iter().all(|rule| !rewrites_values(*rule))
}

/// Whether each rule rewrites values, or leaves the operands as they are.
fn all_keep_operands(rules: &[Rule]) -> bool
    ensures { result ≡ list_all keeps_operands rules.now }
{
    rules.iter().all(|rule| keeps_operands(*rule))
}

/// Whether values of a line were rewritten, and nothing else of its operands was, and no value is left.
fn is_by_values(done: &[Rule], left: &[Rule]) -> bool
    ensures { result ≡ is_by_values done.now left.now }
{
    !rewrite_none(done) && all_keep_operands(done) && rewrite_none(left)
}

/// Whether one line takes the place of a line, and its operands surely say the same.
fn keeps_line(alloc: Global, style: Style, old: &str, change: &Change) -> Result<bool, NoMemory>
    ensures { IfOk result (λ b. b ≡ true → KeepsLine (order_of style) old.now (lines_of change.now)) }
{
    match change.lines.as_slice() {
        [new] => keep_operands(alloc, order_of(style), &[], old, new.as_str()),
        _ => Ok(false),
    }
}

/// One of the rules that rewrite values, of these if there is one.
fn value_rule(done: &[Rule]) -> Rule
    ensures { rewrites_values result ≡ true }
{
    if done.contains(&Rule::Hexadecimal) {
        Rule::Hexadecimal
    } else if done.contains(&Rule::Characters) {
        Rule::Characters
    } else {
        Rule::LeftToRight
    }
}

/// A change by which values may have become others: one of the rules that rewrite values is left.
#[tactic(auto, using(crate::proofs::Lefts::left_by))]
fn with_value_left(change: Change) -> Result<Change, NoMemory>
    ensures { IfOk result (λ c. rewrite_none c.left.items ≡ false) }
{
    let mut change = change;
    let rule = value_rule(change.done.as_slice());
    change.left.push(rule)?;
    Ok(change)
}

/// Whether values that were rewritten surely are the same.
fn keeps_rewritten(
    alloc: Global,
    style: Style,
    line: &str,
    change: &Change,
) -> Result<bool, NoMemory>
    ensures { IfOk result (λ b. b ≡ true → KeepsValues style line.now (lines_of change.now) change.now.done.items change.now.left.items) }
{
    if is_by_values(change.done.as_slice(), change.left.as_slice()) {
        keeps_line(alloc, style, line, change)
    } else {
        Ok(true)
    }
}

/// Whether no rule that is done changed the operands but for values, and no value is left.
fn keep_all(done: &[Rule], left: &[Rule]) -> bool
    ensures { result ≡ keep_all done.now left.now }
{
    all_keep_operands(done) && rewrite_none(left)
}

/// Whether one line takes the place of a line, and surely no operand there changes its value.
fn changes_no_line(
    alloc: Global,
    style: Style,
    old: &str,
    change: &Change,
) -> Result<bool, NoMemory>
    ensures { IfOk result (λ b. b ≡ true → ChangesNoLine (order_of style) old.now (lines_of change.now)) }
{
    match change.lines.as_slice() {
        [new] => match may_change_values(alloc, order_of(style), old, new.as_str()) {
            Ok(may_change) => Ok(!may_change),
            Err(error) => Err(error),
        },
        _ => Ok(false),
    }
}

/// Whether the operands of a line surely keep their values where the style is early.
fn keeps_early(alloc: Global, style: Style, line: &str, change: &Change) -> Result<bool, NoMemory>
    ensures { IfOk result (λ b. b ≡ true → KeepsEarlyValues style line.now (lines_of change.now) change.now.done.items change.now.left.items) }
{
    match style {
        Style::Early if keep_all(change.done.as_slice(), change.left.as_slice()) => {
            changes_no_line(alloc, style, line, change)
        }
        _ => Ok(true),
    }
}

/// Whether the values of a line surely are the same.
fn keeps_values(alloc: Global, style: Style, line: &str, change: &Change) -> Result<bool, NoMemory>
    ensures { IfOk result (λ b. b ≡ true → KeepsAllValues style line.now (lines_of change.now) change.now.done.items change.now.left.items) }
{
    if keeps_rewritten(alloc, style, line, change)? {
        keeps_early(alloc, style, line, change)
    } else {
        Ok(false)
    }
}

/// The change of a line that calls no macro; one of the rules that rewrite values is left where a value may be another.
#[tactic(auto, using(crate::proofs::Lefts::kept_by_left, crate::proofs::Lefts::reported_by_left))]
fn checked(alloc: Global, style: Style, line: &str, change: Change) -> Result<Change, NoMemory>
    requires { KeepsUnreported line.now change }
    ensures unreported { IfOk result (KeepsUnreported line.now) }
    ensures values { IfOk result (λ c. KeepsAllValues style line.now (lines_of c) c.done.items c.left.items) }
{
    if keeps_values(alloc, style, line, &change)? {
        Ok(change)
    } else {
        with_value_left(change)
    }
}

/// The change that rules made of a line; where a value may have become another one, unless the line calls a macro, a value
/// is left.
pub(crate) fn compared(
    alloc: Global,
    around: &Around<'_>,
    line: &str,
    change: Change,
) -> Result<Change, NoMemory>
    requires { KeepsUnreported line.now change }
    ensures unreported { IfOk result (KeepsUnreported line.now) }
    ensures values { IfOk result (λ c. around.now.is_call ≡ false → KeepsAllValues around.now.style line.now (lines_of c) c.done.items c.left.items) }
{
    if around.is_call {
        Ok(change)
    } else {
        checked(alloc, around.style, line, change)
    }
}
