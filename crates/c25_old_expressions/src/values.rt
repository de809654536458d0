//! Whether two operands have one value.

ghost use Rattle.std.specs.Prelude.{◌≡◌, true, false, IfOk, map, string_bytes};
ghost use Rattle.c25_old_expressions.specs.Labels.{renamed_item, renamed_symbol};
ghost use Rattle.c25_old_expressions.specs.Marks.{sym_of};
ghost use Rattle.c25_old_expressions.specs.Reader.{item_of};
ghost use Rattle.c25_old_expressions.specs.SameValue.{IsOfOneValue, SaysTheSame};

use crate::item::{Item, is_item};
use crate::labels::renamed;
use crate::order::Order;
use crate::reading::items_of;
use crate::symbol::Symbol;
use c25_meaning_common::failure::Failure;
use c25_meaning_common::no_memory::NoMemory;
use std::alloc::Global;

/// Whether two expressions have the same items, where local labels get these names.
fn have_same_items(labels: &[String], one: &[Item<'_>], other: &[Item<'_>]) -> bool
    ensures { result ≡ true → map (renamed_item (map string_bytes labels.now)) (map item_of one.now) ≡ map item_of other.now }
{
    if one.len() != other.len() {
        return false;
    }
    for (place, item) in one.iter().enumerate() {
        if !is_item(labels, *item, other[place]) {
            return false;
        }
    }
    true
}

/// Whether a symbol takes the place of another one, where local labels get these names.
fn is_symbol(labels: &[String], one: Symbol<'_>, other: Symbol<'_>) -> bool
    ensures { result ≡ true → renamed_symbol (map string_bytes labels.now) (sym_of one.entry) ≡ sym_of other.entry }
{
    match (one, other) {
        (Symbol::Constant(number), Symbol::Constant(another)) => number == another,
        (Symbol::Name(name), Symbol::Name(another)) => renamed(labels, name) == another,
        (Symbol::Here, Symbol::Here) => true,
        (Symbol::Signed(sign), Symbol::Signed(another)) => sign == another,
        (Symbol::Text(text), Symbol::Text(another)) => text == another,
        _ => false,
    }
}

/// Whether two operands have the same symbols, where local labels get these names.
fn have_same_symbols(labels: &[String], one: &[Symbol<'_>], other: &[Symbol<'_>]) -> bool
    ensures { result ≡ true → map (renamed_symbol (map string_bytes labels.now)) (map sym_of one.now) ≡ map sym_of other.now }
{
    if one.len() != other.len() {
        return false;
    }
    for (place, symbol) in one.iter().enumerate() {
        if !is_symbol(labels, *symbol, other[place]) {
            return false;
        }
    }
    true
}

/// Whether an operand of an old source, whose operators act in this order, surely says the same as another one of the
/// assembler: both have the same operands and operators in the order in which they act, or the old one is no expression,
/// and both have the same symbols. Local labels get these names.
pub(crate) fn says_the_same(
    alloc: Global,
    order: Order,
    labels: &[String],
    old: &[Symbol<'_>],
    new: &[Symbol<'_>],
) -> Result<bool, NoMemory>
    ensures { IfOk result (λ b. b ≡ true → SaysTheSame order (map string_bytes labels.now) (map sym_of old.now) (map sym_of new.now)) }
{
    let before = match items_of(alloc, order, old) {
        Ok(items) => items,
        Err(Failure::NoMemory(error)) => return Err(error),
        Err(Failure::Fault(_)) => return Ok(have_same_symbols(labels, old, new)),
    };
    match items_of(alloc, Order::ByLevel, new) {
        Ok(after) => Ok(have_same_items(labels, before.as_slice(), after.as_slice())),
        Err(Failure::NoMemory(error)) => Err(error),
        Err(Failure::Fault(_)) => Ok(false),
    }
}

/// Whether two operands are both expressions, and may have different values. `NoMemory` (9) where memory runs out.
pub(crate) fn may_differ(
    alloc: Global,
    order: Order,
    old: &[Symbol<'_>],
    new: &[Symbol<'_>],
) -> Result<bool, NoMemory>
    ensures { IfOk result (λ b. b ≡ false → IsOfOneValue order (map sym_of old.now) (map sym_of new.now)) }
{
    let before = match items_of(alloc, order, old) {
        Ok(items) => items,
        Err(Failure::NoMemory(error)) => return Err(error),
        Err(Failure::Fault(_)) => return Ok(false),
    };
    match items_of(alloc, Order::ByLevel, new) {
        Ok(after) => Ok(!have_same_items(&[], before.as_slice(), after.as_slice())),
        Err(Failure::NoMemory(error)) => Err(error),
        Err(Failure::Fault(_)) => Ok(false),
    }
}
