//! Whether the value of an operand serves.

ghost use Rattle.std.specs.Prelude.{◌≡◌, IfOk, Ok, map};
ghost use Rattle.c25_meaning_language.specs.Reading.{tree_in};
ghost use Rattle.c25_meaning_language.specs.Statement as statement;
ghost use Rattle.c25_meaning_language.specs.Tree.{mark_of};
ghost use Rattle.c25_expr.specs.Pieces.{pieces_of};
ghost use Rattle.c25_expr.specs.View.{tree_of};
ghost use Rattle.c25_places.specs.Values.{address_taken, field_takes, serves, tree_serves, operand_serves, is_fault, range_of, value_of, number_of, misfit_by, misfit_of};

use crate::value_parts::Misfit;
use crate::values::Role;
use c25_expr::failure::value_fault;
use c25_expr::tree::Expr;
use c25_expr::value::value;
use c25_expr::{Symbols, read_expr};
use c25_meaning_common::failure::Failure;
use c25_meaning_common::no_memory::NoMemory;
use c25_meaning_common::relocation::RelocationKind;
use c25_meaning_language::statement::{FaultKind, Field};
use c25_meaning_language::value::{Base, Value};
use c25_statements::fields::{number_in, relocation_of};
use c25_text::tokens::Token;
use std::alloc::Global;

/// The value of an expression, or its fault (22 to 25).
fn valued(symbols: &Symbols, expr: &Expr) -> Result<Value, FaultKind>
    ensures { result ≡ statement.valued symbols.now (tree_of expr.now) }
{
    match value(expr, symbols) {
        Ok(value) => Ok(value),
        Err(fault) => Err(value_fault(fault)),
    }
}

fn address_taken(kind: Option<RelocationKind>) -> Result<(), FaultKind>
    ensures { result ≡ address_taken kind }
{
    match kind {
        Some(_) => Ok(()),
        None => Err(FaultKind::NotRelocatable),
    }
}

/// Checks that a field takes a value: `FieldRange` (53) or `NotRelocatable` (55) where it does not.
fn field_takes(base: Base, field: Field, offset: i32) -> Result<(), FaultKind>
    ensures { result ≡ field_takes base field offset }
{
    match base {
        Base::Absolute => match number_in(field, offset) {
            Ok(_) => Ok(()),
            Err(fault) => Err(fault),
        },
        _ => address_taken(relocation_of(field)),
    }
}

fn counts(value: Value) -> Result<(), FaultKind>
    ensures { result ≡ serves Role.Counts value }
{
    match value.base {
        Base::Absolute if value.offset < 0 => Err(FaultKind::ValueRange),
        Base::Absolute => Ok(()),
        _ => Err(FaultKind::NotAbsolute),
    }
}

fn decides(value: Value) -> Result<(), FaultKind>
    ensures { result ≡ serves Role.Decides value }
{
    match value.base {
        Base::Absolute => Ok(()),
        _ => Err(FaultKind::NotAbsolute),
    }
}

/// Checks that a value serves for what it is needed.
fn serves(role: Role, value: Value) -> Result<(), FaultKind>
    ensures { result ≡ serves role value }
{
    match role {
        Role::Fills(field) => field_takes(value.base, field, value.offset),
        Role::Counts => counts(value),
        Role::Decides => decides(value),
        Role::Names => Ok(()),
    }
}

fn expr_serves(symbols: &Symbols, role: Role, expr: &Expr) -> Result<(), FaultKind>
    ensures { result ≡ tree_serves symbols.now role (Ok (tree_of expr.now)) }
{
    match valued(symbols, expr) {
        Ok(value) => serves(role, value),
        Err(fault) => Err(fault),
    }
}

fn is_fault(kind: FaultKind, served: Result<(), FaultKind>) -> bool
    ensures { result ≡ is_fault kind served }
{
    match served {
        Ok(()) => false,
        Err(fault) => kind.number() == fault.number(),
    }
}

/// Whether the value of an operand has this fault.
pub(crate) fn is_refused(
    alloc: Global,
    kind: FaultKind,
    symbols: &Symbols,
    role: Role,
    operand: &[Token<'_>],
) -> Result<bool, NoMemory>
    ensures { IfOk result (λ b. b ≡ is_fault kind (operand_serves symbols.now role (pieces_of operand.now))) }
{
    match read_expr(alloc, operand) {
        Ok(expr) => Ok(is_fault(kind, expr_serves(symbols, role, &expr))),
        Err(Failure::Fault(_)) => Ok(false),
        Err(Failure::NoMemory(error)) => Err(error),
    }
}

/// The least and the largest number that a field takes; None for a word, which takes any.
fn range_of(field: Field) -> Option<(i32, i32)>
    ensures { result ≡ range_of field }
{
    match field {
        Field::Low7 => Some((0, 65535)),
        Field::Page9 => Some((0, 511)),
        Field::Word16 => Some((-32768, 65535)),
        Field::Number(limit) => Some((0, i32::from(limit) - 1)),
        Field::Signed13 => Some((-4096, 4095)),
        Field::Word => None,
        Field::Byte => Some((-128, 255)),
    }
}

/// The value of an operand, if it has one.
pub(crate) fn value_of(
    alloc: Global,
    symbols: &Symbols,
    operand: &[Token<'_>],
) -> Result<Option<Value>, NoMemory>
    ensures { IfOk result (λ o. o ≡ value_of symbols.now (tree_in (map mark_of (pieces_of operand.now)))) }
{
    match read_expr(alloc, operand) {
        Ok(expr) => match valued(symbols, &expr) {
            Ok(value) => Ok(Some(value)),
            Err(_) => Ok(None),
        },
        Err(Failure::Fault(_)) => Ok(None),
        Err(Failure::NoMemory(error)) => Err(error),
    }
}

/// The number of the value of an operand, if it has one.
fn number_of(
    alloc: Global,
    symbols: &Symbols,
    operand: &[Token<'_>],
) -> Result<Option<i32>, NoMemory>
    ensures { IfOk result (λ o. o ≡ number_of symbols.now (tree_in (map mark_of (pieces_of operand.now)))) }
{
    match value_of(alloc, symbols, operand)? {
        Some(value) => Ok(Some(value.offset)),
        None => Ok(None),
    }
}

fn misfit_by(range: Option<(i32, i32)>, value: Option<i32>) -> Option<Misfit>
    ensures { result ≡ misfit_by range value }
{
    match (range, value) {
        (Some((least, most)), Some(value)) => Some(Misfit { value, least, most }),
        _ => None,
    }
}

/// The value of an operand with the range of the field that it has to fill.
pub(crate) fn misfit_of(
    alloc: Global,
    symbols: &Symbols,
    role: Role,
    operand: &[Token<'_>],
) -> Result<Option<Misfit>, NoMemory>
    ensures { IfOk result (λ o. o ≡ misfit_of symbols.now role (pieces_of operand.now)) }
{
    match role {
        Role::Fills(field) => {
            let value = number_of(alloc, symbols, operand)?;
            Ok(misfit_by(range_of(field), value))
        }
        _ => Ok(None),
    }
}
