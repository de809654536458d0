//! The items of an expression in postfix order.

ghost use Rattle.std.specs.Prelude.{◌≡◌, true, map, string_bytes};
ghost use Rattle.c25_old_expressions.specs.Labels.{renamed_item};
ghost use Rattle.c25_old_expressions.specs.Places.{binary_place, unary_place};
ghost use Rattle.c25_old_expressions.specs.Reader.{item_of};

use crate::labels::renamed;
use c25_meaning_language::expression::{BinaryOperator, UnaryOperator};

/// An item of an expression in postfix order, without parentheses.
#[derive(Clone, Copy)]
pub(crate) enum Item<'a> {
    /// A constant.
    Constant(u32),
    /// A name.
    Name(&'a [u8]),
    /// `$`, the current place.
    Here,
    /// An operator on the last operand.
    Unary(UnaryOperator),
    /// An operator on the last two operands.
    Binary(BinaryOperator),
}

/// The place of an operator among all before an operand.
fn unary_place(operator: UnaryOperator) -> u8
    ensures { result ≡ unary_place operator }
{
    match operator {
        UnaryOperator::Plus => 0,
        UnaryOperator::Minus => 1,
        UnaryOperator::Complement => 2,
    }
}

/// The place of an operator among all between two operands.
fn binary_place(operator: BinaryOperator) -> u8
    ensures { result ≡ binary_place operator }
{
    match operator {
        BinaryOperator::Multiply => 0,
        BinaryOperator::Divide => 1,
        BinaryOperator::Remainder => 2,
        BinaryOperator::Add => 3,
        BinaryOperator::Subtract => 4,
        BinaryOperator::ShiftLeft => 5,
        BinaryOperator::ShiftRight => 6,
        BinaryOperator::Less => 7,
        BinaryOperator::LessOrEqual => 8,
        BinaryOperator::Greater => 9,
        BinaryOperator::GreaterOrEqual => 10,
        BinaryOperator::Equal => 11,
        BinaryOperator::NotEqual => 12,
        BinaryOperator::And => 13,
        BinaryOperator::ExclusiveOr => 14,
        BinaryOperator::Or => 15,
    }
}

/// Whether two operators before an operand are one.
fn is_unary(one: UnaryOperator, other: UnaryOperator) -> bool
    ensures { result ≡ true → one ≡ other }
{
    unary_place(one) == unary_place(other)
}

/// Whether two operators between operands are one.
fn is_binary(one: BinaryOperator, other: BinaryOperator) -> bool
    ensures { result ≡ true → one ≡ other }
{
    binary_place(one) == binary_place(other)
}

/// Whether an item takes the place of another one, where local labels get these names.
pub(crate) fn is_item(labels: &[String], one: Item<'_>, other: Item<'_>) -> bool
    ensures { result ≡ true → renamed_item (map string_bytes labels.now) (item_of one.entry) ≡ item_of other.entry }
{
    match (one, other) {
        (Item::Constant(number), Item::Constant(another)) => number == another,
        (Item::Name(name), Item::Name(another)) => renamed(labels, name) == another,
        (Item::Here, Item::Here) => true,
        (Item::Unary(operator), Item::Unary(another)) => is_unary(operator, another),
        (Item::Binary(operator), Item::Binary(another)) => is_binary(operator, another),
        _ => false,
    }
}
