//! Which operators the signs are, and how tight the operators bind.

ghost use Rattle.std.specs.Prelude.{◌≡◌};
ghost use Rattle.c25_meaning_language.specs.Tree.{level_of};
ghost use Rattle.c25_meaning_language.specs.Reading.{unary_of, binary_of};

use c25_meaning_language::expression::{BinaryOperator, UnaryOperator};
use c25_meaning_language::line::Sign;

/// The level of the operators that bind loosest.
pub(crate) const LOOSEST: u8 = 8;

/// The level of an operator; 1 binds tightest.
pub(crate) fn level_of(operator: BinaryOperator) -> u8
    ensures { result ≡ level_of operator }
{
    match operator {
        BinaryOperator::Multiply | BinaryOperator::Divide | BinaryOperator::Remainder => 1,
        BinaryOperator::Add | BinaryOperator::Subtract => 2,
        BinaryOperator::ShiftLeft | BinaryOperator::ShiftRight => 3,
        BinaryOperator::Less
        | BinaryOperator::LessOrEqual
        | BinaryOperator::Greater
        | BinaryOperator::GreaterOrEqual => 4,
        BinaryOperator::Equal | BinaryOperator::NotEqual => 5,
        BinaryOperator::And => 6,
        BinaryOperator::ExclusiveOr => 7,
        BinaryOperator::Or => 8,
    }
}

/// A sign as an operator before an operand.
pub(crate) fn unary_of(sign: Sign) -> Option<UnaryOperator>
    ensures { result ≡ unary_of sign }
{
    match sign {
        Sign::Plus => Some(UnaryOperator::Plus),
        Sign::Minus => Some(UnaryOperator::Minus),
        Sign::Tilde => Some(UnaryOperator::Complement),
        _ => None,
    }
}

/// A sign as an operator between operands.
pub(crate) fn binary_of(sign: Sign) -> Option<BinaryOperator>
    ensures { result ≡ binary_of sign }
{
    match sign {
        Sign::Star => Some(BinaryOperator::Multiply),
        Sign::Slash => Some(BinaryOperator::Divide),
        Sign::Percent => Some(BinaryOperator::Remainder),
        Sign::Plus => Some(BinaryOperator::Add),
        Sign::Minus => Some(BinaryOperator::Subtract),
        Sign::ShiftLeft => Some(BinaryOperator::ShiftLeft),
        Sign::ShiftRight => Some(BinaryOperator::ShiftRight),
        Sign::Less => Some(BinaryOperator::Less),
        Sign::LessOrEqual => Some(BinaryOperator::LessOrEqual),
        Sign::Greater => Some(BinaryOperator::Greater),
        Sign::GreaterOrEqual => Some(BinaryOperator::GreaterOrEqual),
        Sign::Equal => Some(BinaryOperator::Equal),
        Sign::NotEqual => Some(BinaryOperator::NotEqual),
        Sign::Ampersand => Some(BinaryOperator::And),
        Sign::Caret => Some(BinaryOperator::ExclusiveOr),
        Sign::Bar => Some(BinaryOperator::Or),
        _ => None,
    }
}
