//! Operators of expressions, and why tokens are not an expression.

use thiserror::Error;

/// An operator before its one operand.
#[derive(Clone, Copy)]
pub enum UnaryOperator {
    Plus,
    Minus,
    Complement,
}

/// An operator between its two operands.
#[derive(Clone, Copy)]
pub enum BinaryOperator {
    Multiply,
    Divide,
    Remainder,
    Add,
    Subtract,
    ShiftLeft,
    ShiftRight,
    Less,
    LessOrEqual,
    Greater,
    GreaterOrEqual,
    Equal,
    NotEqual,
    And,
    ExclusiveOr,
    Or,
}

/// Why tokens are not an expression.
#[derive(Clone, Copy, PartialEq, Debug, Error)]
#[error("{}", self.name())]
pub enum ExpressionFault {
    /// The tokens do not form an expression (20).
    BadExpression,
    /// Parentheses and unary operators nest more than 64 deep (21).
    TooDeep,
}

impl ExpressionFault {
    ghost use Rattle.std.specs.Prelude.{◌≡◌};
    ghost use Rattle.c25_meaning_language.specs.Faults.{fault_name};
    ghost use Rattle.c25_meaning_language.specs.Statement.{expression_fault};

    /// The fault's name, as shown to the user.
    pub fn name(&self) -> &'static str
        ensures { result.now ≡ fault_name (expression_fault self.now) }
    {
        match self {
            ExpressionFault::BadExpression => "BadExpression",
            ExpressionFault::TooDeep => "TooDeep",
        }
    }
}
