//! Expressions in postfix order.

ghost use Rattle.std.specs.Prelude.{◌≡◌, true, map};
ghost use Rattle.c25_expr.specs.Postfix.{item_of, runs};
ghost use Rattle.c25_expr.specs.Steps.{steps_of};

use c25_meaning_language::expression::{BinaryOperator, UnaryOperator};

/// One item of an expression in postfix order.
#[derive(Drop)]
pub(crate) enum PostfixItem {
    /// A constant. One above 2,147,483,647 is kept as 2,147,483,648, which has no value.
    Constant(u32),
    /// A name.
    Name(String),
    /// `$`, the current place.
    Here,
    /// Parentheses round the last operand.
    Group,
    /// An operator on the last operand.
    Unary(UnaryOperator),
    /// An operator on the last two operands.
    Binary(BinaryOperator),
}

/// The items of an expression. Most have one, which takes no memory of its own.
#[derive(Drop)]
pub(crate) enum Steps {
    One(PostfixItem),
    Several(Vec<PostfixItem>),
}

/// An expression. It is kept in postfix order, so that neither valuing nor dropping it recurses as deep as
/// the expression is long.
#[derive(Drop)]
pub struct Expr {
    pub(crate) steps: Steps,
    ghost whole: { runs (map item_of (steps_of steps)) 0 ≡ true },
}
