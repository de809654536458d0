//! The expressions of a line's operands.

ghost use Rattle.std.specs.Prelude.{◌≡◌, length};
ghost use Rattle.c25_statements.specs.Exprs.{exprs_in};

use crate::statement::Exprs;
use c25_expr::tree::Expr;
use std::slice;

impl Exprs {
    /// A list of expressions, without a `Vec` where there is only one.
    pub(crate) fn of(exprs: Vec<Expr>) -> Exprs
        ensures { exprs_in result ≡ exprs.items }
    {
        let mut exprs = exprs;
        if exprs.len() != 1 {
            return Exprs::Several(exprs);
        }
        match exprs.pop() {
            Some(expr) => Exprs::One(expr),
            None => Exprs::Several(exprs),
        }
    }

    /// All expressions, in order.
    pub fn as_slice(&self) -> &[Expr]
        ensures { result.now ≡ exprs_in self.now }
    {
        match self {
            Exprs::One(expr) => slice::from_ref(expr),
            Exprs::Several(exprs) => exprs.as_slice(),
        }
    }
}
