//! Values that expansion needs at once.

ghost use Rattle.std.specs.Prelude.{◌≡◌};
ghost use Rattle.c25_meaning_language.specs.Statement.{valued};
ghost use Rattle.c25_meaning_expansion.specs.ExpansionRules.{absolute_number};
ghost use Rattle.c25_meaning_language.specs.Value.{is_zero};
ghost use Rattle.c25_expr.specs.View.{tree_of};

use c25_expr::failure::value_fault;
use c25_expr::symbols::Symbols;
use c25_expr::tree::Expr;
use c25_expr::value::value;
use c25_meaning_language::statement::FaultKind;
use c25_meaning_language::value::Base;
use std::mem;

/// The number that an expression stands for under the symbols so far: the fault of its value (22 to 25), or
/// `NotAbsolute` (23) where it counts from a section or from another module's name.
pub(crate) fn number(symbols: &Symbols, expr: Expr) -> Result<i32, FaultKind>
    ensures { result ≡ absolute_number (valued symbols.now (tree_of expr)) }
{
    let value = value(&expr, symbols);
    // The expression is not needed any more.
    mem::drop(expr);
    match value {
        Ok(value) => match value.base {
            Base::Absolute => Ok(value.offset),
            _ => Err(FaultKind::NotAbsolute),
        },
        Err(kind) => Err(value_fault(kind)),
    }
}

pub(crate) fn is_zero(number: i32) -> bool
    ensures { result ≡ is_zero number }
{
    number == 0
}
