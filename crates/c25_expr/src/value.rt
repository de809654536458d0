//! The value of an expression.

ghost use Rattle.std.specs.Prelude.{◌≡◌, ◌+◌, ◌<◌, ◌≤◌, [], ◌∷◌, Ok, Err, true, length, reverse, MatchResult};
ghost use Rattle.arrayvec.specs.ArrayVec.{array_vec_len};
ghost use Rattle.c25_meaning_language.specs.Value.{value_of, value_named};
ghost use Rattle.c25_expr.specs.Postfix.{item_of, fits, is_room, with_result};
ghost use Rattle.c25_expr.specs.Stack.{applied, onto};
ghost use Rattle.c25_expr.specs.Steps.{steps_of};
ghost use Rattle.c25_expr.specs.View.{tree_of};

use crate::operators::{binary_value, plain_value, unary_value};
use crate::symbols::Symbols;
use crate::tree::{Expr, PostfixItem};
use arrayvec::ArrayVec;
use c25_meaning_language::value::{Value, ValueFault};

/// How many operands wait at most while an expression is valued.
const DEEPEST: usize = 521;

/// An expression of at most `FEW` items is valued with less room. Most have one or three, and filling the
/// room costs time.
const FEW: usize = 8;

/// The value of an expression under symbols, or its first fault: that of the left operand, of the right one,
/// then of the operator, for which bases are looked at before numbers.
///
/// `Undefined` (22) where a name stands for nothing; `NotAbsolute` (23) where an operator may not have
/// operands of these bases; `DivideByZero` (24); `ValueRange` (25) for a constant or a result that does not
/// fit in 32 bits with its sign, and for a shift count that is not 0 to 31. No memory is taken.
pub fn value(expr: &Expr, symbols: &Symbols) -> Result<Value, ValueFault>
    ensures { result ≡ value_of (value_named symbols.now) symbols.now.here (tree_of expr.now) }
{
    let steps = expr.steps.as_slice();
    if steps.len() <= FEW {
        value_over(expr, symbols, &mut ArrayVec::<Value, FEW>::new())
    } else {
        value_of_many(expr, symbols)
    }
}

/// The value of an expression of any number of items. It is a function of its own, so that its room is filled
/// only where it is called: inlined, it would be filled for each expression.
#[inline(never)]
fn value_of_many(expr: &Expr, symbols: &Symbols) -> Result<Value, ValueFault>
    ensures { result ≡ value_of (value_named symbols.now) symbols.now.here (tree_of expr.now) }
{
    value_over(expr, symbols, &mut ArrayVec::<Value, DEEPEST>::new())
}

/// The value of an expression, item by item, with room for the operands that wait, the last one last.
fn value_over<const ROOM: usize>(
    expr: &Expr,
    symbols: &Symbols,
    waiting: &mut ArrayVec<Value, ROOM>,
) -> Result<Value, ValueFault>
    requires empty { waiting.old.items ≡ [] }
    requires room { is_room ROOM (length (steps_of expr.now.steps)) ≡ true }
    ensures { result ≡ value_of (value_named symbols.now) symbols.now.here (tree_of expr.now) }
{
    for item in expr.steps.as_slice() {
        apply(item, waiting, symbols)?;
    }
    Ok(last_of(waiting))
}

/// Values one item of an expression with the operands that wait.
fn apply<const ROOM: usize>(
    item: &PostfixItem,
    waiting: &mut ArrayVec<Value, ROOM>,
    symbols: &Symbols,
) -> Result<(), ValueFault>
    requires operands { fits (item_of item.now) (array_vec_len waiting.old) ≡ true }
    requires room { with_result (item_of item.now) (array_vec_len waiting.old) ≤ ROOM }
    ensures { MatchResult result
        (λ _. applied (value_named symbols.now) symbols.now.here (item_of item.now) (reverse waiting.old.items) ≡ Ok (reverse waiting.new.items))
        (λ f. applied (value_named symbols.now) symbols.now.here (item_of item.now) (reverse waiting.old.items) ≡ Err f) }
{
    match item {
        PostfixItem::Constant(number) => put_onto(waiting, plain_value(*number)),
        PostfixItem::Name(name) => {
            let value = symbols.get(name.as_str()).ok_or(ValueFault::Undefined);
            put_onto(waiting, value)
        }
        PostfixItem::Here => put_onto(waiting, Ok(symbols.here())),
        PostfixItem::Group => Ok(()),
        PostfixItem::Unary(operator) => {
            let operand = last_of(waiting);
            put_onto(waiting, unary_value(*operator, operand))
        }
        PostfixItem::Binary(operator) => {
            let right = last_of(waiting);
            let left = last_of(waiting);
            put_onto(waiting, binary_value(*operator, left, right))
        }
    }
}

/// Puts a value, if there is one, after the operands that wait.
#[inline]
fn put_onto<const ROOM: usize>(
    waiting: &mut ArrayVec<Value, ROOM>,
    value: Result<Value, ValueFault>,
) -> Result<(), ValueFault>
    requires { array_vec_len waiting.old < ROOM }
    ensures { MatchResult result
        (λ _. onto value (reverse waiting.old.items) ≡ Ok (reverse waiting.new.items))
        (λ f. onto value (reverse waiting.old.items) ≡ Err f) }
{
    waiting.push(value?);
    Ok(())
}

/// Removes the last operand that waits, and returns it.
fn last_of<const ROOM: usize>(waiting: &mut ArrayVec<Value, ROOM>) -> Value
    requires { 0 < array_vec_len waiting.old }
    ensures value { reverse waiting.old.items ≡ result ∷ reverse waiting.new.items }
    ensures length { array_vec_len waiting.new + 1 ≡ array_vec_len waiting.old }
{
    waiting.pop().unwrap()
}
