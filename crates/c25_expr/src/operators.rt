//! What operators do with values.

ghost use Rattle.std.specs.Prelude.{◌≡◌, ◌<◌, ◌≤◌, ◌^◌, ◌*ℤ◌, IfSome, MatchResult, Ok, Err};
ghost use Rattle.c25_meaning_language.specs.declared.value.Base.TheVariants.{Absolute};
ghost use Rattle.c25_meaning_language.specs.Value.{in_range, shift_count, number_of, truth, base_of, unary_value, binary_value, plain_value};

use c25_meaning_language::expression::{BinaryOperator, UnaryOperator};
use c25_meaning_language::value::{Base, Value, ValueFault};

/// A number, if it fits in 32 bits with its sign; else `ValueRange` (25).
fn in_range(number: i64) -> Result<i32, ValueFault>
    ensures { result ≡ in_range number }
{
    if number >= -2147483648 && number <= 2147483647 {
        Ok(number as i32)
    } else {
        Err(ValueFault::ValueRange)
    }
}

/// A number as a shift count, if it is 0 to 31.
fn shift_count(number: i32) -> Option<u32>
    ensures value { result ≡ shift_count number }
    ensures small { IfSome result (λ n. n < 32) }
{
    if number >= 0 && number < 32 {
        Some(number as u32)
    } else {
        None
    }
}

fn product(x: i32, y: i32) -> Result<i32, ValueFault>
    ensures { result ≡ in_range (x *ℤ y) }
{
    in_range(i64::from(x) * i64::from(y))
}

fn quotient(x: i32, y: i32) -> Result<i32, ValueFault>
    ensures { result ≡ number_of BinaryOperator.Divide x y }
{
    if y == 0 {
        return Err(ValueFault::DivideByZero);
    }
    in_range(i64::from(x) / i64::from(y))
}

fn remainder(x: i32, y: i32) -> Result<i32, ValueFault>
    ensures { result ≡ number_of BinaryOperator.Remainder x y }
{
    if y == 0 {
        return Err(ValueFault::DivideByZero);
    }
    in_range(i64::from(x) % i64::from(y))
}

fn sum(x: i32, y: i32) -> Result<i32, ValueFault>
    ensures { result ≡ number_of BinaryOperator.Add x y }
{
    in_range(i64::from(x) + i64::from(y))
}

fn difference(x: i32, y: i32) -> Result<i32, ValueFault>
    ensures { result ≡ number_of BinaryOperator.Subtract x y }
{
    in_range(i64::from(x) - i64::from(y))
}

fn power_of_two(count: u32) -> u32
    requires { count < 32 }
    ensures value { result ≡ 2 ^ count }
    ensures bound { result ≤ 2 ^ 31 }
{
    1 << count
}

fn shifted_left(x: i32, y: i32) -> Result<i32, ValueFault>
    ensures { result ≡ number_of BinaryOperator.ShiftLeft x y }
{
    let Some(count) = shift_count(y) else {
        return Err(ValueFault::ValueRange);
    };
    in_range(i64::from(x) * i64::from(power_of_two(count)))
}

fn shifted_right(x: i32, y: i32) -> Result<i32, ValueFault>
    ensures { result ≡ number_of BinaryOperator.ShiftRight x y }
{
    let Some(count) = shift_count(y) else {
        return Err(ValueFault::ValueRange);
    };
    Ok(x >> count)
}

fn truth(holds: bool) -> i32
    ensures { result ≡ truth holds }
{
    if holds { 1 } else { 0 }
}

/// What a binary operator makes of two numbers; `DivideByZero` (24) for a division by 0, `ValueRange` (25)
/// where the result does not fit in 32 bits with its sign or a shift count is not 0 to 31.
fn number_of(operator: BinaryOperator, x: i32, y: i32) -> Result<i32, ValueFault>
    ensures { result ≡ number_of operator x y }
{
    match operator {
        BinaryOperator::Multiply => product(x, y),
        BinaryOperator::Divide => quotient(x, y),
        BinaryOperator::Remainder => remainder(x, y),
        BinaryOperator::Add => sum(x, y),
        BinaryOperator::Subtract => difference(x, y),
        BinaryOperator::ShiftLeft => shifted_left(x, y),
        BinaryOperator::ShiftRight => shifted_right(x, y),
        BinaryOperator::Less => Ok(truth(x < y)),
        BinaryOperator::LessOrEqual => Ok(truth(x <= y)),
        BinaryOperator::Greater => Ok(truth(x > y)),
        BinaryOperator::GreaterOrEqual => Ok(truth(x >= y)),
        BinaryOperator::Equal => Ok(truth(x == y)),
        BinaryOperator::NotEqual => Ok(truth(x != y)),
        BinaryOperator::And => Ok(x & y),
        BinaryOperator::ExclusiveOr => Ok(x ^ y),
        BinaryOperator::Or => Ok(x | y),
    }
}

/// The base of a result, or `NotAbsolute` (23) where the operator may not have operands of these bases.
fn base_of(operator: BinaryOperator, x: Base, y: Base) -> Result<Base, ValueFault>
    ensures { result ≡ base_of operator x y }
{
    match (operator, x, y) {
        (_, Base::Absolute, Base::Absolute) => Ok(Base::Absolute),
        (BinaryOperator::Add, base, Base::Absolute) => Ok(base),
        (BinaryOperator::Add, Base::Absolute, base) => Ok(base),
        (BinaryOperator::Subtract, base, Base::Absolute) => Ok(base),
        (BinaryOperator::Subtract, Base::Section(s), Base::Section(t)) if s == t => {
            Ok(Base::Absolute)
        }
        (BinaryOperator::Subtract, Base::Loaded(s), Base::Loaded(t)) if s == t => {
            Ok(Base::Absolute)
        }
        _ => Err(ValueFault::NotAbsolute),
    }
}

pub(crate) fn binary_value(
    operator: BinaryOperator,
    x: Value,
    y: Value,
) -> Result<Value, ValueFault>
    ensures { result ≡ binary_value operator x y }
{
    let base = base_of(operator, x.base, y.base)?;
    let offset = number_of(operator, x.offset, y.offset)?;
    Ok(Value { base, offset })
}

/// The value of a number by itself, if it fits in 32 bits with its sign.
fn absolute_value(number: i64) -> Result<Value, ValueFault>
    ensures { MatchResult (in_range number) (λ z. result ≡ Ok (record { base = Absolute; offset = z })) (λ f. result ≡ Err f) }
{
    let offset = in_range(number)?;
    Ok(Value {
        base: Base::Absolute,
        offset,
    })
}

pub(crate) fn unary_value(operator: UnaryOperator, x: Value) -> Result<Value, ValueFault>
    ensures { result ≡ unary_value operator x }
{
    match (operator, x.base) {
        (UnaryOperator::Plus, _) => Ok(x),
        (UnaryOperator::Minus, Base::Absolute) => absolute_value(-i64::from(x.offset)),
        (UnaryOperator::Complement, Base::Absolute) => Ok(Value {
            base: x.base,
            offset: !x.offset,
        }),
        _ => Err(ValueFault::NotAbsolute),
    }
}

pub(crate) fn plain_value(number: u32) -> Result<Value, ValueFault>
    ensures { result ≡ plain_value number }
{
    absolute_value(i64::from(number))
}
