//! Why a text has no value.

ghost use Rattle.std.specs.Prelude.{◌≡◌};
ghost use Rattle.c25_named_values.specs.Values.{no_value};

use c25_meaning_language::value::ValueFault;

/// Why a text has no value.
#[derive(Clone, Copy, PartialEq, Debug)]
pub enum NoValue {
    /// It is no expression.
    NoExpression,
    /// A name in it stands for no address.
    NoName,
    /// It divides by 0.
    DivideByZero,
    /// A number in it does not fit in 32 bits, its value does not fit in 16, or a shift count is not 0 to 31.
    TooLarge,
}

/// Why an expression has no value, of which all names stand for numbers.
pub(crate) fn no_value(fault: ValueFault) -> NoValue
    ensures { result ≡ no_value fault }
{
    match fault {
        ValueFault::Undefined => NoValue::NoName,
        ValueFault::NotAbsolute => NoValue::NoExpression,
        ValueFault::DivideByZero => NoValue::DivideByZero,
        ValueFault::ValueRange => NoValue::TooLarge,
    }
}
