//! Faults of lines, expressions and values, as faults of a source.

ghost use Rattle.std.specs.Prelude.{◌≡◌};
ghost use Rattle.c25_meaning_language.specs.Operands.{line_fault};
ghost use Rattle.c25_meaning_language.specs.Statement.{expression_fault, value_fault};

use c25_meaning_language::expression::ExpressionFault;
use c25_meaning_language::line::LineFault;
use c25_meaning_language::statement::FaultKind;
use c25_meaning_language::value::ValueFault;

/// A fault of a line's text as a fault of a source.
pub fn line_fault(fault: LineFault) -> FaultKind
    ensures { result ≡ line_fault fault }
{
    match fault {
        LineFault::BadLabel => FaultKind::BadLabel,
        LineFault::BadConstant => FaultKind::BadConstant,
        LineFault::OpenQuote => FaultKind::OpenQuote,
        LineFault::StrayText => FaultKind::StrayText,
    }
}

/// A fault of a value as a fault of a source.
pub fn value_fault(fault: ValueFault) -> FaultKind
    ensures { result ≡ value_fault fault }
{
    match fault {
        ValueFault::Undefined => FaultKind::Undefined,
        ValueFault::NotAbsolute => FaultKind::NotAbsolute,
        ValueFault::DivideByZero => FaultKind::DivideByZero,
        ValueFault::ValueRange => FaultKind::ValueRange,
    }
}

/// The fault of tokens that are no expression as a fault of a source.
pub fn expression_fault(fault: ExpressionFault) -> FaultKind
    ensures { result ≡ expression_fault fault }
{
    match fault {
        ExpressionFault::BadExpression => FaultKind::BadExpression,
        ExpressionFault::TooDeep => FaultKind::TooDeep,
    }
}
