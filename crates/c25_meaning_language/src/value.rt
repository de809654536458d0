//! Values of expressions.

use thiserror::Error;

/// Why an expression has no value.
#[derive(Clone, Copy, PartialEq, Debug, Error)]
#[error("{}", self.name())]
pub enum ValueFault {
    /// A name is not defined (22).
    Undefined,
    /// An operator that takes only absolute numbers was given an address (23).
    NotAbsolute,
    /// A divisor is zero (24).
    DivideByZero,
    /// A number outside 32 signed bits, or a shift count outside 0 to 31 (25).
    ValueRange,
}

impl ValueFault {
    ghost use Rattle.std.specs.Prelude.{◌≡◌};
    ghost use Rattle.c25_meaning_language.specs.Faults.{fault_name};
    ghost use Rattle.c25_meaning_language.specs.Statement.{value_fault};

    /// The fault's name, as shown to the user.
    pub fn name(&self) -> &'static str
        ensures { result.now ≡ fault_name (value_fault self.now) }
    {
        match self {
            ValueFault::Undefined => "Undefined",
            ValueFault::NotAbsolute => "NotAbsolute",
            ValueFault::DivideByZero => "DivideByZero",
            ValueFault::ValueRange => "ValueRange",
        }
    }
}

/// What a value counts from.
#[derive(Clone, Copy, PartialEq, Debug, Default)]
pub enum Base {
    /// Nothing: the value is a plain number.
    #[default]
    Absolute,
    /// The start of a section of this module where it runs, by the section's number.
    Section(u16),
    /// Where the words of a section of this module are loaded, by the section's number.
    Loaded(u16),
    /// The address of an external symbol, by the symbol's number.
    External(u16),
}

/// The value of an expression: a number that counts from a base.
#[derive(Clone, Copy, PartialEq, Debug, Default)]
pub struct Value {
    /// What the number counts from.
    pub base: Base,
    /// The number that is counted from there.
    pub offset: i32,
}
