//! The assembler's language, line by line: fields, tokens and constants; substitution; operands, expressions
//! and their values; the forms and fields of instructions; and the faults of a source.
#![tactic(auto)]

pub mod expression;
pub mod line;
pub mod long_line;
pub mod quoting;
pub mod statement;
pub mod value;
