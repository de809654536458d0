//! Expressions: reading them from tokens, the symbols of a module, values; and the operands of a line and of
//! directives.
#![tactic(auto)]

mod builder;
mod completes;
pub mod directive_operands;
pub mod expression_reader;
pub mod failure;
pub mod laws;
pub mod operands;
mod operators;
mod signs;
mod steps;
pub mod symbols;
pub mod tree;
pub mod value;

pub use expression_reader::read_expr;
pub use symbols::Symbols;
