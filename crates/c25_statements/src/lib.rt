//! Statements: what one line of a module says after expansion, and which operands and fields each instruction
//! has.
#![tactic(auto)]

mod directives;
pub mod exprs;
pub mod fields;
pub mod forms;
mod names;
mod operands;
mod operations;
mod sections;
mod shapes;
pub mod statement;
mod statement_reader;
mod strings;
mod trees;

pub use names::directive_in;
pub use operations::{operation_of, spelled};
pub use sections::section_in;
pub use statement_reader::{address_label, names_label, read_statement};
