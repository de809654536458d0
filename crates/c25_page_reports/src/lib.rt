//! What is found of the data pages of a linked program: direct operands that are another word than the one that is meant,
//! and code that may be left.
//!
//! `statements` has the statements of an image, `operands` its direct operands that name a word, by a relocation or by a
//! number. c25_page_finder finds a
//! table of what is known by what `supposed` supposes, and c25_pages verifies it. `verdicts` says what is wrong with which
//! operand, `findings` makes the warnings of it; `warning` has their lines, `remarks` what is known in words, and `facts` what
//! was supposed and found on the whole.
#![tactic(auto)]

mod facts;
mod findings;
pub mod laws;
mod operands;
mod remarks;
mod statements;
mod subject;
mod supposed;
mod verdicts;
mod warning;

pub use findings::{PageFindings, page_findings};
pub use operands::{AbsoluteOperand, PageOperand, page_operands};
pub use statements::statements_of_image;
pub use verdicts::{OperandFault, OperandReport, operand_reports};
pub use warning::{PageWarning, PageWarningKind, write_page_warning, write_page_warnings};
