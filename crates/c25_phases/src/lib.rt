//! Both phases of the assembler: from statements to the lists of a module.
//!
//! The first phase goes line by line, gives sections their sizes, marks and blocks, and names their values.
//! The second one goes over the operands when all names are known, and gives words and relocations. A module
//! is of version 2: it says each instruction's file and line.
//!
//! Both phases: `line_reader`, `item`, `targets`, `operand_values`, `names`, `section`, `source_lines`,
//! `file_runs`, `sections`, `fault`, `refusal`. The first: `progress`, `first_phase`, `acts`, `counts`. The
//! second: `second_phase`, `emission`, `lines`, `making`, which ends it, and `wrong`.
#![tactic(auto)]

mod acts;
mod counts;
mod emission;
pub mod fault;
mod file_runs;
mod first_phase;
mod item;
mod line_reader;
mod lines;
mod making;
mod names;
mod operand_values;
mod progress;
mod refusal;
mod second_phase;
mod section;
mod sections;
mod source_lines;
mod targets;
mod wrong;

pub use line_reader::{pass_or_leave_out, read_and_pass};
pub use making::finish;
pub use progress::Progress;
pub use refusal::{at_origin, line_fault};
pub use wrong::{FirstWrong, WrongItem, first_wrong, operand_faults};
