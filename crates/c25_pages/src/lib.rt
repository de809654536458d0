//! Data pages, checked: whether a table of what is known before each statement of a program is true in every run,
//! and whether DP is surely a page there.
//!
//! `program` has the statements, `table` what is known and supposed of them. `inductive` decides whether the table is
//! inductive, clause by clause: `acts`, `repeats` and `interrupts` go over its rows. `closed` decides whether no run
//! leaves the statements, `sure` whether DP is surely a page. Below them `leads` says where a routine may begin or
//! return, `stacked` whether words may be pushed and taken, `flow` where an instruction leads, `after` what is known after it, `written` which word it writes, and
//! `saved` which ST0 is then known to be saved.
#![tactic(auto)]

mod acts;
mod after;
mod closed;
mod flow;
mod implied;
mod inductive;
mod interrupts;
mod leads;
mod program;
mod refusal;
mod repeats;
mod saved;
mod stacked;
mod sure;
mod table;
mod written;

pub use after::known_after;
pub use closed::verify_closed;
pub use flow::{Flow, flow_of};
pub use inductive::{known_on_reset, verify};
pub use interrupts::known_on_entry;
pub use program::{CopiedStatement, PlainStatement, Program};
pub use refusal::Refusal;
pub use saved::saved_by;
pub use sure::is_surely_on;
pub use table::{Context, Row, Spared, Table};
pub use written::{Written, may_write, writes};
