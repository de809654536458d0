//! Runs whose suppositions are tested, step by step.
//!
//! What c25_pages knows of a program is true in each run that is as the knowledge supposes. `checking` runs a board and tests
//! before each step whether its state is as supposed; `breach` says which supposition it does not meet, and `laws` what is
//! true of a run whose suppositions all hold. Below it `found` tests the instruction that acts, `standing` says which one that
//! is, `written` which data word it writes, and `lines` which interrupt lines IMR lets through.
#![tactic(auto)]

mod breach;
mod checking;
mod found;
pub mod laws;
mod lines;
mod run_board;
mod standing;
mod written;

pub use breach::Breach;
pub use checking::{Checked, check_steps};
pub use found::next_address;
pub use run_board::RunBoard;
