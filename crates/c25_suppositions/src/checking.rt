//! Steps of a board, with a test before each of them whether its state is as supposed.

ghost use Rattle.std.specs.Prelude.{◌≡◌, ◌+◌, ◌<◌, ◌≤◌, ◌^◌};
ghost use Rattle.c25_board.specs.Board.{entries, signals, state, steps};
ghost use Rattle.c25_meaning_processor.specs.Reset.{reset};
ghost use Rattle.c25_meaning_processor.specs.Statements.{IsImageOf};
ghost use Rattle.c25_pages.specs.Program.{IsAscending, statements_of};
ghost use Rattle.c25_pages.specs.Table.{knowledge_of};
ghost use Rattle.c25_suppositions.specs.Checked.{IsChecked};

use crate::breach::Breach;
use crate::found::{breach_of, imr_is_supposed};
use crate::run_board::RunBoard;
use c25_board::board::Outcome;
use c25_pages::{Program, Table};
use c25_run_laws::runs::image_runs_as_statements;

/// What came of a run whose suppositions were tested.
#[derive(Clone, Copy, PartialEq, Debug)]
pub enum Checked {
    /// The run was as supposed, and ended so.
    Supposed(Outcome),
    /// The run was ended before the first step whose state does not meet this supposition, or after its last step, where IMR
    /// then lets another line through.
    Unsupposed(Breach),
}

/// Does n steps of a board, or those up to the one that halts, from its first step on, and tests before each step whether its
/// state is as a table supposes of its program; after the last step it tests whether IMR lets another line through. The run ends
/// where something is not as supposed: the board is then in that state, and `next_address` says where the next step acts.
pub fn check_steps(board: &mut RunBoard, n: u32, program: &Program, table: &Table) -> Checked
    requires first { steps board.old ≡ 0 }
    requires start { (state board.old).registers ≡ reset }
    requires ascending { IsAscending program.now }
    requires image { IsImageOf (statements_of program.now) (state board.old).world }
    ensures checked { IsChecked (statements_of program.now) (knowledge_of table.now) (signals board.old) n (state board.old)
        result (steps board.new) (state board.new) board.old.devices.sink.failures board.new.devices.sink.failures }
    ensures schedule { entries board.new ≡ entries board.old }
{
    image_runs_as_statements();
    let mut done = 0;
    while done < n {
        match breach_of(board, program, table) {
            Some(breach) => return Checked::Unsupposed(breach),
            None => {}
        }
        match board.run_one() {
            Outcome::Ran => done += 1,
            Outcome::Left(at, stop) => return Checked::Supposed(Outcome::Left(at, stop)),
            Outcome::SinkFault(at) => return Checked::Supposed(Outcome::SinkFault(at)),
        }
    }
    if imr_is_supposed(board, table) {
        Checked::Supposed(Outcome::Ran)
    } else {
        Checked::Unsupposed(Breach::OtherLine)
    }
}
